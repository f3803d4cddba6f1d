//! Turns of a gate by one, two and four threads, beside a `Mutex` with the same work, and loads of
//! the number published beside loads of an atomic word.
use crate::measure::{Measure, Rounds};
use crate::{gated, locked};
use anyhow::Result;
use std::alloc::Global;
use std::rt::Clock;
use std::sync::Wait;
use std::thread::Threads;
use std::time::Instant;
use wsrep_base::NoMemory;

// Who lends the value.
#[derive(Clone, Copy)]
enum Lender {
    Gate,
    Mutex,
}

impl Lender {
    fn turns<R: Threads + Wait + Sync>(
        self,
        rt: &R,
        alloc: Global,
        threads: u8,
        rounds: u32,
    ) -> Result<u64, NoMemory> {
        match self {
            Lender::Gate => gated::turns(rt, alloc, threads, rounds),
            Lender::Mutex => locked::turns(rt, alloc, threads, rounds),
        }
    }

    // Of a mutex nothing is loaded: an atomic word stands in its place.
    fn loads<T: Wait>(self, rt: &T, alloc: Global, rounds: u32) -> Result<u64, NoMemory> {
        match self {
            Lender::Gate => gated::loads(rt, alloc, rounds),
            Lender::Mutex => Ok(locked::loads(rounds)),
        }
    }
}

fn report_turns(
    rt: &impl Print,
    name: &str,
    threads: u8,
    rounds: Rounds,
    told: Measure,
) -> Result<()> {
    let Measure { found, nanos } = told;
    if rounds.timed {
        let turns = u128::from(found) * 1_000_000_000 / nanos.max(1);
        println!(rt;
            "{:>5}, threads {}: {:>9} turns a second",
            name, threads, turns
        )?;
    } else {
        println!(rt; "{}, threads {}: {} turns", name, threads, found)?;
    }
    Ok(())
}

fn measure_turns<R: Clock + Print + Threads + Wait + Sync>(
    rt: &R,
    alloc: Global,
    lender: Lender,
    name: &str,
    threads: u8,
    rounds: Rounds,
) -> Result<()> {
    let start = Instant::now(rt)?;
    let found = lender.turns(rt, alloc, threads, rounds.count)?;
    let nanos = start.elapsed(rt)?.as_nanos();
    report_turns(rt, name, threads, rounds, Measure { found, nanos })
}

// Nanoseconds in tenths.
fn report_loads(rt: &impl Print, name: &str, rounds: Rounds, told: Measure) -> Result<()> {
    if rounds.timed {
        let tenths = told.each(rounds.count / 10);
        println!(rt; "{:>6}: {:>4}.{} ns a load", name, tenths / 10, tenths % 10)?;
    } else {
        println!(rt; "{}: loaded {}", name, told.found)?;
    }
    Ok(())
}

fn measure_loads<R: Clock + Print + Wait>(
    rt: &R,
    alloc: Global,
    lender: Lender,
    name: &str,
    rounds: Rounds,
) -> Result<()> {
    let start = Instant::now(rt)?;
    let found = lender.loads(rt, alloc, rounds.count)?;
    let nanos = start.elapsed(rt)?.as_nanos();
    report_loads(rt, name, rounds, Measure { found, nanos })
}

/// Prints a line of the turns of each lender by one, two and four threads, and of the loads.
pub fn measure_all<R: Clock + Print + Threads + Wait + Sync>(
    rt: &R,
    alloc: Global,
    timed: bool,
) -> Result<()> {
    let count = if timed { 100_000 } else { 3 };
    let rounds = Rounds { count, timed };
    for threads in [1, 2, 4] {
        measure_turns(rt, alloc, Lender::Gate, "gate", threads, rounds)?;
        measure_turns(rt, alloc, Lender::Mutex, "mutex", threads, rounds)?;
    }
    let count = if timed { 10_000_000 } else { 3 };
    let rounds = Rounds { count, timed };
    measure_loads(rt, alloc, Lender::Gate, "gate", rounds)?;
    measure_loads(rt, alloc, Lender::Mutex, "atomic", rounds)
}
