//! `conflicts`, `touches` and `union` of two key sets.
use crate::measure::{Measure, Rounds};
use anyhow::Result;
use key_sets::{KeyFault, KeySet, Kind, Parts, conflicts, touches};
use std::alloc::Global;
use std::rt::Clock;
use std::time::Instant;

// What is measured.
#[derive(Clone, Copy)]
enum Work {
    Conflicts,
    Touches,
    Union,
}

impl Work {
    fn name(self) -> &'static str {
        match self {
            Work::Conflicts => "conflicts",
            Work::Touches => "touches",
            Work::Union => "union",
        }
    }

    // One round; the number of keys that it found or made.
    fn done(self, one: &KeySet, other: &KeySet) -> Result<usize, KeyFault> {
        match self {
            Work::Conflicts => Ok(usize::from(conflicts(one, other))),
            Work::Touches => Ok(usize::from(touches(one, other))),
            Work::Union => Ok(one.union(other)?.len()),
        }
    }
}

// The key of a row of one table.
fn row_parts(number: u16) -> Parts {
    let [high, low] = number.to_be_bytes();
    let mut table = [0; 16];
    table[0] = b't';
    let mut row = [0; 16];
    row[0] = high;
    row[1] = low;
    Parts {
        table,
        row: Some(row),
    }
}

// Shared keys of the first rows: two such sets do not meet, and are compared to the end.
fn shared_rows(alloc: Global, count: u16) -> Result<KeySet, KeyFault> {
    let mut set = KeySet::new(alloc).map_err(|_| KeyFault::NoMemory)?;
    for number in 0..count {
        set.add(&row_parts(number), Kind::Shared)?;
    }
    Ok(set)
}

// So many rounds; the sum of what they found. The sets change places each round.
fn all_rounds(work: Work, rounds: u32, a: &KeySet, b: &KeySet) -> Result<u64, KeyFault> {
    let mut found: u64 = 0;
    for round in 0..rounds {
        let keys = if round % 2 == 0 {
            work.done(a, b)?
        } else {
            work.done(b, a)?
        };
        found = found.wrapping_add(keys as u64);
    }
    Ok(found)
}

fn time(rt: &impl Clock, work: Work, rounds: u32, a: &KeySet, b: &KeySet) -> Result<Measure> {
    let start = Instant::now(rt)?;
    let found = all_rounds(work, rounds, a, b)?;
    let nanos = start.elapsed(rt)?.as_nanos();
    Ok(Measure { found, nanos })
}

fn report(rt: &impl Print, name: &str, keys: u16, rounds: Rounds, told: Measure) -> Result<()> {
    if rounds.timed {
        let each = told.each(rounds.count);
        println!(rt; "{:>9} of {:>4} keys: {:>9} ns", name, keys, each)?;
    } else {
        println!(rt; "{} of {} keys: {}", name, keys, told.found)?;
    }
    Ok(())
}

// All works on two sets of so many keys.
fn measure<T: Clock + Print>(rt: &T, alloc: Global, keys: u16, rounds: Rounds) -> Result<()> {
    let a = shared_rows(alloc, keys)?;
    let b = shared_rows(alloc, keys)?;
    for work in [Work::Conflicts, Work::Touches, Work::Union] {
        let told = time(rt, work, rounds.count, &a, &b)?;
        report(rt, work.name(), keys, rounds, told)?;
    }
    Ok(())
}

/// Prints a line of each work on sets of 64 and of 4,096 keys.
pub fn measure_all<T: Clock + Print>(rt: &T, alloc: Global, timed: bool) -> Result<()> {
    let [small, large] = if timed { [20_000, 300] } else { [1, 1] };
    let rounds = Rounds {
        count: small,
        timed,
    };
    measure(rt, alloc, 64, rounds)?;
    let rounds = Rounds {
        count: large,
        timed,
    };
    measure(rt, alloc, 4096, rounds)
}
