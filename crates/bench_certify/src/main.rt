//! Measures certifying: write sets of two keys, which have seen the order up to 100 numbers before,
//! beside an index whose size stays, as reports come. With no argument it does a small round of two
//! cases and prints what they came to. With two numbers, that of the rows and how far behind the
//! reports are, it prints millions of write sets a second, the best of five rounds.
#![tactic(auto)]

mod line;
mod making;

use anyhow::{Context, Result};
use line::Line;
use making::{Case, Maker};
use order_event::{Event, EventList};
use std::alloc::Global;
use std::env;
use std::rt::Clock;
use std::time::Instant;
use wsrep_base::Judged;

/// The events of a timed round.
const ROUND: u64 = 32_000;

// What was done: how many write sets were judged, and how many of them passed.
#[derive(Clone, Copy)]
struct Done {
    sets: u64,
    passed: u64,
}

impl Done {
    fn nothing() -> Done {
        Done { sets: 0, passed: 0 }
    }

    // With one more event, of which this became.
    fn with(self, judged: Judged) -> Done {
        let Done { sets, passed } = self;
        match judged {
            Judged::View | Judged::Report => self,
            Judged::Commit | Judged::Fragment | Judged::Rollback => Done {
                sets: sets.wrapping_add(1),
                passed: passed.wrapping_add(1),
            },
            Judged::Fail(_) => Done {
                sets: sets.wrapping_add(1),
                passed,
            },
        }
    }
}

// Thousands of write sets a second: certified, and made too.
#[derive(Clone, Copy)]
struct Rates {
    certify: u128,
    whole: u128,
}

// What a case runs on.
#[derive(Drop)]
struct Bench {
    alloc: Global,
    line: Line,
    maker: Maker,
}

impl Bench {
    fn new(alloc: Global, case: Case) -> Result<Bench> {
        Ok(Bench {
            alloc,
            line: Line::new(alloc)?,
            maker: Maker::new(case),
        })
    }

    // So many events are made and certified, one after the other.
    fn run(&mut self, count: u64) -> Result<Done> {
        let mut done = Done::nothing();
        for _ in 0..count {
            let number = self.line.number().wrapping_add(1);
            let event = self.maker.event(self.alloc, number)?;
            done = done.with(self.line.put(&event)?);
        }
        Ok(done)
    }

    // So many events are made.
    fn make(&mut self, count: u64) -> Result<EventList> {
        let first = self.line.number().wrapping_add(1);
        let mut events = EventList::new(self.alloc);
        for place in 0..count {
            let event = self.maker.event(self.alloc, first.wrapping_add(place))?;
            events.push(event)?;
        }
        Ok(events)
    }

    // These events are certified, one after the other.
    fn certify(&mut self, events: &[Event]) -> Result<Done> {
        let mut done = Done::nothing();
        for event in events {
            done = done.with(self.line.put(event)?);
        }
        Ok(done)
    }

    // One round of each kind.
    fn round(&mut self, rt: &impl Clock) -> Result<Rates> {
        let events = self.make(ROUND)?;
        let start = Instant::now(rt)?;
        let done = self.certify(events.as_slice())?;
        let certify = rate(done, start.elapsed(rt)?.as_nanos());
        let start = Instant::now(rt)?;
        let done = self.run(ROUND)?;
        let whole = rate(done, start.elapsed(rt)?.as_nanos());
        Ok(Rates { certify, whole })
    }

    // The best of five rounds.
    fn best(&mut self, rt: &impl Clock) -> Result<Rates> {
        let mut best = self.round(rt)?;
        for _ in 0..4 {
            let next = self.round(rt)?;
            best = Rates {
                certify: best.certify.max(next.certify),
                whole: best.whole.max(next.whole),
            };
        }
        Ok(best)
    }
}

// Thousands of write sets a second.
fn rate(done: Done, nanos: u128) -> u128 {
    u128::from(done.sets).wrapping_mul(1_000_000) / nanos.max(1)
}

// A small round of a case, and what it came to.
fn show(rt: &impl Print, alloc: Global, case: Case) -> Result<()> {
    let mut bench = Bench::new(alloc, case)?;
    let done = bench.run(3_000)?;
    println!(rt;
        "{} rows: {} of {} write sets passed, the index has {} entries",
        case.rows,
        done.passed,
        done.sets,
        bench.line.entries()
    )?;
    Ok(())
}

// The rates of a case, once the index has its size and a round has warmed up.
fn time<T: Clock + Print>(rt: &T, alloc: Global, case: Case) -> Result<()> {
    let mut bench = Bench::new(alloc, case)?;
    bench.run(case.behind.saturating_add(ROUND))?;
    let rates = bench.best(rt)?;
    println!(rt;
        "index of {:>7} entries: {:>2}.{:03} million write sets a second, {:>2}.{:03} with making them",
        bench.line.entries(),
        rates.certify / 1000,
        rates.certify % 1000,
        rates.whole / 1000,
        rates.whole % 1000
    )?;
    Ok(())
}

// The number that a word is.
fn number_of(word: Option<String>) -> Result<u64> {
    let word = word.context("two numbers are wanted")?;
    Ok(word.parse()?)
}

fn main(rt: HostRuntime) -> Result<()> {
    let mut words = env::args(&rt)?;
    let _program = words.next();
    let Some(first) = words.next() else {
        let behind = 1_000;
        show(&rt, rt.alloc(), Case { rows: 63, behind })?;
        return show(
            &rt,
            rt.alloc(),
            Case {
                rows: 1_000_000,
                behind,
            },
        );
    };
    let rows = number_of(Some(first))?;
    let behind = number_of(words.next())?;
    time(&rt, rt.alloc(), Case { rows, behind })
}
