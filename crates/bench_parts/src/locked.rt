//! The same work under a `Mutex`, and loads of an atomic word.
use crate::tally::Tally;
use node_gate::Counted;
use std::alloc::Global;
use std::sync::atomic::{AtomicU64, Ordering};
use std::sync::{Mutex, Wait};
use std::thread::{Threads, join};
use wsrep_base::NoMemory;

fn one<T: Wait>(rt: &T, tally: &Mutex<Tally>, rounds: u32) -> Result<(), NoMemory> {
    for _ in 0..rounds {
        tally.lock(rt).add(0)?;
    }
    Ok(())
}

fn two<R: Threads + Wait + Sync>(
    rt: &R,
    tally: &Mutex<Tally>,
    rounds: u32,
) -> Result<(), NoMemory> {
    let (left, right) = join(rt, || one(rt, tally, rounds), || one(rt, tally, rounds));
    left.and(right)
}

/// How many turns were made, once each of one, two or four threads has made its own.
pub fn turns<R: Threads + Wait + Sync>(
    rt: &R,
    alloc: Global,
    threads: u8,
    rounds: u32,
) -> Result<u64, NoMemory> {
    let tally = Mutex::new(Tally::new(alloc));
    let shared = &tally;
    match threads {
        1 => one(rt, shared, rounds)?,
        2 => two(rt, shared, rounds)?,
        _ => {
            let (left, right) = join(rt, || two(rt, shared, rounds), || two(rt, shared, rounds));
            left.and(right)?;
        }
    }
    Ok(tally.into_inner().steps())
}

/// The last of so many loads of a word.
pub fn loads(rounds: u32) -> u64 {
    let word = AtomicU64::new(1);
    let mut found = 0;
    for _ in 0..rounds {
        found = word.load(Ordering::SeqCst);
    }
    found
}
