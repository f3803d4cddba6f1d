//! Measures calls of key sets, of rows with owners and of a gate. With no argument it does a few
//! rounds of each and prints what it found; with the word `keys`, `rows` or `gate` it prints how
//! long the calls of that part take.
#![tactic(auto)]

mod gate;
mod gated;
mod keys;
mod locked;
mod measure;
mod rows;
mod tally;

use anyhow::Result;
use std::alloc::Global;
use std::env;
use std::rt::Clock;
use std::sync::Wait;
use std::thread::Threads;

fn main(rt: HostRuntime) -> Result<()> {
    let mut words = env::args(&rt)?;
    let _program = words.next();
    match words.next() {
        None => do_once(&rt, rt.alloc()),
        Some(word) => time_part(&rt, rt.alloc(), &word),
    }
}

fn do_once<R: Clock + Print + Threads + Wait + Sync>(rt: &R, alloc: Global) -> Result<()> {
    keys::measure_all(rt, alloc, false)?;
    rows::measure_all(rt, alloc, false)?;
    gate::measure_all(rt, alloc, false)
}

fn time_part<R: Clock + Print + Threads + Wait + Sync>(
    rt: &R,
    alloc: Global,
    part: &str,
) -> Result<()> {
    match part {
        "keys" => keys::measure_all(rt, alloc, true),
        "rows" => rows::measure_all(rt, alloc, true),
        _ => gate::measure_all(rt, alloc, true),
    }
}
