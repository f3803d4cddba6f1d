//! Measures installing and taking snapshots of 1,000, 10,000 and 100,000 rows. With no argument it
//! prints what it found; with any argument it prints nanoseconds a row.
#![tactic(auto)]

use anyhow::Result;
use state_snapshot::{install, take};
use std::alloc::{AllocError, Global};
use std::env;
use std::time::Instant;

// One round: its nanoseconds, and whether the bytes came back.
#[derive(Clone, Copy)]
struct Round {
    installing: u128,
    taking: u128,
    same: bool,
}

// A decimal digit of a number.
fn digit(number: u32, unit: u32) -> u8 {
    match number.checked_div(unit) {
        Some(units) => b'0' + (units % 10) as u8,
        None => b'0',
    }
}

// A row of table t, named by five digits, with one value.
fn put_row(out: &mut Vec<u8>, number: u32) -> Result<(), AllocError> {
    out.extend_from_slice(&[1, b't', 5])?;
    for unit in [10_000, 1_000, 100, 10, 1] {
        out.push(digit(number, unit))?;
    }
    out.extend_from_slice(&[1, 0, 0, 0, 0, 0, 0, 0, 7])
}

// The snapshot of a state with so many rows and nothing else.
fn spelled(alloc: Global, rows: u32) -> Result<Vec<u8>, AllocError> {
    let mut out = Vec::new(alloc);
    out.extend_from_slice(&[0x53, 1])?;
    out.extend_from_slice(&[1; 16])?;
    out.extend_from_slice(&[0; 24])?;
    out.extend_from_slice(&rows.to_be_bytes())?;
    for number in 0..rows {
        put_row(&mut out, number)?;
    }
    out.extend_from_slice(&[0; 8])?;
    Ok(out)
}

// The bytes are installed, and the state is taken.
fn one_round(rt: HostRuntime, bytes: &[u8]) -> Result<Round> {
    let start = Instant::now(&rt)?;
    let (state, id) = install(rt.alloc(), bytes)?;
    let installing = start.elapsed(&rt)?.as_nanos();
    let start = Instant::now(&rt)?;
    let again = take(&state, id)?;
    let taking = start.elapsed(&rt)?.as_nanos();
    Ok(Round {
        installing,
        taking,
        same: again.as_slice() == bytes,
    })
}

// One measure: what it found, or nanoseconds a row.
fn measure(rt: HostRuntime, timed: bool, rows: u32) -> Result<()> {
    let bytes = spelled(rt.alloc(), rows)?;
    let round = one_round(rt, &bytes)?;
    if timed {
        let each = u128::from(rows.max(1));
        println!(rt;
            "{:>7} rows: install {:>5} ns, take {:>5} ns",
            rows,
            round.installing / each,
            round.taking / each
        )?;
    } else {
        println!(rt; "{} rows, {} bytes: {}", rows, bytes.len(), round.same)?;
    }
    Ok(())
}

fn main(rt: HostRuntime) -> Result<()> {
    let timed = env::args(&rt)?.count() > 1;
    for rows in [1_000, 10_000, 100_000] {
        measure(rt, timed, rows)?;
    }
    Ok(())
}
