//! The calls of both types of rows with owners, beside 1,000, 100,000 and 1,000,000 rows.
ghost use Rattle.std.specs.Prelude.{◌≡◌, ◌<◌};
ghost use Rattle.finite_map.specs.FiniteMap.{empty};

use crate::measure::{Measure, Rounds};
use anyhow::Result;
use row_model::{Op, Row, RowId};
use std::alloc::Global;
use std::rt::Clock;
use std::time::Instant;
use undo_rows::{Overlay, Rows, UndoRows};
use wsrep_base::NoMemory;

/// The session whose calls are measured.
const OWN: u8 = 5;

/// The rows that each round is about.
const EACH: u32 = 1000;

// What is measured.
#[derive(Clone, Copy)]
enum Work {
    Committed,
    Write,
    RollBack,
    Keep,
}

impl Work {
    fn name(self) -> &'static str {
        match self {
            Work::Committed => "committed",
            Work::Write => "write",
            Work::RollBack => "roll back",
            Work::Keep => "keep",
        }
    }
}

// A row of one table.
fn row_id(number: u32) -> RowId {
    let mut table = [0; 16];
    table[0] = b't';
    let [first, second, third, fourth] = number.to_be_bytes();
    let mut row = [0; 16];
    row[0] = first;
    row[1] = second;
    row[2] = third;
    row[3] = fourth;
    RowId { table, row }
}

// Puts as many rows, where nobody has changed a row.
fn put_all<R: Rows>(rows: &mut R, count: u32) -> Result<(), NoMemory>
    requires { (R.table rows.old).changes ≡ empty }
    ensures { (R.table rows.new).changes ≡ empty }
{
    for number in 0..count {
        put_row(rows, number)?;
    }
    Ok(())
}

// Puts the first rows over and over, as many as are to be put.
fn put_again<R: Rows>(rows: &mut R, count: u32) -> Result<(), NoMemory>
    requires { (R.table rows.old).changes ≡ empty }
    ensures { (R.table rows.new).changes ≡ empty }
{
    for number in 0..count {
        put_row(rows, number % EACH)?;
    }
    Ok(())
}

fn put_row<R: Rows>(rows: &mut R, number: u32) -> Result<(), NoMemory>
    requires { (R.table rows.old).changes ≡ empty }
    ensures { (R.table rows.new).changes ≡ empty }
{
    rows.reserve(1)?;
    rows.put(&row_id(number), Row::of(&[u64::from(number)]));
    Ok(())
}

fn write_all<R: Rows>(rows: &mut R) -> Result<(), NoMemory> {
    for number in 0..EACH {
        let none = None;
        let change = [Some(1), none, none, none, none, none, none, none];
        rows.write(OWN, &Op::Update(row_id(number), change))?;
    }
    Ok(())
}

// How many of the rows have a first value of 1.
fn committed_ones<R: Rows>(rows: &R) -> u64 {
    let mut found: u64 = 0;
    for number in 0..EACH {
        if let Some(row) = rows.committed(&row_id(number)) {
            if row.get(1) == Some(1) {
                found = found.wrapping_add(1);
            }
        }
    }
    found
}

// What must stand before the timed part of a round: changes, where they are to go.
fn prepare<R: Rows>(work: Work, rows: &mut R) -> Result<(), NoMemory> {
    match work {
        Work::Committed | Work::Write => Ok(()),
        Work::RollBack | Work::Keep => write_all(rows),
    }
}

// The timed part of a round; what it found, where it reads.
fn act<R: Rows>(work: Work, rows: &mut R) -> Result<Option<u64>, NoMemory> {
    match work {
        Work::Committed => return Ok(Some(committed_ones(rows))),
        Work::Write => write_all(rows)?,
        Work::RollBack => rows.roll_back(OWN),
        Work::Keep => rows.keep(OWN),
    }
    Ok(None)
}

// One round; afterwards there are no changes.
fn one_round<R: Rows>(rt: &impl Clock, work: Work, rows: &mut R) -> Result<Measure> {
    prepare(work, rows)?;
    let start = Instant::now(rt)?;
    let read = act(work, rows)?;
    let nanos = start.elapsed(rt)?.as_nanos();
    rows.roll_back(OWN);
    let found = read.unwrap_or(committed_ones(rows));
    Ok(Measure { found, nanos })
}

// So many rounds; the nanoseconds of all, and what the last one found.
fn all_rounds<R: Rows>(rt: &impl Clock, work: Work, rounds: u32, rows: &mut R) -> Result<Measure> {
    let mut found = 0;
    let mut nanos: u128 = 0;
    for _ in 0..rounds {
        let round = one_round(rt, work, rows)?;
        found = round.found;
        nanos = nanos.wrapping_add(round.nanos);
    }
    Ok(Measure { found, nanos })
}

// What is measured: rows of a type with this name, so many of them.
#[derive(Clone, Copy)]
struct Case {
    name: &'static str,
    rows: u32,
    rounds: Rounds,
}

fn report(rt: &impl Print, case: Case, work: &str, told: Measure) -> Result<()> {
    let Case { name, rows, rounds } = case;
    if rounds.timed {
        let each = told.each(EACH) / u128::from(rounds.count.max(1));
        println!(rt;
            "{:>9} {:>9} beside {:>7} rows: {:>5} ns",
            name, work, rows, each
        )?;
    } else {
        println!(rt; "{} {} beside {} rows: {}", name, work, rows, told.found)?;
    }
    Ok(())
}

// Puts the rows, where nobody has changed a row, and measures puts in their places.
fn measure_puts<R: Rows, T: Clock + Print>(rt: &T, case: Case, rows: &mut R) -> Result<()>
    requires { (R.table rows.old).changes ≡ empty }
{
    put_all(rows, case.rows)?;
    let start = Instant::now(rt)?;
    put_again(rows, case.rounds.count.wrapping_mul(EACH))?;
    let nanos = start.elapsed(rt)?.as_nanos();
    report(rt, case, "put", Measure { found: 1, nanos })
}

// All works on rows in which nobody has changed one.
fn measure<R: Rows, T: Clock + Print>(rt: &T, case: Case, rows: &mut R) -> Result<()>
    requires { (R.table rows.old).changes ≡ empty }
{
    measure_puts(rt, case, rows)?;
    write_all(rows)?;
    rows.roll_back(OWN);
    for work in [Work::Committed, Work::Write, Work::RollBack, Work::Keep] {
        let told = all_rounds(rt, work, case.rounds.count, rows)?;
        report(rt, case, work.name(), told)?;
    }
    Ok(())
}

fn measure_both<T: Clock + Print>(rt: &T, alloc: Global, rows: u32, rounds: Rounds) -> Result<()> {
    let name = "Overlay";
    measure(rt, Case { name, rows, rounds }, &mut Overlay::new(alloc)?)?;
    let name = "UndoRows";
    measure(rt, Case { name, rows, rounds }, &mut UndoRows::new(alloc)?)
}

/// Prints a line of each work on each type beside 1,000, 100,000 and 1,000,000 rows.
pub fn measure_all<T: Clock + Print>(rt: &T, alloc: Global, timed: bool) -> Result<()> {
    let count = if timed { 50 } else { 1 };
    for rows in [1_000, 100_000, 1_000_000] {
        measure_both(rt, alloc, rows, Rounds { count, timed })?;
    }
    Ok(())
}
