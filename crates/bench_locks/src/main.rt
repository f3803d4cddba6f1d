//! Measures the calls of the table of locks and of rows with owners, beside 1,000 and 100,000
//! entries of four others, and the calls of the table of locks beside 1 to 4,000 other holders.
//! With no argument it does one round of each and prints what it found; with any argument it prints
//! nanoseconds a round.
#![tactic(auto)]

use anyhow::Result;
use key_sets::{Kind, Parts};
use row_locks::{Grant, Holder, LockTable};
use row_model::{Op, Row, RowId};
use std::alloc::Global;
use std::env;
use std::rt::Clock;
use std::time::Instant;
use undo_rows::{Overlay, Rows};
use wsrep_base::NoMemory;

/// The session whose calls are measured.
const OWN: u8 = 5;

// What is measured.
#[derive(Clone, Copy)]
enum Work {
    Check,
    CheckFree,
    GrantAndRelease,
    Committed,
    WriteAndRollBack,
}

impl Work {
    fn name(self) -> &'static str {
        match self {
            Work::Check => "check",
            Work::CheckFree => "check, free",
            Work::GrantAndRelease => "grant, release",
            Work::Committed => "committed",
            Work::WriteAndRollBack => "write, roll_back",
        }
    }

    // One round on the row with this number; 1 where it found what it should.
    fn done(self, tables: &mut Tables, number: u32) -> Result<u64, NoMemory> {
        let id = row_id(number);
        match self {
            Work::Check => Ok(tables.blocked(&parts_of(&id))),
            Work::CheckFree => Ok(tables.blocked(&free_parts(&id))),
            Work::GrantAndRelease => tables.grant_and_release(&id),
            Work::Committed => Ok(u64::from(tables.rows.committed(&id).is_some())),
            Work::WriteAndRollBack => tables.write_and_roll_back(&id),
        }
    }
}

// The tables that are measured.
#[derive(Drop)]
struct Tables {
    locks: LockTable,
    rows: Overlay,
}

impl Tables {
    // So many rows, each committed and locked by one of four sessions.
    fn filled(alloc: Global, count: u32) -> Result<Tables, NoMemory> {
        let mut locks = LockTable::new(alloc)?;
        let mut rows = Overlay::new(alloc)?;
        for number in 0..count {
            let id = row_id(number);
            let session = (number % 4) as u8 + 1;
            locks.grant(Holder::Session(session), &parts_of(&id), Kind::Exclusive)?;
            if let Some(row) = Row::of(&[u64::from(number)]) {
                rows.write(session, &Op::Insert(id, row))?;
            }
        }
        for session in 1..5_u8 {
            rows.keep(session);
        }
        Ok(Tables { locks, rows })
    }

    // So many units, each with a key of a row of its own, and no rows.
    fn held(alloc: Global, holders: u32) -> Result<Tables, NoMemory> {
        let mut locks = LockTable::new(alloc)?;
        for number in 0..holders {
            let parts = parts_of(&row_id(number));
            locks.reserve(1)?;
            locks.hold(Holder::Unit(u64::from(number)), &[(parts, Kind::Exclusive)]);
        }
        let rows = Overlay::new(alloc)?;
        Ok(Tables { locks, rows })
    }

    // 1 where another holder is in the way of the key.
    fn blocked(&self, parts: &Parts) -> u64 {
        let blocker = self.locks.check(Holder::Session(OWN), parts, Kind::Update);
        u64::from(blocker.is_some())
    }

    // A key that nobody has is granted, and goes.
    fn grant_and_release(&mut self, id: &RowId) -> Result<u64, NoMemory> {
        let parts = free_parts(id);
        let grant = self
            .locks
            .grant(Holder::Session(OWN), &parts, Kind::Exclusive)?;
        self.locks.release(Holder::Session(OWN));
        Ok(u64::from(matches!(&grant, Grant::Held)))
    }

    // The row is deleted, and the change goes.
    fn write_and_roll_back(&mut self, id: &RowId) -> Result<u64, NoMemory> {
        self.rows.write(OWN, &Op::Delete(*id))?;
        let gone = self.rows.seen_by(OWN, id).is_none();
        self.rows.roll_back(OWN);
        Ok(u64::from(gone))
    }
}

// A row of one table.
fn row_id(number: u32) -> RowId {
    let mut table = [0; 16];
    table[0] = b't';
    let [first, second, third, fourth] = number.to_be_bytes();
    let mut row = [0; 16];
    row[0] = first;
    row[1] = second;
    row[2] = third;
    row[3] = fourth;
    RowId { table, row }
}

fn parts_of(id: &RowId) -> Parts {
    Parts {
        table: id.table,
        row: Some(id.row),
    }
}

// The key of the same row in a table that nobody has keys of.
fn free_parts(id: &RowId) -> Parts {
    let mut parts = parts_of(id);
    parts.table[1] = b'u';
    parts
}

// So many rounds, each on another row; the sum of what they found.
fn all_rounds(work: Work, rounds: u32, tables: &mut Tables) -> Result<u64, NoMemory> {
    let mut found: u64 = 0;
    for round in 0..rounds {
        found = found.wrapping_add(work.done(tables, round % 1000)?);
    }
    Ok(found)
}

// So many rounds, and how long they took.
fn time(rt: &impl Clock, work: Work, rounds: u32, tables: &mut Tables) -> Result<(u64, u128)> {
    let start = Instant::now(rt)?;
    let found = all_rounds(work, rounds, tables)?;
    Ok((found, start.elapsed(rt)?.as_nanos()))
}

// One measure: one round and what it found, or nanoseconds a round.
fn measure<T: Clock + Print>(
    rt: &T,
    timed: bool,
    work: Work,
    beside: &str,
    count: u32,
    tables: &mut Tables,
) -> Result<()> {
    let name = work.name();
    if timed {
        let (_, nanos) = time(rt, work, 20_000, tables)?;
        let each = nanos / 20_000;
        println!(rt;
            "{:>16} beside {:>6} {}: {:>6} ns",
            name, count, beside, each
        )?;
    } else {
        let (found, _) = time(rt, work, 1, tables)?;
        println!(rt; "{} beside {} {}: {}", name, count, beside, found)?;
    }
    Ok(())
}

// The lines beside so many entries of four sessions.
fn measure_filled<T: Clock + Print>(rt: &T, alloc: Global, timed: bool, count: u32) -> Result<()> {
    let mut tables = Tables::filled(alloc, count)?;
    for work in [
        Work::Check,
        Work::GrantAndRelease,
        Work::Committed,
        Work::WriteAndRollBack,
    ] {
        measure(rt, timed, work, "entries", count, &mut tables)?;
    }
    Ok(())
}

// The lines beside so many holders.
fn measure_held<T: Clock + Print>(rt: &T, alloc: Global, timed: bool, count: u32) -> Result<()> {
    let mut tables = Tables::held(alloc, count)?;
    for work in [Work::Check, Work::CheckFree, Work::GrantAndRelease] {
        measure(rt, timed, work, "holders", count, &mut tables)?;
    }
    Ok(())
}

fn main(rt: HostRuntime) -> Result<()> {
    let timed = env::args(&rt)?.count() > 1;
    for count in [1_000, 100_000] {
        measure_filled(&rt, rt.alloc(), timed, count)?;
    }
    for count in [1, 60, 4_000] {
        measure_held(&rt, rt.alloc(), timed, count)?;
    }
    Ok(())
}
