//! Events that are made one after another.
use anyhow::{Result, bail};
use key_sets::{KeySet, Kind, Parts};
use order_event::{Event, MemberList};
use row_model::{Op, OpList, Row, RowId};
use std::alloc::Global;
use write_set::{END, START, WriteSet, encode, is_valid};
use wsrep_base::NoMemory;

/// The one member.
const MEMBER: u32 = 1;

/// A report comes at each multiple of this number.
pub const REPORTS: u64 = 64;

/// How far behind its own number a write set has seen the order.
const SEEN_BEHIND: u64 = 100;

/// Of how many rows a write set changes two, and how far behind its own number a report is.
#[derive(Clone, Copy)]
pub struct Case {
    pub rows: u64,
    pub behind: u64,
}

/// Makes the events of a case. Rows are drawn as those of a generated schedule are.
#[derive(Clone, Copy)]
pub struct Maker {
    case: Case,
    drawn: u64,
}

impl Maker {
    pub fn new(case: Case) -> Maker {
        Maker { case, drawn: 7 }
    }

    /// The event with this number.
    pub fn event(&mut self, alloc: Global, number: u64) -> Result<Event> {
        if number <= 1 {
            return Ok(first_view(alloc)?);
        }
        if number.is_multiple_of(REPORTS) {
            let number = number.saturating_sub(self.case.behind);
            return Ok(Event::Report {
                member: MEMBER,
                number,
            });
        }
        self.write(alloc, number)
    }

    // A write set, as its bytes.
    fn write(&mut self, alloc: Global, number: u64) -> Result<Event> {
        let set = self.write_set(alloc, number)?;
        if !is_valid(&set) {
            bail!("a write set breaks a rule");
        }
        let body = encode(alloc, &set)?;
        Ok(Event::Write {
            member: MEMBER,
            body,
        })
    }

    // Two rows are inserted. Its transaction has this number too.
    fn write_set(&mut self, alloc: Global, number: u64) -> Result<WriteSet> {
        let mut keys = KeySet::new(alloc)?;
        let mut ops = OpList::new(alloc);
        for _ in 0..2 {
            let id = row_id(self.draw());
            keys.add(&parts_of(&id), Kind::Exclusive)?;
            if let Some(row) = Row::of(&[number]) {
                ops.push(Op::Insert(id, row))?;
            }
        }
        Ok(WriteSet {
            member: MEMBER,
            serial: number,
            begin: number,
            fragment: 0,
            flags: START + END,
            last_seen: number.saturating_sub(SEEN_BEHIND + 1).max(1),
            keys,
            ops,
        })
    }

    // The number of a row.
    fn draw(&mut self) -> u64 {
        self.drawn = self
            .drawn
            .wrapping_mul(6_364_136_223_846_793_005)
            .wrapping_add(1_442_695_040_888_963_407);
        (self.drawn >> 33).checked_rem(self.case.rows).unwrap_or(0)
    }
}

fn first_view(alloc: Global) -> Result<Event, NoMemory> {
    let mut members = MemberList::new(alloc);
    members.push(MEMBER)?;
    Ok(Event::View {
        version: 1,
        members,
    })
}

// A row of table t, named by eight digits.
fn row_id(number: u64) -> RowId {
    let mut table = [0; 16];
    table[0] = b't';
    let mut row = [0; 16];
    let mut left = number;
    for at in 0..8 {
        row[at] = b'0' + (left % 10) as u8;
        left /= 10;
    }
    RowId { table, row }
}

fn parts_of(id: &RowId) -> Parts {
    Parts {
        table: id.table,
        row: Some(id.row),
    }
}
