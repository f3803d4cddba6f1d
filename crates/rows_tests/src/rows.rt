ghost use Rattle.std.specs.Prelude.{◌≡◌, true};
ghost use Rattle.row_calls.specs.Calls.{puts_none};

use item_list::ItemList;
use row_calls::{RowAnswer, RowCall, do_calls};
use row_model::{Op, Row, RowId, RowItem};
use std::alloc::Global;
use std::process::Abort;
use std::test::Fail;
use undo_rows::{Overlay, Rows, UndoRows, Written};

fn place(row: u8) -> RowId {
    RowId {
        table: [b't'; 16],
        row: [row; 16],
    }
}

fn row(value: u64) -> Option<Row> {
    Row::of([value].as_slice())
}

fn insert(at: u8, value: u64) -> Result<Op, &'static str> {
    Ok(Op::Insert(place(at), row(value).ok_or("no row")?))
}

fn update(at: u8, value: u64) -> Op {
    let none = None;
    Op::Update(
        place(at),
        [Some(value), none, none, none, none, none, none, none],
    )
}

fn item(at: u8, value: u64) -> Result<RowItem, &'static str> {
    Ok(RowItem {
        id: place(at),
        row: row(value).ok_or("no row")?,
    })
}

fn answers_are<R: Rows>(
    rt: &impl Abort,
    alloc: Global,
    rows: &mut R,
    calls: &[RowCall],
    expected: &[RowAnswer],
) -> Result<(), Fail>
    requires { puts_none calls.now ≡ true }
{
    let answers = do_calls(alloc, rows, calls)?;
    assert_eq!(rt; answers.as_slice(), expected);
    Ok(())
}

// Both types answer a table of calls alike.
fn both_answer(
    rt: &impl Abort,
    alloc: Global,
    calls: &[RowCall],
    expected: &[RowAnswer],
) -> Result<(), Fail>
    requires { puts_none calls.now ≡ true }
{
    let mut overlay = Overlay::new(alloc)?;
    answers_are(rt, alloc, &mut overlay, calls, expected)?;
    let mut undo = UndoRows::new(alloc)?;
    answers_are(rt, alloc, &mut undo, calls, expected)
}

#[test]
fn changes_are_kept_or_rolled_back(rt: HostRuntime) -> Result<(), Fail> {
    let calls = [
        RowCall::Reserve(4),
        RowCall::Write(1, insert(b'b', 10)?),
        RowCall::Write(1, update(b'b', 11)),
        RowCall::Write(2, update(b'b', 12)),
        RowCall::SeenBy(1, place(b'b')),
        RowCall::SeenBy(2, place(b'b')),
        RowCall::Committed(place(b'b')),
        RowCall::Keep(1),
        RowCall::Committed(place(b'b')),
        RowCall::Write(2, Op::Delete(place(b'b'))),
        RowCall::SeenBy(2, place(b'b')),
        RowCall::Committed(place(b'b')),
        RowCall::RollBack(2),
        RowCall::SeenBy(2, place(b'b')),
    ];
    let expected = [
        RowAnswer::Done,
        RowAnswer::Written(Written::Done),
        RowAnswer::Written(Written::Done),
        RowAnswer::Written(Written::Owned(1)),
        RowAnswer::Row(row(11)),
        RowAnswer::Row(None),
        RowAnswer::Row(None),
        RowAnswer::Done,
        RowAnswer::Row(row(11)),
        RowAnswer::Written(Written::Done),
        RowAnswer::Row(None),
        RowAnswer::Row(row(11)),
        RowAnswer::Done,
        RowAnswer::Row(row(11)),
    ];
    both_answer(&rt, rt.alloc(), calls.as_slice(), expected.as_slice())
}

#[test]
fn committed_rows_are_listed_in_order(rt: HostRuntime) -> Result<(), Fail> {
    let calls = [
        RowCall::Write(1, insert(b'c', 3)?),
        RowCall::Write(1, insert(b'a', 1)?),
        RowCall::Keep(1),
        RowCall::Write(2, insert(b'b', 2)?),
        RowCall::Write(3, update(b'c', 4)),
        RowCall::Write(3, update(b'c', 5)),
        RowCall::Write(4, Op::Delete(place(b'a'))),
        RowCall::Walk,
    ];
    let mut listed = ItemList::new(rt.alloc());
    listed.push(item(b'a', 1)?)?;
    listed.push(item(b'c', 3)?)?;
    let expected = [
        RowAnswer::Written(Written::Done),
        RowAnswer::Written(Written::Done),
        RowAnswer::Done,
        RowAnswer::Written(Written::Done),
        RowAnswer::Written(Written::Done),
        RowAnswer::Written(Written::Done),
        RowAnswer::Written(Written::Done),
        RowAnswer::Rows(listed),
    ];
    both_answer(&rt, rt.alloc(), calls.as_slice(), expected.as_slice())
}
