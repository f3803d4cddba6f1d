ghost use Rattle.std.specs.Prelude.{◌≡◌, IfOk, OnErr};
ghost use Rattle.row_calls.specs.Calls.{standing, IsFree, AreFree, done_call, done_calls, IsPartDone};

use item_list::ItemList;
use row_model::{Op, Row, RowId, RowList};
use std::alloc::Global;
use undo_rows::{Rows, Written};
use wsrep_base::NoMemory;

/// A call on rows with owners.
#[derive(Clone, Copy, Debug)]
pub enum RowCall {
    Write(u8, Op),
    RollBack(u8),
    Keep(u8),
    Reserve(usize),
    /// Room for the row is made first.
    Put(RowId, Option<Row>),
    Committed(RowId),
    SeenBy(u8, RowId),
    Walk,
}

/// What a call answers.
#[derive(Debug, PartialEq, Drop)]
pub enum RowAnswer {
    Written(Written),
    Done,
    Row(Option<Row>),
    Rows(RowList),
}

/// Does the calls in order. Nobody has changed a row at the time at which it is put. After want of
/// memory the calls before it are done.
pub fn do_calls<R: Rows>(
    alloc: Global,
    rows: &mut R,
    calls: &[RowCall],
) -> Result<ItemList<RowAnswer>, NoMemory>
    requires { AreFree (standing (R.table rows.old)) calls.now }
    ensures ok { IfOk result (λ answers. (standing (R.table rows.new), answers)
        ≡ done_calls (standing (R.table rows.old)) calls.now) }
    ensures err { OnErr result (IsPartDone (standing (R.table rows.old)) calls.now
        (standing (R.table rows.new))) }
{
    let mut answers = ItemList::new(alloc);
    for call in calls {
        match do_call(rows, call) {
            Ok(answer) => answers.push(answer)?,
            Err(fault) => return Err(fault),
        }
    }
    Ok(answers)
}

// Does one call. After want of memory nothing is done.
fn do_call<R: Rows>(rows: &mut R, call: &RowCall) -> Result<RowAnswer, NoMemory>
    requires { IsFree (standing (R.table rows.old)) call.now }
    ensures ok { IfOk result (λ answer. (standing (R.table rows.new), answer)
        ≡ done_call (standing (R.table rows.old)) call.now) }
    ensures err { OnErr result (standing (R.table rows.new) ≡ standing (R.table rows.old)) }
{
    match call {
        RowCall::Write(owner, op) => write(rows, *owner, op),
        RowCall::RollBack(owner) => {
            rows.roll_back(*owner);
            Ok(RowAnswer::Done)
        }
        RowCall::Keep(owner) => {
            rows.keep(*owner);
            Ok(RowAnswer::Done)
        }
        RowCall::Reserve(count) => reserve(rows, *count),
        RowCall::Put(id, row) => put(rows, id, *row),
        RowCall::Committed(id) => Ok(RowAnswer::Row(rows.committed(id))),
        RowCall::SeenBy(owner, id) => Ok(RowAnswer::Row(rows.seen_by(*owner, id))),
        RowCall::Walk => Ok(RowAnswer::Rows(rows.walk()?)),
    }
}

fn write<R: Rows>(rows: &mut R, owner: u8, op: &Op) -> Result<RowAnswer, NoMemory>
    ensures ok { IfOk result (λ answer. (standing (R.table rows.new), answer)
        ≡ done_call (standing (R.table rows.old)) (RowCall.Write owner op.now)) }
    ensures err { OnErr result (standing (R.table rows.new) ≡ standing (R.table rows.old)) }
{
    match rows.write(owner, op) {
        Ok(written) => Ok(RowAnswer::Written(written)),
        Err(fault) => Err(fault),
    }
}

fn reserve<R: Rows>(rows: &mut R, count: usize) -> Result<RowAnswer, NoMemory>
    ensures same { standing (R.table rows.new) ≡ standing (R.table rows.old) }
    ensures ok { IfOk result (λ answer. answer ≡ RowAnswer.Done) }
{
    match rows.reserve(count) {
        Ok(()) => Ok(RowAnswer::Done),
        Err(fault) => Err(fault),
    }
}

// Puts a row where there is room, which is made first.
fn put<R: Rows>(rows: &mut R, id: &RowId, row: Option<Row>) -> Result<RowAnswer, NoMemory>
    requires { IsFree (standing (R.table rows.old)) (RowCall.Put id.now row) }
    ensures ok { IfOk result (λ answer. (standing (R.table rows.new), answer)
        ≡ done_call (standing (R.table rows.old)) (RowCall.Put id.now row)) }
    ensures err { OnErr result (standing (R.table rows.new) ≡ standing (R.table rows.old)) }
{
    if let Err(fault) = rows.reserve(1) {
        return Err(fault);
    }
    rows.put(id, row);
    Ok(RowAnswer::Done)
}
