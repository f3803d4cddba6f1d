//! The changes of a fragment, which its keys cover.
ghost use Rattle.std.specs.Prelude.{◌≡◌};
ghost use Rattle.write_set.specs.Rules.{is_exclusive, is_update_kind};
ghost use Rattle.write_set.specs.Reading.{Gives, many_at};
ghost use Rattle.state_snapshot.specs.Reading.{covers, covered_op_at, covered_ops_at};

use key_sets::{KeySet, Kind, Parts};
use row_model::{Op, OpList, RowId};
use std::alloc::Global;
use write_set::{Cursor, MOST_OPS, NameRole, WsFault, name_of, op_body_of};

fn is_exclusive(kind: Option<Kind>) -> bool
    ensures { result ≡ is_exclusive kind }
{
    match kind {
        Some(Kind::Exclusive) => true,
        Some(Kind::Update) => false,
        Some(Kind::Shared) => false,
        None => false,
    }
}

fn is_update_kind(kind: Option<Kind>) -> bool
    ensures { result ≡ is_update_kind kind }
{
    match kind {
        Some(Kind::Update) => true,
        Some(Kind::Exclusive) => false,
        Some(Kind::Shared) => false,
        None => false,
    }
}

// Whether a key covers a change of the row.
fn covers(keys: &KeySet, update: bool, id: &RowId) -> bool
    ensures { result ≡ covers keys.now update id.now }
{
    let (table, row) = (id.table, id.row);
    let own = keys.kind_at(&Parts {
        table,
        row: Some(row),
    });
    let whole = keys.kind_at(&Parts { table, row: None });
    is_exclusive(own) || (update && is_update_kind(own)) || is_exclusive(whole)
}

#[tactic(auto, unfolding(crate::specs::Reading::covered_op_at))]
fn covered_op_of<'a>(keys: &KeySet, cursor: Cursor<'a>) -> Result<(Op, Cursor<'a>), WsFault>
    ensures { Gives (λ x. (x.0, x.1)) result (covered_op_at keys.now cursor.entry) }
{
    let at = cursor.at();
    let (tag, rest) = cursor.number8()?;
    if tag == 0 || tag > 3 {
        return Err(WsFault::BadChange(at));
    }
    let (table, rest) = name_of(NameRole::ChangeTable, rest)?;
    let at = rest.at();
    let (row, rest) = name_of(NameRole::ChangeRow, rest)?;
    let id = RowId { table, row };
    if !covers(keys, tag == 2, &id) {
        return Err(WsFault::NotCanonical(at));
    }
    op_body_of(tag, id, rest)
}

fn some_covered_ops_of<'a>(
    alloc: Global,
    keys: &KeySet,
    count: u32,
    cursor: Cursor<'a>,
) -> Result<(OpList, Cursor<'a>), WsFault>
    ensures { Gives (λ x. (x.0, x.1)) result
        (many_at (covered_op_at keys.now) count cursor.entry) }
{
    let mut ops = OpList::new(alloc);
    let mut rest = cursor;
    for _ in 0..count {
        let (op, after) = match covered_op_of(keys, rest) {
            Ok(op) => op,
            Err(fault) => return Err(fault),
        };
        match ops.push(op) {
            Ok(()) => {}
            Err(_) => return Err(WsFault::NoMemory),
        }
        rest = after;
    }
    Ok((ops, rest))
}

/// Reads the number of changes, and the changes.
#[tactic(auto, unfolding(crate::specs::Reading::covered_ops_at))]
pub(crate) fn covered_ops_of<'a>(
    alloc: Global,
    keys: &KeySet,
    cursor: Cursor<'a>,
) -> Result<(OpList, Cursor<'a>), WsFault>
    ensures { Gives (λ x. (x.0, x.1)) result (covered_ops_at keys.now cursor.entry) }
{
    let at = cursor.at();
    let (count, rest) = cursor.number32()?;
    if count as usize > MOST_OPS {
        return Err(WsFault::TooMany(at));
    }
    some_covered_ops_of(alloc, keys, count, rest)
}
