//! The rows of a snapshot.
ghost use Rattle.std.specs.Prelude.{◌≡◌, Some, None};
ghost use Rattle.write_set.specs.Reading.{Gives};
ghost use Rattle.state_snapshot.specs.Reading.{is_table_below, is_row_above, each_at, row_at, rows_at};

use row_model::{RowId, RowItem, RowList};
use std::alloc::Global;
use std::cmp::Ordering;
use write_set::{Cursor, NameRole, WsFault, name_of, values_of};

fn is_table_below(last: &Option<RowId>, table: &[u8; 16]) -> bool
    ensures { result ≡ is_table_below last.now table.now }
{
    match last {
        Some(last) => matches!(table.cmp(&last.table), Ordering::Less),
        None => false,
    }
}

fn is_row_above(last: &Option<RowId>, id: &RowId) -> bool
    ensures { result ≡ is_row_above last.now id.now }
{
    match last {
        Some(last) => matches!(last.cmp(id), Ordering::Less),
        None => true,
    }
}

#[tactic(auto, unfolding(crate::specs::Reading::row_at))]
fn row_of<'a>(last: &Option<RowId>, cursor: Cursor<'a>) -> Result<(RowItem, Cursor<'a>), WsFault>
    ensures { Gives (λ x. ((x.0, Some x.0.id), x.1)) result (row_at last.now cursor.entry) }
{
    let at = cursor.at();
    let (table, rest) = name_of(NameRole::ChangeTable, cursor)?;
    if is_table_below(last, &table) {
        return Err(WsFault::NotCanonical(at));
    }
    let at = rest.at();
    let (row, rest) = name_of(NameRole::ChangeRow, rest)?;
    let id = RowId { table, row };
    if !is_row_above(last, &id) {
        return Err(WsFault::NotCanonical(at));
    }
    let (row, rest) = values_of(rest)?;
    Ok((RowItem { id, row }, rest))
}

fn some_rows_of<'a>(
    alloc: Global,
    count: u32,
    cursor: Cursor<'a>,
) -> Result<(RowList, Cursor<'a>), WsFault>
    ensures { Gives (λ x. (x.0, x.1)) result (each_at row_at count None cursor.entry) }
{
    let mut rows = RowList::new(alloc);
    let mut last = None;
    let mut rest = cursor;
    for _ in 0..count {
        let (item, after) = match row_of(&last, rest) {
            Ok(row) => row,
            Err(fault) => return Err(fault),
        };
        last = Some(item.id);
        match rows.push(item) {
            Ok(()) => {}
            Err(_) => return Err(WsFault::NoMemory),
        }
        rest = after;
    }
    Ok((rows, rest))
}

/// Reads the number of rows, and the rows.
#[tactic(auto, unfolding(crate::specs::Reading::rows_at))]
pub(crate) fn rows_of<'a>(
    alloc: Global,
    cursor: Cursor<'a>,
) -> Result<(RowList, Cursor<'a>), WsFault>
    ensures { Gives (λ x. (x.0, x.1)) result (rows_at cursor.entry) }
{
    let (count, rest) = cursor.number32()?;
    some_rows_of(alloc, count, rest)
}
