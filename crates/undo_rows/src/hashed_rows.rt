ghost use Rattle.std.specs.Prelude.{◌≡◌, ◌+◌, ◌<◌, ◌≤◌};
ghost use Rattle.std.specs.HashMap.{spare};
ghost use Rattle.finite_map.specs.FiniteMap.{get};
ghost use Rattle.row_model.specs.declared.row.RowId.{RowId};
ghost use Rattle.row_model.specs.Rows.{with_row};
ghost use Rattle.undo_rows.specs.Overlay.{rows_in};
ghost use Rattle.undo_rows.specs.RowTable.{seen_of, without};

use crate::owned_rows::OwnedRows;
use row_model::{Row, RowId};
use std::collections::HashMap;

/// The row that stands there.
pub(crate) fn row_at(rows: &HashMap<RowId, Row>, id: &RowId) -> Option<Row>
    ensures { result ≡ get (rows_in rows.now.entries) id.now }
{
    rows.get(id).copied()
}

/// Puts a row there, or none. There is room for it.
pub(crate) fn set_row(rows: &mut HashMap<RowId, Row>, id: &RowId, row: Option<Row>)
    requires { 0 < spare rows.old }
    ensures rows { rows_in rows.new.entries ≡ with_row (rows_in rows.old.entries) id.now row }
    ensures spare { spare rows.old ≤ spare rows.new + 1 }
{
    match row {
        Some(row) => match rows.insert(*id, row) {
            Ok(_) => {}
            Err(_) => unreachable!(),
        },
        None => {
            let _ = rows.remove(id);
        }
    }
}

/// Puts all rows of an owner there, where there is room for them, and takes them out.
pub(crate) fn keep_all(rows: &mut HashMap<RowId, Row>, owned: &mut OwnedRows, owner: u8)
    requires { owned.old.count ≤ spare rows.old }
    ensures rows { (id : RowId) → get (rows_in rows.new.entries) id
        ≡ seen_of owner (get owned.old.changes id) (get (rows_in rows.old.entries) id) }
    ensures owned { owned.new.changes ≡ without owned.old.changes owner }
    ensures spare { owned.old.spare ≤ owned.new.spare }
    ensures room { owned.new.count ≤ spare rows.new }
    ensures more { spare rows.old + owned.new.count ≤ spare rows.new + owned.old.count }
{
    while let Some((id, row)) = owned.take_newest(owner) {
        set_row(rows, &id, row);
    }
}
