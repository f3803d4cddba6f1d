ghost use Rattle.std.specs.Prelude.{◌≡◌, OnOk};
ghost use Rattle.undo_rows.specs.RowLists.{with_item};

use row_model::{Row, RowId, RowItem};
use wsrep_base::NoMemory;

/// Appends a row, unless it is None.
pub(crate) fn push_row(
    items: &mut Vec<RowItem>,
    id: &RowId,
    row: Option<Row>,
) -> Result<(), NoMemory>
    ensures { OnOk result (items.new.items ≡ with_item items.old.items id.now row) }
{
    if let Some(row) = row {
        items.push(RowItem { id: *id, row })?;
    }
    Ok(())
}
