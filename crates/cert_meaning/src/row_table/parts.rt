//! The rows as a list.
ghost use Rattle.std.specs.Prelude.{◌≡◌, IfOk};
ghost use Rattle.undo_rows.specs.RowTable.{row_items};
ghost use Rattle.cert_meaning.specs.Parts.{rows_of};

use super::RowTable;
use row_model::{RowItem, RowList};
use std::alloc::Global;
use undo_rows::items_in_order;
use wsrep_base::NoMemory;

impl RowTable {
    /// The rows of these items. Of items of one row the first counts.
    pub(crate) fn of(alloc: Global, items: &[RowItem]) -> Result<RowTable, NoMemory>
        ensures { IfOk result (λ table. table.rows ≡ rows_of items.now) }
    {
        let mut table = RowTable::new(alloc);
        for item in items.iter().rev() {
            table.rows.insert(item.id, item.row)?;
        }
        Ok(table)
    }

    /// The rows, by table and then by row.
    pub(crate) fn items(&self, alloc: Global) -> Result<RowList, NoMemory>
        ensures { IfOk result (λ items. items ≡ row_items self.now.rows) }
    {
        items_in_order(alloc, &self.rows)
    }
}
