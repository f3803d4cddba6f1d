ghost use Rattle.std.specs.Prelude.{◌≡◌, ◌+◌, ◌<◌, ◌≤◌, ◌-◌, IfOk, OnOk, OnErr, IsOk};
ghost use Rattle.std.specs.HashMap.{spare};
ghost use Rattle.finite_map.specs.FiniteMap.{empty, get};
ghost use Rattle.row_model.specs.declared.row.RowId.{RowId};
ghost use Rattle.row_model.specs.Rows.{with_row};
ghost use Rattle.undo_rows.specs.Overlay.{rows_in};
ghost use Rattle.undo_rows.specs.RowTable.{seen, seen_of, written, without, other_owner, row_items};

use crate::hashed_rows::{keep_all, row_at, set_row};
use crate::owned_rows::OwnedRows;
use crate::rows::{Rows, Written};
use item_list::ItemList;
use row_model::{Op, Row, RowId, RowItem, RowList, apply_op};
use std::alloc::{AllocError, Global};
use std::collections::HashMap;
use std::marker::Model;
use wsrep_base::NoMemory;

/// Committed rows, and beside them what owners have changed and not committed yet. Room for an
/// owner's changes is kept in both tables, so that a commit takes no memory.
#[derive(Drop)]
pub struct Overlay {
    rows: HashMap<RowId, Row>,
    changes: OwnedRows,
}

impl Model for Overlay {
    ghost use Rattle.std.specs.Prelude.{◌≤◌, ◌-◌, min};
    ghost use Rattle.std.specs.HashMap.{spare};
    ghost use Rattle.undo_rows.specs.RowTable.{RowTable, coded_row_table};
    ghost use Rattle.undo_rows.specs.Overlay.{rows_in};

    ghost Value = { RowTable };

    ghost coded = { coded_row_table };

    ghost view = { λ o. record {
      committed = rows_in o.rows.entries;
      changes = o.changes.changes;
      spare = min o.changes.spare (spare o.rows - o.changes.count);
    } };

    ghost invariant = { λ o. o.changes.count ≤ spare o.rows };
}

impl Overlay {
    /// No rows.
    pub fn new(alloc: Global) -> Result<Overlay, NoMemory>
        ensures committed { IfOk result (λ rows. rows.committed ≡ empty) }
        ensures changes { IfOk result (λ rows. rows.changes ≡ empty) }
    {
        let changes = OwnedRows::new(alloc)?;
        Ok(Overlay {
            rows: HashMap::new(alloc),
            changes,
        })
    }
}

impl Rows for Overlay {
    ghost table = { λ o. o };

    fn write(&mut self, owner: u8, op: &Op) -> Result<Written, NoMemory> {
        let id = op.id();
        if let Some(other) = self.changes.other_owner(owner, &id) {
            return Ok(Written::Owned(other));
        }
        let row = apply_op(self.seen_by(owner, &id), op);
        self.rows.reserve(self.changes.count() + 1)?;
        self.changes.set(&id, owner, row)?;
        Ok(Written::Done)
    }

    fn roll_back(&mut self, owner: u8) {
        self.changes.drop_all(owner);
    }

    fn keep(&mut self, owner: u8) {
        keep_all(&mut self.rows, &mut self.changes, owner);
    }

    fn reserve(&mut self, rows: usize) -> Result<(), NoMemory> {
        let Some(all) = self.changes.count().checked_add(rows) else {
            return Err(AllocError);
        };
        self.changes.reserve(rows)?;
        self.rows.reserve(all)
    }

    fn put(&mut self, id: &RowId, row: Option<Row>) {
        set_row(&mut self.rows, id, row);
    }

    fn committed(&self, id: &RowId) -> Option<Row> {
        row_at(&self.rows, id)
    }

    fn seen_by(&self, owner: u8, id: &RowId) -> Option<Row> {
        match self.changes.get(id) {
            Some((other, row)) => if other == owner {
                row
            } else {
                self.committed(id)
            },
            None => self.committed(id),
        }
    }

    fn walk(&self) -> Result<RowList, NoMemory> {
        items_in_order(self.changes.alloc(), &self.rows)
    }
}

/// The rows of a table, by table and then by row.
pub fn items_in_order(alloc: Global, rows: &HashMap<RowId, Row>) -> Result<RowList, NoMemory>
    ensures { IfOk result (λ list. list ≡ row_items (rows_in rows.now.entries)) }
{
    let mut items = Vec::new(alloc);
    for (id, row) in rows {
        items.push(RowItem { id: *id, row: *row })?;
    }
    items.sort_unstable_by_key(|item| item.id);
    Ok(ItemList::from(items))
}
