ghost use Rattle.std.specs.Prelude.{◌≡◌, ◌+◌, ◌<◌, ◌≤◌, None, IfOk, OnOk, OnErr, IsOk};
ghost use Rattle.std.specs.HashMap.{spare};
ghost use Rattle.finite_map.specs.FiniteMap.{empty, get, insert};
ghost use Rattle.row_model.specs.declared.row.RowId.{RowId};
ghost use Rattle.undo_rows.specs.Overlay.{rows_in};
ghost use Rattle.undo_rows.specs.RowTable.{other_owner, row_items};
ghost use Rattle.undo_rows.specs.RowLists.{Appends, unchanged_of, unchanged_in};
ghost use Rattle.undo_rows.specs.UndoRows.{committed_in, changed_in, imaged, spare_over};

use crate::hashed_rows::{keep_all, row_at, set_row};
use crate::owned_rows::OwnedRows;
use crate::row_list::push_row;
use crate::rows::{Rows, Written};
use item_list::ItemList;
use row_model::{Op, Row, RowId, RowItem, RowList, apply_op};
use std::alloc::{AllocError, Global};
use std::collections::HashMap;
use std::marker::Model;
use wsrep_base::NoMemory;

/// Rows that owners change in place, and of each row that an owner has changed the image that it
/// had before. Room is kept in which each image can be put back.
#[derive(Drop)]
pub struct UndoRows {
    rows: HashMap<RowId, Row>,
    images: OwnedRows,
}

impl Model for UndoRows {
    ghost use Rattle.std.specs.Prelude.{◌≤◌};
    ghost use Rattle.std.specs.HashMap.{spare};
    ghost use Rattle.undo_rows.specs.RowTable.{RowTable, coded_row_table};
    ghost use Rattle.undo_rows.specs.UndoRows.{committed_in, changed_in, spare_over};

    ghost Value = { RowTable };

    ghost coded = { coded_row_table };

    ghost view = { λ u. record {
      committed = committed_in u.rows.entries u.images;
      changes = changed_in u.rows.entries u.images;
      spare = spare_over (spare u.rows) u.images;
    } };

    ghost invariant = { λ u. u.images.count ≤ spare u.rows };
}

impl UndoRows {
    /// No rows.
    pub fn new(alloc: Global) -> Result<UndoRows, NoMemory>
        ensures committed { IfOk result (λ rows. rows.committed ≡ empty) }
        ensures changes { IfOk result (λ rows. rows.changes ≡ empty) }
    {
        let images = OwnedRows::new(alloc)?;
        Ok(UndoRows {
            rows: HashMap::new(alloc),
            images,
        })
    }

    fn other_owner(&self, owner: u8, id: &RowId) -> Option<u8>
        ensures { result ≡ other_owner owner (get self.now.changes id.now) }
    {
        self.images.other_owner(owner, id)
    }
}

impl Rows for UndoRows {
    ghost table = { λ u. u };

    fn write(&mut self, owner: u8, op: &Op) -> Result<Written, NoMemory> {
        let id = op.id();
        if let Some(other) = self.other_owner(owner, &id) {
            return Ok(Written::Owned(other));
        }
        let row = apply_op(self.seen_by(owner, &id), op);
        change_row(&mut self.rows, &mut self.images, &id, owner, row)?;
        Ok(Written::Done)
    }

    fn roll_back(&mut self, owner: u8) {
        keep_all(&mut self.rows, &mut self.images, owner);
    }

    fn keep(&mut self, owner: u8) {
        self.images.drop_all(owner);
    }

    fn reserve(&mut self, rows: usize) -> Result<(), NoMemory> {
        let Some(twice) = rows.checked_mul(2) else {
            return Err(AllocError);
        };
        let Some(all) = self.images.count().checked_add(twice) else {
            return Err(AllocError);
        };
        self.images.reserve(rows)?;
        self.rows.reserve(all)
    }

    fn put(&mut self, id: &RowId, row: Option<Row>) {
        set_row(&mut self.rows, id, row);
    }

    fn committed(&self, id: &RowId) -> Option<Row> {
        match self.images.get(id) {
            Some((_, image)) => image,
            None => row_at(&self.rows, id),
        }
    }

    fn seen_by(&self, owner: u8, id: &RowId) -> Option<Row> {
        match self.images.get(id) {
            Some((other, image)) => if other == owner {
                row_at(&self.rows, id)
            } else {
                image
            },
            None => row_at(&self.rows, id),
        }
    }

    fn walk(&self) -> Result<RowList, NoMemory> {
        committed_in_order(&self.rows, &self.images)
    }
}

// Changes a row in place for an owner, and keeps its image first. No other owner has the row.
fn change_row(
    rows: &mut HashMap<RowId, Row>,
    images: &mut OwnedRows,
    id: &RowId,
    owner: u8,
    row: Option<Row>,
) -> Result<(), NoMemory>
    requires room { images.old.count ≤ spare rows.old }
    requires free { other_owner owner (get images.old.changes id.now) ≡ None }
    ensures committed { committed_in rows.new.entries images.new
        ≡ committed_in rows.old.entries images.old }
    ensures ok { OnOk result (changed_in rows.new.entries images.new
        ≡ insert (changed_in rows.old.entries images.old) id.now (owner, row)) }
    ensures err { OnErr result (changed_in rows.new.entries images.new
        ≡ changed_in rows.old.entries images.old) }
    ensures room { images.new.count ≤ spare rows.new }
    ensures succeeds { 0 < spare_over (spare rows.old) images.old → IsOk result }
    ensures spare { spare_over (spare rows.old) images.old
        ≤ spare_over (spare rows.new) images.new + 1 }
{
    rows.reserve(images.count() + 2)?;
    keep_image(rows, images, id, owner)?;
    set_row(rows, id, row);
    Ok(())
}

// Keeps the image of a row for its owner, where it has none yet.
fn keep_image(
    rows: &HashMap<RowId, Row>,
    images: &mut OwnedRows,
    id: &RowId,
    owner: u8,
) -> Result<(), NoMemory>
    requires { other_owner owner (get images.old.changes id.now) ≡ None }
    ensures ok { OnOk result (images.new.changes
        ≡ imaged (rows_in rows.now.entries) images.old.changes id.now owner) }
    ensures err { OnErr result (images.new.changes ≡ images.old.changes) }
    ensures count { images.new.count ≤ images.old.count + 1 }
    ensures count_err { OnErr result (images.new.count ≡ images.old.count) }
    ensures succeeds { 0 < images.old.spare → IsOk result }
    ensures spare { images.old.spare ≤ images.new.spare + 1 }
{
    match images.get(id) {
        Some(_) => Ok(()),
        None => images.set(id, owner, row_at(rows, id)),
    }
}

// The rows in place without an image, and all images, by table and then by row.
fn committed_in_order(rows: &HashMap<RowId, Row>, images: &OwnedRows) -> Result<RowList, NoMemory>
    ensures { IfOk result (λ list. list ≡ row_items (committed_in rows.now.entries images.now)) }
{
    let mut items = Vec::new(images.alloc());
    push_unchanged(rows, images, &mut items)?;
    images.push_rows(&mut items)?;
    items.sort_unstable_by_key(|item| item.id);
    Ok(ItemList::from(items))
}

// Appends the rows in place that have no image, in no order.
fn push_unchanged(
    rows: &HashMap<RowId, Row>,
    images: &OwnedRows,
    items: &mut Vec<RowItem>,
) -> Result<(), NoMemory>
    ensures { OnOk result (Appends (unchanged_in (rows_in rows.now.entries) images.now.changes)
        items.old.items items.new.items) }
{
    for (id, row) in rows {
        push_row(items, id, unchanged(images, id, row))?;
    }
    Ok(())
}

// A row in place, unless it has an image.
fn unchanged(images: &OwnedRows, id: &RowId, row: &Row) -> Option<Row>
    ensures { result ≡ unchanged_of (get images.now.changes id.now) (Some row.now) }
{
    match images.get(id) {
        Some(_) => None,
        None => Some(*row),
    }
}
