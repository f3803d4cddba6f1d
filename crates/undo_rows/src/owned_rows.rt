ghost use Rattle.std.specs.Prelude.{◌≡◌, ◌+◌, ◌^◌, ◌<◌, ◌≤◌, false, length, option_to_list, None, IfNone, IfSome, IfOk, OnOk, OnErr, IsOk};
ghost use Rattle.std.specs.List.{slice_index_or};
ghost use Rattle.std.specs.Map.{lookup};
ghost use Rattle.row_model.specs.RowOrder.{row_eq};
ghost use Rattle.undo_rows.specs.OwnedRows.{before_in, changes_in};
ghost use Rattle.row_model.specs.declared.row.RowId.{RowId};
ghost use Rattle.finite_map.specs.FiniteMap.{empty, get, insert, remove};
ghost use Rattle.row_model.specs.Rows.{row_cmp};
ghost use Rattle.undo_rows.specs.RowTable.{other_owner, is_owned_by, without};
ghost use Rattle.undo_rows.specs.RowLists.{Appends, rows_of};

use crate::row_list::push_row;
use row_model::{Row, RowId, RowItem};
use std::alloc::{AllocError, Global};
use std::collections::HashMap;
use std::marker::Model;
use wsrep_base::NoMemory;

/// A row, its owner, and the row that the owner got before it.
#[derive(Clone, Copy, Debug)]
pub struct OwnedRow {
    pub owner: u8,
    pub row: Option<Row>,
    pub before: Option<RowId>,
}

/// Rows that have one owner each, found by where they stand and by their owner.
#[derive(Drop)]
pub struct OwnedRows {
    table: HashMap<RowId, OwnedRow>,
    newest: Vec<Option<RowId>>,
}

impl Model for OwnedRows {
    ghost use Rattle.undo_rows.specs.OwnedRows.{Owned, coded_owned};

    ghost Value = { Owned };

    ghost coded = { coded_owned };

    ghost use Rattle.std.specs.HashMap.{hash_map_len, spare};
    ghost use Rattle.undo_rows.specs.OwnedRows.{changes_in, AreLinked};

    ghost view = { λ rows. record {
      changes = changes_in rows.table.entries;
      count = hash_map_len rows.table;
      spare = spare rows.table;
    } };

    ghost invariant = { λ rows. AreLinked rows.table.entries rows.newest.items };
}

impl OwnedRows {
    /// No row has an owner.
    pub fn new(alloc: Global) -> Result<OwnedRows, NoMemory>
        ensures changes { IfOk result (λ rows. rows.changes ≡ empty) }
        ensures count { IfOk result (λ rows. rows.count ≡ 0) }
    {
        let newest = vec![in alloc; None; 256]?;
        Ok(OwnedRows {
            table: HashMap::new(alloc),
            newest,
        })
    }

    /// The allocator that the table grows by.
    pub fn alloc(&self) -> Global {
        *self.newest.allocator()
    }

    /// The number of rows.
    pub fn count(&self) -> usize
        ensures value { result ≡ self.now.count }
        ensures small { result < 2 ^ 63 }
    {
        self.table.len()
    }

    /// The owner of a row and what the row is for it.
    pub fn get(&self, id: &RowId) -> Option<(u8, Option<Row>)>
        ensures { result ≡ get self.now.changes id.now }
    {
        match self.table.get(id) {
            Some(entry) => Some((entry.owner, entry.row)),
            None => None,
        }
    }

    /// The owner of a row, where it is another one.
    pub fn other_owner(&self, owner: u8, id: &RowId) -> Option<u8>
        ensures { result ≡ other_owner owner (get self.now.changes id.now) }
    {
        match self.get(id) {
            Some((other, _)) => if other == owner { None } else { Some(other) },
            None => None,
        }
    }

    /// Makes room for so many more rows.
    pub fn reserve(&mut self, rows: usize) -> Result<(), NoMemory>
        ensures ok { OnOk result (rows ≤ self.new.spare) }
        ensures changes { self.new.changes ≡ self.old.changes }
        ensures count { self.new.count ≡ self.old.count }
        ensures spare { self.old.spare ≤ self.new.spare }
        ensures succeeds { rows ≤ self.old.spare → IsOk result }
    {
        self.table.reserve(rows)
    }

    /// Puts a row and its owner there. No other owner has the row.
    pub fn set(&mut self, id: &RowId, owner: u8, row: Option<Row>) -> Result<(), NoMemory>
        requires { other_owner owner (get self.old.changes id.now) ≡ None }
        ensures ok { OnOk result (self.new.changes ≡ insert self.old.changes id.now (owner, row)) }
        ensures err { OnErr result (self.new.changes ≡ self.old.changes) }
        ensures count { self.new.count ≤ self.old.count + 1 }
        ensures count_err { OnErr result (self.new.count ≡ self.old.count) }
        ensures succeeds { 0 < self.old.spare → IsOk result }
        ensures spare { self.old.spare ≤ self.new.spare + 1 }
    {
        let before = before_of(&self.table, &self.newest, id, owner);
        match self.table.insert(*id, OwnedRow { owner, row, before }) {
            Ok(Some(_)) => {}
            Ok(None) => self.newest[usize::from(owner)] = Some(*id),
            Err(_) => return Err(AllocError),
        }
        Ok(())
    }

    /// Appends the rows that are not None, in no order.
    pub fn push_rows(&self, items: &mut Vec<RowItem>) -> Result<(), NoMemory>
        ensures { OnOk result (Appends (rows_of self.now.changes) items.old.items items.new.items) }
    {
        push_entries(&self.table, items)
    }

    /// Takes out all rows of an owner.
    pub fn drop_all(&mut self, owner: u8)
        ensures changes { self.new.changes ≡ without self.old.changes owner }
        ensures count { self.new.count ≤ self.old.count }
        ensures spare { self.old.spare ≤ self.new.spare }
    {
        while let Some(_) = self.take_newest(owner) {}
    }

    /// Takes out the row that the owner got last. None where it has none.
    pub fn take_newest(&mut self, owner: u8) -> Option<(RowId, Option<Row>)>
        ensures none { IfNone result
            ((id : RowId) → is_owned_by owner (get self.old.changes id) ≡ false) }
        ensures was { IfSome result (λ taken.
            get self.old.changes taken.0 ≡ Some (owner, taken.1)) }
        ensures now { IfSome result (λ taken. self.new.changes ≡ remove self.old.changes taken.0) }
        ensures unchanged { IfNone result (self.new.changes ≡ self.old.changes) }
        ensures count { self.new.count + length (option_to_list result) ≡ self.old.count }
        ensures spare { self.old.spare ≤ self.new.spare }
    {
        let id = newest_of(&self.newest, owner)?;
        match self.table.remove(&id) {
            Some(entry) => {
                self.newest[usize::from(owner)] = entry.before;
                Some((id, entry.row))
            }
            None => None,
        }
    }
}

// The row that an owner got last.
fn newest_of(newest: &[Option<RowId>], owner: u8) -> Option<RowId>
    requires { length newest.now ≡ 256 }
    ensures { result ≡ slice_index_or newest.now owner None }
{
    newest[usize::from(owner)]
}

// Where a row is to lead: where it does, or to its owner's newest if it is a new one.
fn before_of(
    table: &HashMap<RowId, OwnedRow>,
    newest: &[Option<RowId>],
    id: &RowId,
    owner: u8,
) -> Option<RowId>
    requires { length newest.now ≡ 256 }
    ensures { result ≡ before_in (lookup (row_eq id.now) table.now.entries)
        (slice_index_or newest.now owner None) }
{
    match table.get(id) {
        Some(entry) => entry.before,
        None => newest_of(newest, owner),
    }
}

// Appends the rows of a table that are not None.
fn push_entries(table: &HashMap<RowId, OwnedRow>, items: &mut Vec<RowItem>) -> Result<(), NoMemory>
    ensures { OnOk result (Appends (rows_of (changes_in table.now.entries))
        items.old.items items.new.items) }
{
    for (id, entry) in table {
        push_row(items, id, entry.row)?;
    }
    Ok(())
}
