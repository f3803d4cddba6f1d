ghost use Rattle.std.specs.Prelude.{◌≡◌, ℕ, ◌+◌, ◌<◌, ◌≤◌, IfOk, OnOk, OnErr, IsOk, IsSome};
ghost use Rattle.finite_map.specs.FiniteMap.{get};
ghost use Rattle.row_model.specs.declared.row.RowId.{RowId};
ghost use Rattle.row_model.specs.Rows.{with_row, id_of};
ghost use Rattle.undo_rows.specs.RowTable.{RowTable, seen, written, without, other_owner, row_items};

use row_model::{Op, Row, RowId, RowList};
use wsrep_base::NoMemory;

/// What became of a write.
#[derive(Clone, Copy, Debug, PartialEq, Eq)]
pub enum Written {
    Done,
    /// This owner has changed the row, and nothing was done.
    Owned(u8),
}

/// Rows of which each may have an owner, a session, that has changed it and not committed yet.
pub trait Rows {
    ghost table: { Self → RowTable };

    /// Changes a row for an owner, unless another one has changed it.
    fn write(&mut self, owner: u8, op: &Op) -> Result<Written, NoMemory>
        ensures ok { IfOk result (λ outcome.
            (outcome, (table self.new).changes) ≡ written (table self.old) owner op.now) }
        ensures err { OnErr result ((table self.new).changes ≡ (table self.old).changes) }
        ensures owned { OnErr result
            (other_owner owner (get (table self.old).changes (id_of op.now)) ≡ None) }
        ensures committed { (table self.new).committed ≡ (table self.old).committed }
        ensures succeeds { 0 < (table self.old).spare → IsOk result }
        ensures spare { (table self.old).spare ≤ (table self.new).spare + 1 }
        ensures refused { IsSome (other_owner owner (get (table self.old).changes (id_of op.now)))
            → (table self.old).spare ≤ (table self.new).spare };

    /// Drops an owner's changes.
    fn roll_back(&mut self, owner: u8)
        ensures committed { (table self.new).committed ≡ (table self.old).committed }
        ensures changes { (table self.new).changes ≡ without (table self.old).changes owner }
        ensures spare { (table self.old).spare ≤ (table self.new).spare };

    /// Commits an owner's changes: each row is from then on what its owner saw.
    fn keep(&mut self, owner: u8)
        ensures committed { (id : RowId)
            → get (table self.new).committed id ≡ seen (table self.old) owner id }
        ensures changes { (table self.new).changes ≡ without (table self.old).changes owner }
        ensures spare { (table self.old).spare ≤ (table self.new).spare };

    /// Makes room for so many rows that are written or put.
    fn reserve(&mut self, rows: usize) -> Result<(), NoMemory>
        ensures ok { OnOk result (rows ≤ (table self.new).spare) }
        ensures committed { (table self.new).committed ≡ (table self.old).committed }
        ensures changes { (table self.new).changes ≡ (table self.old).changes }
        ensures spare { (table self.old).spare ≤ (table self.new).spare };

    /// Puts a committed row there, or none, where no owner has changed the row.
    fn put(&mut self, id: &RowId, row: Option<Row>)
        requires spare { 0 < (table self.old).spare }
        requires free { get (table self.old).changes id.now ≡ None }
        ensures committed { (table self.new).committed
            ≡ with_row (table self.old).committed id.now row }
        ensures changes { (table self.new).changes ≡ (table self.old).changes }
        ensures spare { (table self.old).spare ≤ (table self.new).spare + 1 };

    /// The committed row.
    fn committed(&self, id: &RowId) -> Option<Row>
        ensures { result ≡ get (table self.now).committed id.now };

    /// What an owner sees: the row as it has changed it, and else the committed row.
    fn seen_by(&self, owner: u8, id: &RowId) -> Option<Row>
        ensures { result ≡ seen (table self.now) owner id.now };

    /// The committed rows, by table and then by row.
    fn walk(&self) -> Result<RowList, NoMemory>
        ensures { IfOk result (λ list. list ≡ row_items (table self.now).committed) };
}
