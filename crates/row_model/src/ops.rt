ghost use Rattle.std.specs.Prelude.{◌≡◌};
ghost use Rattle.row_model.specs.Rows.{row_after, id_of};

use crate::row::{Row, RowId};
use item_list::ItemList;

/// New values for columns of a row: the value at index `i` is for column `i + 1`.
pub type Change = [Option<u64>; 8];

/// One change of one row.
#[derive(Clone, Copy, Debug, PartialEq, Eq)]
pub enum Op {
    /// Sets the row.
    Insert(RowId, Row),
    /// Sets the named columns that the row has. A missing row stays missing.
    Update(RowId, Change),
    /// Removes the row.
    Delete(RowId),
}

impl Op {
    /// The row that it changes.
    pub fn id(&self) -> RowId
        ensures { result ≡ id_of self.now }
    {
        match self {
            Op::Insert(id, _) | Op::Update(id, _) | Op::Delete(id) => *id,
        }
    }
}

/// Changes, in the order in which they are done.
pub type OpList = ItemList<Op>;

/// Rows by where they stand, None for a missing row.
pub type ImageList = ItemList<(RowId, Option<Row>)>;

/// The row after one change of it.
pub fn apply_op(old: Option<Row>, op: &Op) -> Option<Row>
    ensures { result ≡ row_after old op.now }
{
    match op {
        Op::Insert(_, row) => Some(*row),
        Op::Update(_, change) => old.map(|row| row.changed(change)),
        Op::Delete(_) => None,
    }
}
