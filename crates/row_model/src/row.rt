ghost use Rattle.std.specs.Prelude.{◌≡◌, ◌≤◌, ◌++◌, length, take, drop};
ghost use Rattle.row_model.specs.Rows.{row_of, value_in, changed};

use crate::ops::Change;
use item_list::ItemList;
use std::hash::{Hash, Hasher};
use std::marker::Model;

/// Where a row stands: the names of its table and of the row, each padded with zero bytes.
#[derive(Clone, Copy, Debug, PartialEq, Eq, PartialOrd, Ord)]
pub struct RowId {
    pub table: [u8; 16],
    pub row: [u8; 16],
}

// A name is hashed as one write of sixteen bytes; the derive would write each byte by itself.
impl Hash for RowId {
    ghost use Rattle.std.proofs.Common.{ap};
    ghost use Rattle.row_model.specs.Hashing.{row_writes};
    ghost use Rattle.row_model.specs.RowOrder.{row_same};

    ghost hash_input = { row_writes };

    ghost respects_eq = { λ a b same. ap row_writes (row_same a b same) };

    fn hash<H: Hasher>(&self, state: &mut H) {
        state.write(&self.table);
        state.write(&self.row);
    }
}

/// The values of one row, 1 to 8 of them.
#[derive(Clone, Copy, Debug, PartialEq, Eq)]
pub struct Row {
    count: usize,
    values: [u64; 8],
}

impl Model for Row {
    ghost use Rattle.std.specs.Prelude.{List, ℕ, ◌≤◌, ◌-◌, ◌++◌, length, take, replicate};
    ghost use Rattle.row_model.specs.Padding.{IsPadded, count_again, values_again};

    ghost Value = { List ℕ };

    ghost view = { λ row. take row.count row.values };

    // The cells behind the values are 0, so that equal rows have equal cells.
    ghost invariant = { λ row. IsPadded row.count row.values };

    ghost inverse = { λ xs.
        record { count = length xs; values = xs ++ replicate (8 - length xs) 0 } };

    ghost inverse_ok = { λ row kept. λ i. record {
      count = count_again row.count row.values kept i;
      values = values_again row.count row.values kept i;
    } };
}

impl Row {
    /// The most values of a row.
    pub const MOST: usize = 8;

    /// The row with these values. None where there are none or more than 8.
    pub fn of(values: &[u64]) -> Option<Row>
        ensures { result ≡ row_of values.now }
    {
        if values.is_empty() || values.len() > Row::MOST {
            return None;
        }
        let mut cells = [0; 8];
        cells[..values.len()].copy_from_slice(values);
        Some(Row {
            count: values.len(),
            values: cells,
        })
    }

    /// The value in a column, counted from 1. None where the row has no such column.
    pub fn get(&self, column: u8) -> Option<u64>
        ensures { result ≡ value_in self.now column }
    {
        if column == 0 || usize::from(column) > self.count {
            return None;
        }
        Some(self.values[usize::from(column) - 1])
    }

    /// Its values, by column.
    pub fn values(&self) -> &[u64]
        ensures value { result.now ≡ self.now }
        ensures some { 1 ≤ length result.now }
        ensures few { length result.now ≤ 8 }
    {
        &self.values[..self.count]
    }

    /// The row with the named columns that it has set anew.
    pub(crate) fn changed(self, change: &Change) -> Row
        ensures { result ≡ changed self change.now }
    {
        let mut values = self.values;
        set_columns(&mut values, self.count, change);
        Row {
            count: self.count,
            values,
        }
    }
}

// The first `count` cells, where the change names their columns.
fn set_columns(values: &mut [u64; 8], count: usize, change: &Change)
    requires { count ≤ 8 }
    ensures { values.new ≡ changed (take count values.old) change.now ++ drop count values.old }
{
    for at in 0..count {
        match change[at] {
            Some(value) => values[at] = value,
            None => {}
        }
    }
}

/// A row and where it stands.
#[derive(Clone, Copy, Debug, PartialEq, Eq)]
pub struct RowItem {
    pub id: RowId,
    pub row: Row,
}

/// Rows, in the order in which they were pushed.
pub type RowList = ItemList<RowItem>;
