ghost use Rattle.std.specs.Prelude.{◌≡◌, ◌≤◌, ◌+◌, length, OnOk};
ghost use Rattle.finite_map.specs.FiniteMap as rows;
ghost use Rattle.row_model.specs.Rows.{op_on, ops_on};

mod parts;

use row_model::{Op, Row, RowId, apply_op};
use std::alloc::Global;
use std::collections::HashMap;
use std::marker::Model;
use wsrep_base::NoMemory;

/// Rows by where they stand, with room for more that is made beforehand.
#[derive(Drop)]
pub(crate) struct RowTable {
    rows: HashMap<RowId, Row>,
}

impl Model for RowTable {
    ghost use Rattle.std.specs.HashMap.{spare};
    ghost use Rattle.finite_map.specs.FiniteMap.{from_entries};
    ghost use Rattle.cert_meaning.specs.Roomy.{Roomy};

    ghost Value = { Roomy };

    ghost view = { λ table. record {
      rows = from_entries table.rows.entries;
      spare = spare table.rows;
    } };
}

impl RowTable {
    /// No rows. It takes no memory.
    pub(crate) fn new(alloc: Global) -> RowTable
        ensures { result.rows ≡ rows.empty }
    {
        RowTable {
            rows: HashMap::new(alloc),
        }
    }

    fn get(&self, id: &RowId) -> Option<Row>
        ensures { result ≡ rows.get self.now.rows id.now }
    {
        self.rows.get(id).copied()
    }

    /// Makes room for so many more rows.
    pub(crate) fn reserve(&mut self, count: usize) -> Result<(), NoMemory>
        ensures ok { OnOk result (count ≤ self.new.spare) }
        ensures rows { self.new.rows ≡ self.old.rows }
    {
        self.rows.reserve(count)
    }

    // Does one change on its row.
    fn apply(&mut self, op: &Op)
        requires { 1 ≤ self.old.spare }
        ensures rows { self.new.rows ≡ op_on self.old.rows op.now }
        ensures spare { self.old.spare ≤ self.new.spare + 1 }
    {
        let id = op.id();
        match apply_op(self.get(&id), op) {
            Some(row) => match self.rows.insert(id, row) {
                Ok(_) => {}
                Err(_) => unreachable!(),
            },
            None => {
                self.rows.remove(&id);
            }
        }
    }

    /// Does the changes in order.
    pub(crate) fn apply_all(&mut self, ops: &[Op])
        requires { length ops.now ≤ self.old.spare }
        ensures { self.new.rows ≡ ops_on ops.now self.old.rows }
    {
        for op in ops {
            self.apply(op);
        }
    }
}
