ghost use Rattle.std.specs.Prelude.{◌≡◌};
ghost use Rattle.key_sets.specs.Parts.{table_of};

use std::hash::{Hash, Hasher};

/// What a key names: a table, or a row of a table. Names are padded with zero bytes.
#[derive(Clone, Copy, Debug, Default, PartialEq, Eq, PartialOrd, Ord)]
pub struct Parts {
    pub table: [u8; 16],
    pub row: Option<[u8; 16]>,
}

// A name is hashed as one write of sixteen bytes; the derive would write each byte by itself.
impl Hash for Parts {
    ghost use Rattle.std.proofs.Common.{ap};
    ghost use Rattle.key_sets.specs.Parts.{parts_writes, parts_same};

    ghost hash_input = { parts_writes };

    ghost respects_eq = { λ a b same. ap parts_writes (parts_same a b same) };

    fn hash<H: Hasher>(&self, state: &mut H) {
        state.write(&self.table);
        match &self.row {
            Some(row) => state.write(row),
            None => {}
        }
    }
}

impl Parts {
    /// The parts of the table itself.
    pub fn table_parts(&self) -> Parts
        ensures { result ≡ table_of self.now }
    {
        Parts {
            table: self.table,
            row: None,
        }
    }
}
