//! Whether two key sets conflict or touch, by look-ups in their tables. No call takes memory.
ghost use Rattle.std.specs.Prelude.{◌≡◌};
ghost use Rattle.key_sets.specs.Keys as keys;
ghost use Rattle.key_sets.specs.Probes as probes;

use super::KeySet;
use crate::kind::Kind;
use crate::parts::Parts;
use crate::relation::Relation;

/// Whether at some parts a kind of the one set and a kind of the other conflict. A key of a row has
/// the kind shared at its table.
pub fn conflicts(a: &KeySet, b: &KeySet) -> bool
    ensures { result ≡ keys.conflicts a.now b.now }
{
    meet(Relation::Conflict, a, b)
}

/// Whether at some parts a kind of the one set and a kind of the other touch. A key of a row has
/// the kind shared at its table.
pub fn touches(a: &KeySet, b: &KeySet) -> bool
    ensures { result ≡ keys.touches a.now b.now }
{
    meet(Relation::Touch, a, b)
}

/// Whether at some parts a kind of the one set and a kind of the other are so related. It goes over
/// the smaller set; over the larger one too only where the smaller has a key of a table.
pub fn meet(relation: Relation, a: &KeySet, b: &KeySet) -> bool
    ensures { result ≡ keys.meet (probes.kind_test relation) a.now b.now }
{
    if a.len() <= b.len() {
        a.meets(relation, b)
    } else {
        b.meets(relation, a)
    }
}

impl KeySet {
    // Two kinds shared never meet, so no table is looked up for rows of both sets.
    fn meets(&self, relation: Relation, other: &KeySet) -> bool
        ensures { result ≡ keys.meet (probes.kind_test relation) self.now other.now }
    {
        self.keys_meet(relation, other)
            || self.tables_meet(relation, other)
            || self.is_met_by_rows(relation, other)
    }

    // Whether some key meets the other set's key with the same parts.
    fn keys_meet(&self, relation: Relation, other: &KeySet) -> bool
        ensures { result ≡ probes.keys_meet (probes.kind_test relation) self.now other.now }
    {
        let mut pairs = self.as_slice().iter();
        pairs.any(|(parts, kind)| relation.holds_there(*kind, other.kind_at(parts)))
    }

    // Whether some row's key meets the other set's key of its table.
    fn tables_meet(&self, relation: Relation, other: &KeySet) -> bool
        ensures { result ≡ probes.tables_meet (probes.kind_test relation) self.now other.now }
    {
        let mut pairs = self.as_slice().iter();
        pairs.any(|(parts, _)| other.table_meets(relation, parts))
    }

    // Whether some row's key of the other set meets the key of its table here.
    fn is_met_by_rows(&self, relation: Relation, other: &KeySet) -> bool
        ensures { result ≡ probes.tables_meet (probes.kind_test relation) other.now self.now }
    {
        self.has_table() && other.tables_meet(relation, self)
    }

    // Whether it has a key of a table.
    fn has_table(&self) -> bool
        ensures { result ≡ probes.has_table self.now }
    {
        let mut pairs = self.as_slice().iter();
        pairs.any(|(parts, _)| parts.row.is_none())
    }

    // Whether the parts are a row's, and its kind shared meets the key of the table.
    fn table_meets(&self, relation: Relation, parts: &Parts) -> bool
        ensures { result ≡ probes.table_meets (probes.kind_test relation) self.now parts.now }
    {
        let table = parts.table_parts();
        parts.row.is_some() && relation.holds_there(Kind::Shared, self.kind_at(&table))
    }
}
