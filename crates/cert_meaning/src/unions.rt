//! Unions of two key sets.
ghost use Rattle.std.specs.Prelude.{◌≡◌, nat_lt, count_by, is_none, IfOk};
ghost use Rattle.finite_map.specs.FiniteMap.{get, len};
ghost use Rattle.key_sets.specs.Keys.{LIMIT, union};
ghost use Rattle.cert_meaning.specs.Whole.{within};

use key_sets::{KeyFault, KeySet};
use std::alloc::AllocError;
use wsrep_base::NoMemory;

/// The keys of both sets. None where they are more than a set may have.
pub(crate) fn union_within(one: &KeySet, other: &KeySet) -> Result<Option<KeySet>, NoMemory>
    ensures { IfOk result (λ both. both ≡ within (union one.now other.now)) }
{
    match one.union(other) {
        Ok(both) => Ok(Some(both)),
        Err(KeyFault::Full) => Ok(None),
        Err(KeyFault::NoMemory) => Err(AllocError),
    }
}

/// Whether both sets have together more keys than one may have. It costs the keys of the second,
/// and no key where both are small.
pub(crate) fn union_passes(one: &KeySet, other: &KeySet) -> bool
    ensures { result ≡ nat_lt LIMIT (len (union one.now other.now)) }
{
    if one.len() + other.len() <= KeySet::LIMIT {
        return false;
    }
    let both = one.len() + new_keys(one, other);
    both > KeySet::LIMIT
}

// How many keys of the other set have parts that the one lacks.
fn new_keys(one: &KeySet, other: &KeySet) -> usize
    ensures { result ≡ count_by (λ key. is_none (get one.now key.0)) other.now.entries }
{
    let keys = other.as_slice().iter();
    let new = keys.filter(|key| one.kind_at(&key.0).is_none());
    new.count()
}
