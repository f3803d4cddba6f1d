ghost use Rattle.std.specs.Prelude.{◌≡◌, ◌↔◌, ◌<◌, ◌≤◌, None, IfOk, IfErr, OnOk, OnErr, IsErrOf, IsOk, IsTrue, length};
ghost use Rattle.std.specs.List.{list_all};
ghost use Rattle.std.specs.List.Sorted.{IsSearchInRange};
ghost use Rattle.finite_map.specs.FiniteMap as map;
ghost use Rattle.key_sets.specs.Keys as keys;
ghost use Rattle.key_sets.specs.Places.{IsAt, IsGap};

mod meeting;

use crate::fault::KeyFault;
use crate::kind::Kind;
use crate::parts::Parts;
use crate::test::{PartsTest, all_admitted};
pub use meeting::{conflicts, meet, touches};
use smallvec::SmallVec;
use std::alloc::{AllocError as NoMemory, Global};
use std::marker::Model;

// So many keys lie in the set itself: most sets have the keys of one or two rows.
const INLINE: usize = 2;

/// A set of keys, each parts once, of at most `KeySet::LIMIT` keys. It is seen as a map from parts
/// to kinds. A set of at most two keys takes no memory.
#[derive(Debug, Drop)]
pub struct KeySet {
    // In the order of the parts.
    keys: SmallVec<(Parts, Kind), INLINE>,
}

impl Model for KeySet {
    ghost use Rattle.std.specs.Prelude.{◌≤◌, T};
    ghost use Rattle.std.specs.FinMap.Entries.{is_sorted};
    ghost use Rattle.finite_map.specs.FiniteMap.{code, len};
    ghost use Rattle.key_sets.specs.Kinds.{coded_kind};
    ghost use Rattle.key_sets.specs.Parts.{coded_parts, parts_cmp};
    ghost use Rattle.key_sets.specs.Keys.{Keys, LIMIT, keys_from};

    ghost Value = { Keys };

    ghost coded = { code coded_parts coded_kind };

    ghost view = { λ set. keys_from set.keys.items };

    ghost invariant = { λ set. T (is_sorted parts_cmp set.keys.items)
        × (len (keys_from set.keys.items) ≤ LIMIT) };
}

impl KeySet {
    /// The most keys of a set.
    pub const LIMIT: usize = 4096;

    /// An empty set. It takes no memory.
    pub fn new(alloc: Global) -> Result<KeySet, NoMemory>
        ensures empty { IfOk result (λ set. set ≡ map.empty) }
        ensures succeeds { IsOk result }
    {
        Ok(KeySet {
            keys: SmallVec::new(alloc),
        })
    }

    /// Adds a key. Where the set has its parts, the stronger kind stays.
    pub fn add(&mut self, parts: &Parts, kind: Kind) -> Result<(), KeyFault>
        ensures ok { OnOk result (self.new ≡ keys.with_key self.old parts.now kind) }
        ensures full { IsErrOf result KeyFault.Full
            ↔ ((map.get self.old parts.now ≡ None) × (map.len self.old ≡ keys.LIMIT)) }
        ensures err { OnErr result (self.new ≡ self.old) }
    {
        let at = match self.place_of(parts) {
            Ok(at) => {
                let old = self.as_slice()[at].1;
                self.keys[at] = (*parts, old.stronger(kind));
                return Ok(());
            }
            Err(at) => at,
        };
        if self.len() >= KeySet::LIMIT {
            return Err(KeyFault::Full);
        }
        match self.keys.insert(at, (*parts, kind)) {
            Ok(()) => {}
            Err(_) => return Err(KeyFault::NoMemory),
        }
        Ok(())
    }

    // Where the key with these parts stands, or where it would go.
    fn place_of(&self, parts: &Parts) -> Result<usize, usize>
        ensures within { IsSearchInRange result (length self.now.entries) }
        ensures found { IfOk result (IsAt parts.now self.now.entries) }
        ensures absent { IfErr result (IsGap parts.now self.now.entries) }
    {
        let keys = self.as_slice();
        keys.binary_search_by_key(parts, |key| key.0)
    }

    /// The kind of the key with these parts; None where the set has no such key.
    pub fn kind_at(&self, parts: &Parts) -> Option<Kind>
        ensures { result ≡ map.get self.now parts.now }
    {
        match self.place_of(parts) {
            Ok(at) => Some(self.as_slice()[at].1),
            Err(_) => None,
        }
    }

    /// The number of keys.
    pub fn len(&self) -> usize
        ensures count { result ≡ map.len self.now }
        ensures within { result ≤ keys.LIMIT }
    {
        self.keys.len()
    }

    /// Whether it has no key.
    pub fn is_empty(&self) -> bool
        ensures { IsTrue result ↔ (self.now ≡ map.empty) }
    {
        self.as_slice().is_empty()
    }

    /// Whether the parts of all keys pass the test.
    pub fn all<T: PartsTest>(&self, test: &T) -> bool
        ensures { result ≡ list_all (λ key. T.admits test.now key.0) self.now.entries }
    {
        all_admitted(self.as_slice(), test)
    }

    /// The allocator that the set grows by.
    pub fn alloc(&self) -> Global {
        *self.keys.allocator()
    }

    /// Each key once, in the order of their parts: by table, a table before its rows, then by row.
    /// It takes no memory.
    pub fn as_slice(&self) -> &[(Parts, Kind)]
        ensures { result.now ≡ self.now.entries }
    {
        self.keys.as_slice()
    }

    /// A set with the same keys.
    pub fn copy(&self) -> Result<KeySet, NoMemory>
        ensures { IfOk result (λ set. set ≡ self.now) }
    {
        Ok(KeySet {
            keys: SmallVec::from_slice(self.alloc(), self.keys.as_slice())?,
        })
    }

    /// The keys of both sets; at parts that both have, the stronger kind.
    pub fn union(&self, other: &KeySet) -> Result<KeySet, KeyFault>
        ensures ok { IfOk result (λ set. set ≡ keys.union self.now other.now) }
        ensures full { IsErrOf result KeyFault.Full
            ↔ (keys.LIMIT < map.len (keys.union self.now other.now)) }
    {
        if self.union_passes(other) {
            return Err(KeyFault::Full);
        }
        let mut both = match self.copy() {
            Ok(both) => both,
            Err(_) => return Err(KeyFault::NoMemory),
        };
        for (parts, kind) in other.as_slice() {
            match both.add(parts, *kind) {
                Ok(()) => {}
                Err(fault) => return Err(fault),
            }
        }
        Ok(both)
    }

    // Whether the union has more keys than a set may have. It looks keys up only where both sets
    // together are so large.
    fn union_passes(&self, other: &KeySet) -> bool
        ensures { IsTrue result ↔ (keys.LIMIT < map.len (keys.union self.now other.now)) }
    {
        let most = self.len() + other.len();
        most > KeySet::LIMIT && self.union_len(other) > KeySet::LIMIT
    }

    // The number of keys of the union.
    fn union_len(&self, other: &KeySet) -> usize
        ensures { result ≡ map.len (keys.union self.now other.now) }
    {
        let keys = other.as_slice().iter();
        let added = keys.filter(|key| self.kind_at(&key.0).is_none());
        self.len() + added.count()
    }
}
