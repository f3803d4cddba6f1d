//! Who has a key at given parts, found by look-ups: the holders there are numbered from 0 on.
ghost use Rattle.std.specs.Prelude.{◌≡◌, ◌+◌, ◌<◌, ◌≤◌, true, false, is_some, OnOk, IsOk};
ghost use Rattle.std.specs.HashMap.{spare};
ghost use Rattle.std.specs.Map.{lookup};
ghost use Rattle.key_sets.specs.Parts.{parts_eq};
ghost use Rattle.row_locks.specs.LockKeys.{lock_eq};
ghost use Rattle.row_locks.specs.Sets.{SetsAt};
ghost use Rattle.row_locks.specs.HolderIndex.{IsIndex, count, count_in, holder_in, has_number, index_room};
ghost use Rattle.row_locks.specs.declared.lock_table.LockKey.{LockKey};

use crate::holder::Holder;
use crate::lock_table::LockKey;
use crate::put::{put, replace};
use key_sets::Parts;
use std::alloc::Global;
use std::collections::HashMap;
use wsrep_base::NoMemory;

// A number at parts.
#[derive(Clone, Copy, Debug, PartialEq, Eq, Hash)]
struct Place {
    parts: Parts,
    number: usize,
}

/// At each parts the holders that have a key there, numbered from 0 on.
#[derive(Drop)]
pub(crate) struct HolderIndex {
    // So many holders; parts that nobody has a key at are not there.
    counts: HashMap<Parts, usize>,
    holders: HashMap<Place, Holder>,
    // The number that a holder's key has at its parts.
    numbers: HashMap<LockKey, usize>,
}

impl HolderIndex {
    pub(crate) fn new(alloc: Global) -> HolderIndex
        ensures index { IsIndex result }
        ensures none { (key : LockKey) → has_number result key ≡ false }
    {
        HolderIndex {
            counts: HashMap::new(alloc),
            holders: HashMap::new(alloc),
            numbers: HashMap::new(alloc),
        }
    }

    // How many holders have a key at the parts.
    pub(crate) fn count(&self, parts: &Parts) -> usize
        ensures { result ≡ count self.now parts.now }
    {
        match self.counts.get(parts) {
            Some(count) => *count,
            None => 0,
        }
    }

    // The holder with this number at the parts.
    pub(crate) fn holder(&self, parts: &Parts, number: usize) -> Option<Holder>
        ensures { result ≡ holder_in self.now parts.now number }
    {
        let parts = *parts;
        self.holders.get(&Place { parts, number }).copied()
    }

    /// Makes room for so many more keys.
    pub(crate) fn reserve(&mut self, keys: usize) -> Result<(), NoMemory>
        requires index { IsIndex self.old }
        ensures ok { OnOk result (keys ≤ index_room self.new) }
        ensures succeeds { keys ≤ index_room self.old → IsOk result }
        ensures index { IsIndex self.new }
        ensures same { (key : LockKey) → has_number self.new key ≡ has_number self.old key }
        ensures room { index_room self.old ≤ index_room self.new }
    {
        self.counts.reserve(keys)?;
        self.holders.reserve(keys)?;
        self.numbers.reserve(keys)
    }

    /// The key gets the next number at its parts. There is room for it.
    pub(crate) fn add(&mut self, key: LockKey)
        requires index { IsIndex self.old }
        requires fresh { has_number self.old key ≡ false }
        requires room { 0 < index_room self.old }
        ensures index { IsIndex self.new }
        ensures numbers { SetsAt lock_eq (has_number self.old) key true (has_number self.new) }
        ensures room { index_room self.old ≤ index_room self.new + 1 }
    {
        let LockKey { holder, parts } = key;
        let number = self.count(&parts);
        // Each number has an entry of its own.
        prove!(number <= self.holders.len());
        put(&mut self.numbers, key, number);
        put(&mut self.holders, Place { parts, number }, holder);
        put(&mut self.counts, parts, number + 1);
    }

    /// Takes the key out; the last holder at its parts gets its number.
    pub(crate) fn remove(&mut self, key: &LockKey)
        requires index { IsIndex self.old }
        ensures index { IsIndex self.new }
        ensures numbers { SetsAt lock_eq (has_number self.old) key.now false (has_number self.new) }
        ensures room { index_room self.old ≤ index_room self.new }
    {
        let Some(number) = self.numbers.remove(key) else {
            return;
        };
        let parts = key.parts;
        let last = self.count(&parts) - 1;
        let place = Place {
            parts,
            number: last,
        };
        let Some(holder) = self.holders.remove(&place) else {
            unreachable!()
        };
        put_count(&mut self.counts, parts, last);
        if number < last {
            replace(&mut self.holders, &Place { parts, number }, holder);
            replace(&mut self.numbers, &LockKey { holder, parts }, number);
        }
    }
}

// So many holders have a key at the parts; there was one.
fn put_count(counts: &mut HashMap<Parts, usize>, parts: Parts, count: usize)
    requires { is_some (lookup (parts_eq parts) counts.old.entries) ≡ true }
    ensures counts { SetsAt parts_eq (count_in counts.old.entries) parts count
        (count_in counts.new.entries) }
    ensures spare { spare counts.old ≤ spare counts.new }
{
    if count == 0 {
        counts.remove(&parts);
    } else {
        replace(counts, &parts, count);
    }
}
