ghost use Rattle.std.specs.Prelude.{◌≡◌, ◌+◌, ◌<◌, ◌≤◌, ◌&&◌, ◌++◌, length, cond, None, is_some, IfOk, OnOk, OnErr, IsOk, IsSome};
ghost use Rattle.std.specs.Option.{option_to_list};
ghost use Rattle.std.specs.HashMap.{spare};
ghost use Rattle.std.specs.Map.{lookup};
ghost use Rattle.finite_map.specs.FiniteMap.{empty, get, remove};
ghost use Rattle.finite_map.specs.Links.{Linked};
ghost use Rattle.key_sets.specs.Keys.{touches, one_key};
ghost use Rattle.key_sets.specs.Kinds.{kinds_touch};
ghost use Rattle.key_sets.specs.Parts.{same_parts, table_of};
ghost use Rattle.key_sets.specs.Probes.{passes};
ghost use Rattle.row_locks.specs.Alike.{HoldAlike, with_held};
ghost use Rattle.row_locks.specs.HolderIndex.{index_room};
ghost use Rattle.row_locks.specs.Holders.{same_holder};
ghost use Rattle.row_locks.specs.LockKeys.{holder_eq, lock_eq};
ghost use Rattle.row_locks.specs.Locks.{blocker, granted, keys_at, touching_sessions, with_lock};
ghost use Rattle.row_locks.specs.LockTable.{DropsAll, IsIndexOf, blocker_at, has_row_of, is_in_way_at, last_with, lesser, links, lock_after, row_blocker, row_in_way, touched_session, touches_some, where_passes};
ghost use Rattle.row_locks.specs.declared.holder.Holder.TheVariants.{Session};
ghost use Rattle.row_locks.specs.declared.lock_table.LockKey.{LockKey};

use crate::holder::{Grant, Holder};
use crate::holder_index::HolderIndex;
use crate::put::put;
use item_list::ItemList;
use key_sets::{KeySet, Kind, Parts};
use std::alloc::Global;
use std::collections::HashMap;
use std::marker::Model;
use wsrep_base::{NoMemory, SessionList};

// A key of a holder.
#[derive(Clone, Copy, Debug, PartialEq, Eq, Hash)]
pub(crate) struct LockKey {
    pub(crate) holder: Holder,
    pub(crate) parts: Parts,
}

// The kind of a key, and the key that its holder got before it.
#[derive(Clone, Copy, Debug)]
struct Lock {
    kind: Kind,
    before: Option<Parts>,
}

/// The keys that sessions and units have, each to itself as far as keys touch.
#[derive(Drop)]
pub struct LockTable {
    locks: HashMap<LockKey, Lock>,
    // The key that each holder got last.
    newest: HashMap<Holder, Parts>,
    // Who has a key at given parts.
    index: HolderIndex,
    // No session above this one ever had a key.
    last_session: u8,
}

impl Model for LockTable {
    ghost use Rattle.row_locks.specs.Locks.{LockState, coded_lock_state};

    ghost Value = { LockState };

    ghost coded = { coded_lock_state };

    ghost use Rattle.std.specs.HashMap.{spare};
    ghost use Rattle.row_locks.specs.HolderIndex.{index_room};
    ghost use Rattle.row_locks.specs.LockTable.{lock_state, IsLockTable};

    ghost view = { λ table.
        lock_state table.locks.entries (spare table.locks) (spare table.newest)
        (index_room table.index) };

    ghost invariant = { λ table.
        IsLockTable table.locks.entries table.newest.entries table.index table.last_session };
}

impl LockTable {
    /// No locks. It takes no memory.
    pub fn new(alloc: Global) -> Result<LockTable, NoMemory>
        ensures locks { IfOk result (λ table. table.locks ≡ empty) }
        ensures succeeds { IsOk result }
    {
        Ok(LockTable {
            locks: HashMap::new(alloc),
            newest: HashMap::new(alloc),
            index: HolderIndex::new(alloc),
            last_session: 0,
        })
    }

    /// Gives a holder a key, unless another holder has one that touches it. A stronger kind
    /// replaces a weaker one.
    pub fn grant(&mut self, holder: Holder, parts: &Parts, kind: Kind) -> Result<Grant, NoMemory>
        ensures ok { IfOk result
            (λ grant. (grant, self.new.locks) ≡ granted self.old.locks holder parts.now kind) }
        ensures err { OnErr result (self.new.locks ≡ self.old.locks) }
        ensures busy { OnErr result (blocker self.old.locks holder parts.now kind ≡ None) }
        ensures succeeds { 0 < self.old.spare → IsOk result }
        ensures spare { self.old.spare ≤ self.new.spare + 1 }
        ensures refused { IsSome (blocker self.old.locks holder parts.now kind)
            → self.old.spare ≤ self.new.spare }
    {
        if let Some(other) = self.check(holder, parts, kind) {
            return Ok(Grant::Busy(other));
        }
        self.reserve(1)?;
        self.add(holder, parts, kind);
        Ok(Grant::Held)
    }

    /// Gives a holder all these keys, with no test of who else has them. There is room for them.
    /// Where the holder has a key, the stronger kind stays.
    pub fn hold(&mut self, holder: Holder, keys: &[(Parts, Kind)])
        requires room { length keys.now ≤ self.old.spare }
        ensures keys { HoldAlike self.new.locks (with_held self.old.locks holder keys.now) }
        ensures spare { self.old.spare ≤ self.new.spare + length keys.now }
    {
        for (parts, kind) in keys {
            self.add(holder, parts, *kind);
        }
    }

    /// The least of the other holders that have a key that touches this one: who would make a
    /// request for it busy.
    pub fn check(&self, holder: Holder, parts: &Parts, kind: Kind) -> Option<Holder>
        ensures { result ≡ blocker self.now.locks holder parts.now kind }
    {
        let here = self.blocker_at(holder, parts, kind);
        match parts.row {
            Some(_) => {
                let table = parts.table_parts();
                lesser(here, self.blocker_at(holder, &table, Kind::Shared))
            }
            None if Kind::Shared.touches(kind) => lesser(here, self.row_blocker(holder, parts)),
            None => here,
        }
    }

    /// Makes room for so many keys that are granted.
    pub fn reserve(&mut self, keys: usize) -> Result<(), NoMemory>
        ensures ok { OnOk result (keys ≤ self.new.spare) }
        ensures succeeds { keys ≤ self.old.spare → IsOk result }
        ensures locks { self.new.locks ≡ self.old.locks }
        ensures spare { self.old.spare ≤ self.new.spare }
    {
        self.locks.reserve(keys)?;
        self.newest.reserve(keys)?;
        self.index.reserve(keys)
    }

    /// Drops all keys of a holder.
    pub fn release(&mut self, holder: Holder)
        ensures locks { self.new.locks ≡ remove self.old.locks holder }
        ensures spare { self.old.spare ≤ self.new.spare }
    {
        let newest = self.newest.remove(&holder);
        drop_all(&mut self.locks, &mut self.index, holder, newest);
    }

    /// The sessions that have a key that touches one of the set, ascending.
    pub fn touching(&self, keys: &KeySet) -> Result<SessionList, NoMemory>
        ensures { IfOk result (λ sessions. sessions ≡ touching_sessions self.now.locks keys.now) }
    {
        let list = keys.as_slice();
        let mut sessions: Vec<u8> = Vec::new(keys.alloc());
        for session in 0..self.last_session {
            self.add_touched(&mut sessions, session, list)?;
        }
        self.add_touched(&mut sessions, self.last_session, list)?;
        Ok(ItemList::from(sessions))
    }

    // The least of the other holders that have a key with just these parts that the kind touches.
    fn blocker_at(&self, holder: Holder, parts: &Parts, kind: Kind) -> Option<Holder>
        ensures { result ≡ blocker_at self.now.locks holder parts.now kind }
    {
        let mut least = None;
        for number in 0..self.index.count(parts) {
            let other = self.index.holder(parts, number);
            least = lesser(least, self.in_way_at(other, holder, parts, kind));
        }
        least
    }

    // The other holder, where it has a key with just these parts that the kind touches.
    fn in_way_at(
        &self,
        other: Option<Holder>,
        holder: Holder,
        parts: &Parts,
        kind: Kind,
    ) -> Option<Holder>
        ensures { result ≡ where_passes (is_in_way_at self.now.locks holder parts.now kind) other }
    {
        match other {
            Some(other) if other != holder && self.is_touched_at(other, parts, kind) => Some(other),
            _ => None,
        }
    }

    // The least of the other holders that have a key of a row of this table. It goes over all
    // locks.
    fn row_blocker(&self, holder: Holder, table: &Parts) -> Option<Holder>
        ensures { result ≡ row_blocker self.now.locks holder table.now }
    {
        let mut least = None;
        for (key, _) in &self.locks {
            if is_row_in_way(key, holder, table) {
                least = lesser(least, Some(key.holder));
            }
        }
        least
    }

    // Adds the session to the list, where one of the keys touches one of its own.
    fn add_touched(
        &self,
        sessions: &mut Vec<u8>,
        session: u8,
        keys: &[(Parts, Kind)],
    ) -> Result<(), NoMemory>
        ensures { OnOk result
            (sessions.new.items
            ≡ sessions.old.items
            ++ option_to_list (touched_session self.now.locks keys.now (Session session))) }
    {
        if self.is_session_touched(session, keys) {
            sessions.push(session)?;
        }
        Ok(())
    }

    // Whether one of the keys touches a key of the session.
    fn is_session_touched(&self, session: u8, keys: &[(Parts, Kind)]) -> bool
        ensures { result ≡ touches_some self.now.locks keys.now (Session session) }
    {
        let holder = Holder::Session(session);
        self.newest.contains_key(&holder) && self.touches_some(holder, keys)
    }

    // Whether one of the keys touches a key of the holder.
    fn touches_some(&self, holder: Holder, keys: &[(Parts, Kind)]) -> bool
        ensures { result ≡ touches_some self.now.locks keys.now holder }
    {
        keys.iter()
            .any(|(parts, kind)| self.touches(holder, parts, *kind))
    }

    // Whether the key touches a key of the holder: one with the same parts, the key of its table,
    // or a key of a row of it.
    fn touches(&self, holder: Holder, parts: &Parts, kind: Kind) -> bool
        ensures { result ≡ touches (one_key parts.now kind) (keys_at self.now.locks holder) }
    {
        self.is_touched_at(holder, parts, kind)
            || match parts.row {
                Some(_) => self.is_touched_at(holder, &parts.table_parts(), Kind::Shared),
                None => Kind::Shared.touches(kind) && self.has_row(holder, parts),
            }
    }

    // Whether the holder has a key with just these parts that the kind touches.
    fn is_touched_at(&self, holder: Holder, parts: &Parts, kind: Kind) -> bool
        ensures { result
            ≡ passes (kinds_touch kind) (get (keys_at self.now.locks holder) parts.now) }
    {
        let parts = *parts;
        match self.locks.get(&LockKey { holder, parts }) {
            Some(lock) => kind.touches(lock.kind),
            None => false,
        }
    }

    // Whether the holder has a key of a row of this table. It goes over all locks.
    fn has_row(&self, holder: Holder, table: &Parts) -> bool
        ensures { result ≡ has_row_of (keys_at self.now.locks holder) table.now }
    {
        let mut locks = self.locks.iter();
        locks.any(|(key, _)| key.holder == holder && is_row_of(&key.parts, table))
    }

    // Adds a key to those of a holder. There is room for it.
    fn add(&mut self, holder: Holder, parts: &Parts, kind: Kind)
        requires { 0 < self.old.spare }
        ensures locks { self.new.locks ≡ with_lock self.old.locks holder parts.now kind }
        ensures spare { self.old.spare ≤ self.new.spare + 1 }
    {
        let parts = *parts;
        let key = LockKey { holder, parts };
        let lock = raised(&self.locks, &self.newest, &key, kind);
        match self.locks.insert(key, lock) {
            Ok(Some(_)) => {}
            Ok(None) => {
                put(&mut self.newest, holder, parts);
                self.index.add(key);
                self.last_session = last_with(self.last_session, holder);
            }
            Err(_) => unreachable!(),
        }
    }
}

// The lesser of two holders, where there is one.
fn lesser(one: Option<Holder>, other: Option<Holder>) -> Option<Holder>
    ensures { result ≡ lesser one other }
{
    match (one, other) {
        (Some(a), Some(b)) if b < a => Some(b),
        (Some(a), _) => Some(a),
        (None, b) => b,
    }
}

// The greatest session that has had a key, once this holder has one.
fn last_with(last: u8, holder: Holder) -> u8
    ensures { result ≡ last_with last holder }
{
    match holder {
        Holder::Session(session) => last.max(session),
        Holder::Unit(_) => last,
    }
}

// Whether the parts are those of a row of the table.
fn is_row_of(parts: &Parts, table: &Parts) -> bool
    ensures { result ≡ is_some parts.now.row && same_parts (table_of parts.now) table.now }
{
    parts.row.is_some() && parts.table_parts() == *table
}

// Whether the key is another holder's, and that of a row of the table.
fn is_row_in_way(key: &LockKey, holder: Holder, table: &Parts) -> bool
    ensures { result ≡ row_in_way holder table.now key.now }
{
    key.holder != holder && is_row_of(&key.parts, table)
}

// The lock that a key has once it is granted: with the stronger kind, and leading to where it did,
// or else to its holder's newest key.
fn raised(
    locks: &HashMap<LockKey, Lock>,
    newest: &HashMap<Holder, Parts>,
    key: &LockKey,
    kind: Kind,
) -> Lock
    ensures { result
        ≡ lock_after (lookup (lock_eq key.now) locks.now.entries)
        (lookup (holder_eq key.now.holder) newest.now.entries) kind }
{
    match locks.get(key) {
        Some(old) => Lock {
            kind: old.kind.stronger(kind),
            before: old.before,
        },
        None => Lock {
            kind,
            before: newest.get(&key.holder).copied(),
        },
    }
}

// Takes out all keys of a holder, from its newest on.
fn drop_all(
    locks: &mut HashMap<LockKey, Lock>,
    index: &mut HolderIndex,
    holder: Holder,
    newest: Option<Parts>,
)
    requires linked { Linked (links locks.old.entries holder) newest }
    requires index { IsIndexOf index.old locks.old.entries }
    ensures index { IsIndexOf index.new locks.new.entries }
    ensures locks { DropsAll holder locks.old.entries locks.new.entries }
    ensures spare { spare locks.old ≤ spare locks.new }
    ensures room { index_room index.old ≤ index_room index.new }
{
    let mut next = newest;
    while let Some(parts) = next {
        let key = LockKey { holder, parts };
        index.remove(&key);
        next = match locks.remove(&key) {
            Some(lock) => lock.before,
            None => None,
        };
    }
}
