//! The latest fragment of each open transaction at each spot, found by the spot.
ghost use Rattle.std.specs.Prelude.{◌≡◌, ◌≤◌, ◌&&◌, ◌||◌, [], ◌∷◌, cond, length, None, Some, IfOk, OnOk, OnErr};
ghost use Rattle.std.specs.HashMap.{spare};
ghost use Rattle.sr_fragments.specs.HeldIndex.{found, is_in, is_place, is_rising, place_eq, AreRising, IsIndex, IsLatestBut, IsPrepared};
ghost use Rattle.sr_fragments.specs.declared.spot.Place.{Place};

use crate::marks::{last_between, mark_all, raise_all, unmark_all};
use crate::spot::{Mark, Place, Spot};
use key_sets::{KeySet, Kind, Parts};
use std::alloc::Global;
use std::collections::{BTreeSet, HashMap};
use wsrep_base::{NoMemory, TrxId};

/// For each transaction and spot the number of the latest fragment that has a key there.
#[derive(Drop)]
pub(crate) struct HeldIndex {
    latest: HashMap<Place, u64>,
    // The same numbers, in order at each spot.
    order: BTreeSet<Mark>,
}

impl HeldIndex {
    /// No fragment. It takes no memory.
    pub(crate) fn new(alloc: Global) -> HeldIndex
        ensures index { IsIndex result }
        ensures none { (p : Place) → found result p ≡ None }
    {
        HeldIndex {
            latest: HashMap::new(alloc),
            order: BTreeSet::new(alloc),
        }
    }

    /// The places at which a fragment with this number and these keys is the latest.
    pub(crate) fn rising(
        &self,
        alloc: Global,
        trx: TrxId,
        number: u64,
        keys: &KeySet,
    ) -> Result<Vec<Place>, NoMemory>
        ensures { IfOk result (λ places. (p : Place) → is_in p places.items
            ≡ is_place trx keys.now.entries p && is_rising number (found self.now p)) }
    {
        let mut places = Vec::new(alloc);
        for (parts, kind) in keys.as_slice() {
            self.add_rising(&mut places, number, Place::of(trx, parts, *kind))?;
            if parts.row.is_some() {
                let table = parts.table_parts();
                self.add_rising(&mut places, number, Place::of(trx, &table, Kind::Shared))?;
            }
        }
        Ok(places)
    }

    // Adds the place to the list, where the number is above the latest.
    fn add_rising(&self, places: &mut Vec<Place>, number: u64, place: Place) -> Result<(), NoMemory>
        ensures { OnOk result ((p : Place) → is_in p places.new.items
            ≡ (place_eq place p && is_rising number (found self.now p))
            || is_in p places.old.items) }
    {
        if is_rising(number, self.latest.get(&place).copied()) {
            places.push(place)?;
            Ok(())
        } else {
            Ok(())
        }
    }

    /// Makes the room for a fragment with this number to be the latest at these places.
    pub(crate) fn prepare(&mut self, places: &[Place], number: u64) -> Result<(), NoMemory>
        requires index { IsIndex self.old }
        requires rising { AreRising (found self.old) places.now number }
        ensures found { (p : Place) → found self.new p ≡ found self.old p }
        ensures ok { OnOk result (IsPrepared self.new places.now number) }
        ensures room { OnOk result (length places.now ≤ spare self.new.latest) }
        ensures err { OnErr result (IsIndex self.new) }
    {
        self.latest.reserve(places.len())?;
        mark_all(&mut self.order, places, number)
    }

    /// Such a fragment does not come.
    pub(crate) fn forgo(&mut self, places: &[Place], number: u64)
        requires prepared { IsPrepared self.old places.now number }
        requires rising { AreRising (found self.old) places.now number }
        ensures index { IsIndex self.new }
        ensures found { (p : Place) → found self.new p ≡ found self.old p }
    {
        unmark_all(&mut self.order, places, number);
    }

    /// The fragment is the latest at these places.
    pub(crate) fn raise(&mut self, places: &[Place], number: u64)
        requires prepared { IsPrepared self.old places.now number }
        requires room { length places.now ≤ spare self.old.latest }
        ensures index { IsIndex self.new }
        ensures found { (p : Place) → found self.new p
            ≡ cond (is_in p places.now) (Some number) (found self.old p) }
    {
        raise_all(&mut self.latest, &mut self.order, places, number);
    }

    /// Adds a fragment with this number and these keys. It costs these keys.
    pub(crate) fn add(
        &mut self,
        alloc: Global,
        trx: TrxId,
        number: u64,
        keys: &KeySet,
    ) -> Result<(), NoMemory>
        requires { IsIndex self.old }
        ensures index { OnOk result (IsIndex self.new) }
        ensures found { OnOk result ((p : Place) → found self.new p
            ≡ cond (is_place trx keys.now.entries p && is_rising number (found self.old p))
            (Some number) (found self.old p)) }
    {
        let places = self.rising(alloc, trx, number, keys)?;
        let places = places.as_slice();
        self.prepare(places, number)?;
        self.raise(places, number);
        Ok(())
    }

    /// Forgets all fragments of the transaction where one of these keys is. It costs these keys.
    pub(crate) fn forget(&mut self, trx: TrxId, keys: &KeySet)
        requires index { IsIndex self.old }
        ensures index { IsIndex self.new }
        ensures found { (p : Place) → found self.new p
            ≡ cond (is_place trx keys.now.entries p) None (found self.old p) }
    {
        for (parts, kind) in keys.as_slice() {
            self.forget_key(trx, parts, *kind);
        }
    }

    // Forgets them at one key.
    fn forget_key(&mut self, trx: TrxId, parts: &Parts, kind: Kind)
        requires index { IsIndex self.old }
        ensures index { IsIndex self.new }
        ensures found { (p : Place) → found self.new p
            ≡ cond (is_place trx ((parts.now, kind) ∷ []) p) None (found self.old p) }
    {
        self.forget_place(Place::of(trx, parts, kind));
        if parts.row.is_some() {
            let table = parts.table_parts();
            self.forget_place(Place::of(trx, &table, Kind::Shared));
        }
    }

    // Forgets the fragment at one place.
    fn forget_place(&mut self, place: Place)
        requires index { IsIndex self.old }
        ensures index { IsIndex self.new }
        ensures found { (p : Place) → found self.new p
            ≡ cond (place_eq place p) None (found self.old p) }
    {
        if let Some(number) = self.latest.remove(&place) {
            self.order.remove(&place.mark(number));
        }
    }

    /// The greatest number at a spot of another transaction. It looks at two marks at most.
    pub(crate) fn latest_but(&self, spot: Spot, trx: TrxId) -> Option<u64>
        requires index { IsIndex self.now }
        ensures { IsLatestBut (found self.now) spot trx result }
    {
        let first = spot.first();
        let last = last_between(&self.order, first, spot.end())?;
        if last.trx != trx {
            return Some(last.number);
        }
        let next = last_between(&self.order, first, last)?;
        Some(next.number)
    }
}

/// Whether the number is above the one that is there, or none is.
fn is_rising(number: u64, latest: Option<u64>) -> bool
    ensures { result ≡ is_rising number latest }
{
    match latest {
        Some(latest) => latest < number,
        None => true,
    }
}
