ghost use Rattle.std.specs.Prelude.{◌≡◌, ◌≤◌, [], ◌∷◌, cond, nat_lt, None, IfOk, IsOk, OnOk, OnErr};
ghost use Rattle.std.specs.Option.{option_map};
ghost use Rattle.finite_map.specs.FiniteMap.{empty, get, len, remove, retain_keys};
ghost use Rattle.key_sets.specs.Keys.{LIMIT};
ghost use Rattle.cert_meaning.specs.Extremes.{greater};
ghost use Rattle.cert_meaning.specs.Fold.{is_of};
ghost use Rattle.cert_meaning.specs.Parts.{open_items};
ghost use Rattle.cert_meaning.specs.State.{fragments_but, whole_keys};
ghost use Rattle.cert_meaning.specs.Verdict.{greatest_touching};
ghost use Rattle.cert_meaning.specs.Whole.{whole_of, within};
ghost use Rattle.sr_fragments.specs.HeldIndex.{found, IsIndex};
ghost use Rattle.sr_fragments.specs.OpenSet.{added, dropped, fragments_in, is_place_of, latest, latest_at, meets, pair_meets, shape_of};
ghost use Rattle.sr_fragments.specs.declared.spot.Place.{Place};

mod parts;

use crate::held_index::HeldIndex;
use crate::shape::Shape;
use crate::spot::{Spot, is_changing};
use cert_meaning::{Fragment, OpenList, OpenTable, Whole, last_seen_of};
use key_sets::{KeySet, Kind, Parts};
use std::alloc::{AllocError, Global};
use std::marker::Model;
use wsrep_base::{NoMemory, TrxId};

/// The open transactions, each with its passed fragments, oldest first.
#[derive(Drop)]
pub struct OpenSet {
    alloc: Global,
    open: OpenTable,
    index: HeldIndex,
}

impl Model for OpenSet {
    ghost use Rattle.sr_fragments.specs.OpenSet.{Open, IsIndexOf};

    ghost Value = { Open };

    ghost view = { λ set. set.open };

    ghost invariant = { λ set. IsIndexOf set.index set.open };
}

impl OpenSet {
    /// No transaction. It takes no memory.
    pub fn new(alloc: Global) -> Result<OpenSet, NoMemory>
        ensures empty { IfOk result (λ set. set ≡ empty) }
        ensures succeeds { IsOk result }
    {
        Ok(OpenSet {
            alloc,
            open: OpenTable::new(alloc),
            index: HeldIndex::new(alloc),
        })
    }

    /// Adds a fragment to its transaction, which then is open. With it the transaction has no more
    /// keys than a set can have. It costs the fragment's keys.
    pub fn add(&mut self, trx: TrxId, fragment: Fragment) -> Result<(), NoMemory>
        requires { len (whole_keys (fragments_in self.old trx) fragment.keys) ≤ LIMIT }
        ensures ok { OnOk result (self.new ≡ added self.old trx fragment) }
        ensures err { OnErr result (self.new ≡ self.old) }
    {
        let number = fragment.number;
        let places = self.index.rising(self.alloc, trx, number, &fragment.keys)?;
        let places = places.as_slice();
        self.index.prepare(places, number)?;
        match self.open.add(self.alloc, trx, fragment) {
            Ok(()) => {
                self.index.raise(places, number);
                Ok(())
            }
            Err(_) => {
                self.index.forgo(places, number);
                Err(AllocError)
            }
        }
    }

    /// The transaction is open no longer. It takes no memory, and costs what it forgets.
    pub fn close(&mut self, trx: TrxId)
        ensures { self.new ≡ remove self.old trx }
    {
        forget_all(&mut self.index, trx, self.open.fragments(trx));
        self.open.close(trx);
    }

    /// No transaction of the member is open any longer. It takes no memory.
    pub fn drop_member(&mut self, member: u32)
        ensures { self.new ≡ dropped self.old member }
    {
        while let Some(trx) = self.open.one_of(member) {
            self.close(trx);
        }
    }

    /// Only transactions of these members stay open. It takes no memory.
    pub fn keep_of(&mut self, members: &[u32])
        ensures { self.new ≡ retain_keys self.old (is_of members.now) }
    {
        while let Some(trx) = self.open.one_outside(members) {
            self.close(trx);
        }
    }

    /// The greatest fragment of another transaction whose keys touch these. It costs three
    /// look-ups a key at most, and no memory.
    pub fn held_by(&self, keys: &KeySet, other_than: TrxId) -> Option<u64>
        ensures { result ≡ greatest_touching (fragments_but self.now other_than) keys.now }
    {
        let mut greatest = None;
        for (parts, kind) in keys.as_slice() {
            greatest = greater(greatest, self.held_at(parts, *kind, other_than));
        }
        greatest
    }

    /// The fragments of a transaction, oldest first; none where it is not open.
    pub fn fragments(&self, trx: TrxId) -> &[Fragment]
        ensures { result.now ≡ fragments_in self.now trx }
    {
        self.open.fragments(trx)
    }

    /// All keys of a transaction with one more write set. None where they pass what a set may have.
    pub fn whole_keys(&self, trx: TrxId, keys: &KeySet) -> Result<Option<KeySet>, NoMemory>
        ensures { IfOk result
            (λ whole. whole ≡ within (whole_keys (fragments_in self.now trx) keys.now)) }
    {
        self.open.whole_keys(self.alloc, trx, keys)
    }

    /// All keys and all changes of a transaction's fragments. None where it is not open.
    pub fn whole(&self, trx: TrxId) -> Result<Option<Whole>, NoMemory>
        ensures { IfOk result (λ whole. whole ≡ option_map whole_of (get self.now trx)) }
    {
        self.open.whole(self.alloc, trx)
    }

    /// Whether a transaction with these keys too would have more than a set can have. It costs
    /// these keys.
    pub fn is_too_large(&self, trx: TrxId, keys: &KeySet) -> Result<bool, NoMemory>
        ensures { IfOk result
            (λ large. large
            ≡ nat_lt LIMIT (len (whole_keys (fragments_in self.now trx) keys.now))) }
    {
        self.open.is_too_large(self.alloc, trx, keys)
    }

    /// How far a transaction has come. None where it is not open. It takes no memory.
    pub fn shape(&self, trx: TrxId) -> Option<Shape>
        ensures { result ≡ option_map shape_of (get self.now trx) }
    {
        if !self.open.is_open(trx) {
            return None;
        }
        Some(shape_of(self.open.fragments(trx)))
    }

    /// How many transactions are open. It takes no memory.
    pub fn open_count(&self) -> u64
        ensures { result ≡ len self.now }
    {
        self.open.len() as u64
    }

    /// The open transactions, by member and then by begin number.
    pub fn items(&self) -> Result<OpenList, NoMemory>
        ensures { IfOk result (λ items. items ≡ open_items self.now) }
    {
        self.open.items(self.alloc)
    }

    // The greatest fragment of another transaction that touches a key.
    fn held_at(&self, parts: &Parts, kind: Kind, other_than: TrxId) -> Option<u64>
        ensures { result
            ≡ latest (meets ((parts.now, kind) ∷ [])) (fragments_but self.now other_than) }
    {
        let own = self.held_by_kind(*parts, kind, other_than);
        let at_table = match parts.row {
            Some(_) => self.held_by_kind(parts.table_parts(), Kind::Shared, other_than),
            None => None,
        };
        greater(own, at_table)
    }

    // The greatest fragment of another transaction that has at these parts a key that touches one
    // of this kind.
    fn held_by_kind(&self, parts: Parts, kind: Kind, other_than: TrxId) -> Option<u64>
        ensures { result ≡ latest (pair_meets (parts, kind)) (fragments_but self.now other_than) }
    {
        let changing = self.latest_at(parts, true, other_than);
        if is_changing(kind) {
            greater(self.latest_at(parts, false, other_than), changing)
        } else {
            changing
        }
    }

    // The greatest fragment of another transaction that has a key at the spot.
    fn latest_at(&self, parts: Parts, changing: bool, other_than: TrxId) -> Option<u64>
        ensures { result ≡ latest_at (record { parts = parts; changing = changing })
            (fragments_but self.now other_than) }
    {
        self.index.latest_but(Spot { parts, changing }, other_than)
    }
}

// Forgets the fragments of a transaction.
fn forget_all(index: &mut HeldIndex, trx: TrxId, fragments: &[Fragment])
    requires index { IsIndex index.old }
    ensures index { IsIndex index.new }
    ensures found { (p : Place) → found index.new p
        ≡ cond (is_place_of trx fragments.now p) None (found index.old p) }
{
    for fragment in fragments {
        index.forget(trx, &fragment.keys);
    }
}

// How far a transaction with these fragments has come.
fn shape_of(fragments: &[Fragment]) -> Shape
    ensures { result ≡ shape_of fragments.now }
{
    Shape {
        fragments: fragments.len() as u64,
        last_seen: last_seen_of(fragments),
    }
}

// The greater of two numbers that there may be.
fn greater(one: Option<u64>, other: Option<u64>) -> Option<u64>
    ensures { result ≡ greater one other }
{
    match (one, other) {
        (None, other) => other,
        (one, None) => one,
        (Some(one), Some(other)) => Some(one.max(other)),
    }
}
