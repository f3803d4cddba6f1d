//! Where fragments are found.
ghost use Rattle.std.specs.Prelude.{◌≡◌, ◌+◌, ◌≤◌};
ghost use Rattle.sr_fragments.specs.Spots.{is_changing, mark_of, mark_end, mark_first, place_of, rank_of};

use key_sets::{Kind, Parts};
use wsrep_base::TrxId;

/// The keys at some parts that change what is there, or else those that do not.
#[derive(Clone, Copy, Debug, PartialEq, Eq, Hash)]
pub(crate) struct Spot {
    pub(crate) parts: Parts,
    pub(crate) changing: bool,
}

/// A spot in the keys of a transaction.
#[derive(Clone, Copy, Debug, PartialEq, Eq, Hash)]
pub(crate) struct Place {
    pub(crate) spot: Spot,
    pub(crate) trx: TrxId,
}

/// A fragment of a transaction at a spot. Marks stand in the order of their spots, and at a spot
/// by their numbers.
#[derive(Clone, Copy, Debug, PartialEq, Eq, PartialOrd, Ord)]
pub(crate) struct Mark {
    pub(crate) parts: Parts,
    // 1 where the keys change what is there.
    pub(crate) rank: u8,
    pub(crate) number: u64,
    pub(crate) trx: TrxId,
}

impl Place {
    /// The place of the keys of this kind at these parts.
    pub(crate) fn of(trx: TrxId, parts: &Parts, kind: Kind) -> Place
        ensures { result ≡ place_of trx (parts.now, kind) }
    {
        Place {
            spot: Spot {
                parts: *parts,
                changing: is_changing(kind),
            },
            trx,
        }
    }

    /// The mark of a fragment with this number.
    pub(crate) fn mark(&self, number: u64) -> Mark
        ensures { result ≡ mark_of self.now number }
    {
        Mark {
            parts: self.spot.parts,
            rank: rank_of(self.spot.changing),
            number,
            trx: self.trx,
        }
    }
}

impl Spot {
    /// No mark of the spot stands before this one.
    pub(crate) fn first(&self) -> Mark
        ensures { result ≡ mark_first self.now }
    {
        Mark {
            parts: self.parts,
            rank: rank_of(self.changing),
            number: 0,
            trx: TrxId {
                member: 0,
                begin: 0,
            },
        }
    }

    /// All marks of the spot stand before this one, and no other mark does that is not before the
    /// first.
    pub(crate) fn end(&self) -> Mark
        ensures { result ≡ mark_end self.now }
    {
        Mark {
            parts: self.parts,
            rank: rank_of(self.changing) + 1,
            number: 0,
            trx: TrxId {
                member: 0,
                begin: 0,
            },
        }
    }
}

/// Whether keys of the kind change what is there. They touch shared keys too.
pub(crate) fn is_changing(kind: Kind) -> bool
    ensures { result ≡ is_changing kind }
{
    kind.touches(Kind::Shared)
}

// Changing keys come behind shared ones.
fn rank_of(changing: bool) -> u8
    ensures rank { result ≡ rank_of changing }
    ensures most { result ≤ 1 }
{
    if changing { 1 } else { 0 }
}
