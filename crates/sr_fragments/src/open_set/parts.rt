//! The open transactions of a list.
ghost use Rattle.std.specs.Prelude.{◌≡◌, IfOk, OnOk};
ghost use Rattle.cert_meaning.specs.Extremes.{greater};
ghost use Rattle.cert_meaning.specs.Parts.{open_of};
ghost use Rattle.sr_fragments.specs.HeldIndex.{found, IsIndex};
ghost use Rattle.sr_fragments.specs.OpenSet.{latest, stands_of};
ghost use Rattle.sr_fragments.specs.declared.spot.Place.{Place};

use super::{OpenSet, forget_all};
use crate::held_index::HeldIndex;
use cert_meaning::{Fragment, OpenList, OpenTable};
use std::alloc::Global;
use wsrep_base::{NoMemory, TrxId};

impl OpenSet {
    /// The transactions of these items. Of items of one transaction the first counts. For one with
    /// more keys than a set may have there is no room.
    pub fn of(alloc: Global, items: OpenList) -> Result<OpenSet, NoMemory>
        ensures { IfOk result (λ set. set ≡ open_of items) }
    {
        let mut open = OpenTable::new(alloc);
        let mut index = HeldIndex::new(alloc);
        let mut left = items.into_vec();
        while let Some(item) = left.pop() {
            forget_all(&mut index, item.trx, open.fragments(item.trx));
            add_all(&mut index, alloc, item.trx, item.fragments.as_slice())?;
            open.put(alloc, item)?;
        }
        Ok(OpenSet { alloc, open, index })
    }
}

// Adds the fragments of a transaction.
fn add_all(
    index: &mut HeldIndex,
    alloc: Global,
    trx: TrxId,
    fragments: &[Fragment],
) -> Result<(), NoMemory>
    requires index { IsIndex index.old }
    ensures index { OnOk result (IsIndex index.new) }
    ensures found { OnOk result ((p : Place) → found index.new p
        ≡ greater (found index.old p) (latest (stands_of trx p) fragments.now)) }
{
    for fragment in fragments {
        index.add(alloc, trx, fragment.number, &fragment.keys)?;
    }
    Ok(())
}
