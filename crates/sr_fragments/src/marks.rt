//! The marks in their order, and the table that they go with, changed together.
ghost use Rattle.std.specs.Prelude.{◌≡◌, ℕ, ◌+◌, ◌≤◌, ◌<◌, ◌&&◌, ◌||◌, not, cond, length, true, false, nat_eq, Some, OnOk, OnErr};
ghost use Rattle.std.specs.HashMap.{spare};
ghost use Rattle.std.specs.BTreeMap.Range.{IsLeBy};
ghost use Rattle.sr_fragments.specs.Spots.{mark_of, mark_cmp};
ghost use Rattle.sr_fragments.specs.HeldIndex.{found_in, has_in, is_in, is_replaced, place_eq, IsGreatestMark, IsMarked, IsMarkedToo};
ghost use Rattle.sr_fragments.specs.declared.spot.Place.{Place};

use crate::spot::{Mark, Place};
use std::alloc::AllocError;
use std::collections::{BTreeSet, HashMap};
use wsrep_base::NoMemory;

/// Marks a fragment with this number at all these places.
pub(crate) fn mark_all(
    order: &mut BTreeSet<Mark>,
    places: &[Place],
    number: u64,
) -> Result<(), NoMemory>
    requires fresh { (p : Place) → is_in p places.now ≡ true
        → has_in order.old.keys (mark_of p number) ≡ false }
    ensures ok { OnOk result ((p : Place) (n : ℕ) → has_in order.new.keys (mark_of p n)
        ≡ (nat_eq number n && is_in p places.now) || has_in order.old.keys (mark_of p n)) }
    ensures err { OnErr result ((p : Place) (n : ℕ) → has_in order.new.keys (mark_of p n)
        ≡ has_in order.old.keys (mark_of p n)) }
{
    for place in places {
        match order.insert(place.mark(number)) {
            Ok(_) => {}
            Err(_) => {
                unmark_all(order, places, number);
                return Err(AllocError);
            }
        }
    }
    Ok(())
}

/// Takes the marks of a fragment with this number away at all these places.
pub(crate) fn unmark_all(order: &mut BTreeSet<Mark>, places: &[Place], number: u64)
    ensures { (p : Place) (n : ℕ) → has_in order.new.keys (mark_of p n)
        ≡ not (nat_eq number n && is_in p places.now) && has_in order.old.keys (mark_of p n) }
{
    for place in places {
        order.remove(&place.mark(number));
    }
}

/// A fragment that is marked at these places is the latest there: the table says so, and what was
/// the latest is marked no longer.
pub(crate) fn raise_all(
    latest: &mut HashMap<Place, u64>,
    order: &mut BTreeSet<Mark>,
    places: &[Place],
    number: u64,
)
    requires room { length places.now ≤ spare latest.old }
    requires marked { IsMarkedToo order.old.keys (found_in latest.old.entries) places.now number }
    ensures found { (p : Place) → found_in latest.new.entries p
        ≡ cond (is_in p places.now) (Some number) (found_in latest.old.entries p) }
    ensures marked { IsMarked order.new.keys (found_in latest.new.entries) }
{
    for place in places {
        raise_place(latest, order, place, number);
    }
}

// The number is the latest at the place, and what was the latest is marked no longer.
fn raise_place(
    latest: &mut HashMap<Place, u64>,
    order: &mut BTreeSet<Mark>,
    place: &Place,
    number: u64,
)
    requires room { 0 < spare latest.old }
    ensures found { (p : Place) → found_in latest.new.entries p
        ≡ cond (place_eq place.now p) (Some number) (found_in latest.old.entries p) }
    ensures marked { (p : Place) (n : ℕ) → has_in order.new.keys (mark_of p n)
        ≡ not (place_eq place.now p && is_replaced n number (found_in latest.old.entries p))
        && has_in order.old.keys (mark_of p n) }
    ensures spare { spare latest.old ≤ spare latest.new + 1 }
{
    match latest.insert(*place, number) {
        Ok(Some(old)) => {
            if old != number {
                order.remove(&place.mark(old));
            }
        }
        Ok(None) => {}
        Err(_) => unreachable!(),
    }
}

/// The last mark from one on and before another.
pub(crate) fn last_between(order: &BTreeSet<Mark>, from: Mark, end: Mark) -> Option<Mark>
    requires { IsLeBy mark_cmp from end }
    ensures { IsGreatestMark order.now.keys from end result }
{
    order.range(from..end).next_back().copied()
}
