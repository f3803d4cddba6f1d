//! The keys of a fragment, which are added to those of its transaction.
ghost use Rattle.std.specs.Prelude.{◌≡◌, ◌≤◌, nat_lt, None};
ghost use Rattle.finite_map.specs.FiniteMap.{empty, len};
ghost use Rattle.key_sets.specs.declared.kind.Kind.{Kind};
ghost use Rattle.key_sets.specs.Keys.{LIMIT, with_key};
ghost use Rattle.write_set.specs.Reading.{Gives, is_above};
ghost use Rattle.state_snapshot.specs.Reading.{each_at, whole_key_at, with_both, whole_keys_at};

use key_sets::{KeyFault, KeySet, Kind, Parts};
use std::alloc::Global;
use std::cmp::Ordering;
use write_set::{Cursor, WsFault, key_of};

// Whether a key is above the one before it.
fn is_above(before: &Option<Parts>, parts: &Parts) -> bool
    ensures { result ≡ is_above before.now parts.now }
{
    match before {
        Some(last) => matches!(last.cmp(parts), Ordering::Less),
        None => true,
    }
}

// Whether the set has too many keys once it has this one.
#[tactic(auto, using(crate::proofs::Runs::full_is))]
fn passes(whole: &KeySet, parts: &Parts) -> bool
    ensures { (kind : Kind)
        → result ≡ nat_lt LIMIT (len (with_key whole.now parts.now kind)) }
{
    let is_full = whole.len() >= KeySet::LIMIT;
    let is_new = whole.kind_at(parts).is_none();
    is_full && is_new
}

// Reads a key behind the one before it, and adds it to the keys of the transaction.
#[tactic(auto, using(crate::proofs::Runs::full_is), unfolding(crate::specs::Reading::whole_key_at))]
fn whole_key_of<'a>(
    before: &Option<Parts>,
    whole: &mut KeySet,
    cursor: Cursor<'a>,
) -> Result<(Parts, Kind, Cursor<'a>), WsFault>
    ensures { Gives (λ x. (((x.0, x.1), (Some x.0, whole.new)), x.2)) result
        (whole_key_at (before.now, whole.old) cursor.entry) }
{
    let at = cursor.at();
    let (parts, kind, rest) = key_of(cursor)?;
    if !is_above(before, &parts) {
        return Err(WsFault::NotCanonical(at));
    }
    if passes(whole, &parts) {
        return Err(WsFault::NotCanonical(at));
    }
    match whole.add(&parts, kind) {
        Ok(()) => {}
        Err(KeyFault::Full) => unreachable!(),
        Err(KeyFault::NoMemory) => return Err(WsFault::NoMemory),
    }
    Ok((parts, kind, rest))
}

fn some_whole_keys_of<'a>(
    alloc: Global,
    whole: &mut KeySet,
    count: u32,
    cursor: Cursor<'a>,
) -> Result<(KeySet, Cursor<'a>), WsFault>
    requires { count ≤ LIMIT }
    ensures { Gives (λ x. ((x.0, whole.new), x.1)) result
        (with_both empty whole.old (each_at whole_key_at count (None, whole.old) cursor.entry)) }
{
    let mut keys = KeySet::new(alloc)?;
    let mut before = None;
    let mut rest = cursor;
    for _ in 0..count {
        let (parts, kind, after) = match whole_key_of(&before, whole, rest) {
            Ok(key) => key,
            Err(fault) => return Err(fault),
        };
        match keys.add(&parts, kind) {
            Ok(()) => {}
            Err(KeyFault::Full) => unreachable!(),
            Err(KeyFault::NoMemory) => return Err(WsFault::NoMemory),
        }
        before = Some(parts);
        rest = after;
    }
    Ok((keys, rest))
}

/// Reads the number of keys, and the keys, and adds them to those of the transaction, which stay
/// few. After a fault some may have been added.
#[tactic(auto, unfolding(crate::specs::Reading::whole_keys_at))]
pub(crate) fn whole_keys_of<'a>(
    alloc: Global,
    whole: &mut KeySet,
    cursor: Cursor<'a>,
) -> Result<(KeySet, Cursor<'a>), WsFault>
    ensures { Gives (λ x. ((x.0, whole.new), x.1)) result (whole_keys_at whole.old cursor.entry) }
{
    let at = cursor.at();
    let (count, rest) = cursor.number32()?;
    if count as usize > KeySet::LIMIT {
        return Err(WsFault::TooMany(at));
    }
    some_whole_keys_of(alloc, whole, count, rest)
}
