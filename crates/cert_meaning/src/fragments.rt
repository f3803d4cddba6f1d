//! The passed fragments of one transaction.

ghost use Rattle.std.specs.Prelude.{◌≡◌, ◌<◌, nat_lt, true, false, Some, IfOk};
ghost use Rattle.finite_map.specs.FiniteMap.{len};
ghost use Rattle.key_sets.specs.Keys.{LIMIT, union};
ghost use Rattle.cert_meaning.specs.Extremes.{greater};
ghost use Rattle.cert_meaning.specs.State.{last_seen_of, whole_keys, whole_ops};
ghost use Rattle.cert_meaning.specs.Verdict.{greatest_touching};
ghost use Rattle.cert_meaning.specs.Whole.{within};

use crate::items::{Fragment, FragmentList};
use key_sets::{KeyFault, KeySet, touches};
use row_model::{Op, OpList};
use std::alloc::{AllocError, Global};
use wsrep_base::NoMemory;

/// The last seen of the last fragment, 0 where there is none.
pub fn last_seen_of(fragments: &[Fragment]) -> u64
    ensures { result ≡ last_seen_of fragments.now }
{
    match fragments.last() {
        Some(fragment) => fragment.last_seen,
        None => 0,
    }
}

/// All keys of a transaction with one more write set. None where they pass what a set may have.
pub(crate) fn whole_keys(
    alloc: Global,
    fragments: &[Fragment],
    keys: &KeySet,
) -> Result<Option<KeySet>, NoMemory>
    ensures { IfOk result (λ whole. whole ≡ within (whole_keys fragments.now keys.now)) }
{
    // A transaction of one write set has its keys, which are few as in every set.
    if fragments.is_empty() && keys.len() <= KeySet::LIMIT {
        return Ok(Some(keys.copy()?));
    }
    let mut whole = KeySet::new(alloc)?;
    for fragment in fragments {
        if !add_all(&mut whole, &fragment.keys)? {
            return Ok(None);
        }
    }
    if !add_all(&mut whole, keys)? {
        return Ok(None);
    }
    Ok(Some(whole))
}

/// Whether a transaction with one more write set has more keys than a set may have.
pub(crate) fn is_too_large(
    alloc: Global,
    fragments: &[Fragment],
    keys: &KeySet,
) -> Result<bool, NoMemory>
    ensures { IfOk result
        (λ large. large ≡ nat_lt LIMIT (len (whole_keys fragments.now keys.now))) }
{
    // The keys of one write set are few as in every set: nothing is joined.
    if fragments.is_empty() && keys.len() <= KeySet::LIMIT {
        return Ok(false);
    }
    let whole = whole_keys(alloc, fragments, keys)?;
    Ok(whole.is_none())
}

/// Adds the keys of the other set. False, with some of them added, where the union passes what a
/// set may have.
pub(crate) fn add_all(all: &mut KeySet, keys: &KeySet) -> Result<bool, NoMemory>
    ensures full { IfOk result (λ fits. fits ≡ false → LIMIT < len (union all.old keys.now)) }
    ensures all { IfOk result (λ fits. fits ≡ true → all.new ≡ union all.old keys.now) }
{
    for (parts, kind) in keys.as_slice() {
        match all.add(parts, *kind) {
            Ok(()) => {}
            Err(KeyFault::Full) => return Ok(false),
            Err(KeyFault::NoMemory) => return Err(AllocError),
        }
    }
    Ok(true)
}

/// All changes of a transaction with one more write set, in order.
pub fn whole_ops(alloc: Global, fragments: &[Fragment], ops: &[Op]) -> Result<OpList, NoMemory>
    ensures { IfOk result (λ whole. whole ≡ whole_ops fragments.now ops.now) }
{
    let mut whole = OpList::new(alloc);
    for fragment in fragments {
        whole.extend(fragment.ops.as_slice())?;
    }
    whole.extend(ops)?;
    Ok(whole)
}

/// The greater of a number that there may be and those of the fragments whose keys touch.
pub(crate) fn greatest_touching(
    so_far: Option<u64>,
    fragments: &[Fragment],
    keys: &KeySet,
) -> Option<u64>
    ensures { result ≡ greater so_far (greatest_touching fragments.now keys.now) }
{
    let mut greatest = so_far;
    for fragment in fragments {
        if touches(&fragment.keys, keys) {
            greatest = greater(greatest, fragment.number);
        }
    }
    greatest
}

// The greater of a number that there may be and another.
fn greater(greatest: Option<u64>, number: u64) -> Option<u64>
    ensures { result ≡ greater greatest (Some number) }
{
    match greatest {
        Some(greatest) => Some(greatest.max(number)),
        None => Some(number),
    }
}

/// The same fragments.
pub(crate) fn copied(alloc: Global, fragments: &[Fragment]) -> Result<FragmentList, NoMemory>
    ensures { IfOk result (λ same. same ≡ fragments.now) }
{
    let mut same = FragmentList::new(alloc);
    for fragment in fragments {
        let keys = fragment.keys.copy()?;
        let ops = fragment.ops.copy()?;
        same.push(Fragment {
            number: fragment.number,
            last_seen: fragment.last_seen,
            keys,
            ops,
        })?;
    }
    Ok(same)
}
