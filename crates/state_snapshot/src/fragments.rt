//! The fragments of an open transaction.
ghost use Rattle.std.specs.Prelude.{◌≤◌, IfOk};
ghost use Rattle.wsrep_base.specs.declared.limits.TheConstants.{MOST_EVENTS};
ghost use Rattle.write_set.specs.Reading.{Gives};
ghost use Rattle.state_snapshot.specs.Reading.{with_fragment, no_fragments, each_at, fragment_at, fragments_at};

use crate::changes::covered_ops_of;
use crate::keys::whole_keys_of;
use cert_meaning::{Fragment, FragmentList};
use key_sets::KeySet;
use std::alloc::Global;
use write_set::{Cursor, WsFault};

// Reads a fragment, and adds its keys to those of the transaction.
#[tactic(auto, unfolding(crate::specs::Reading::fragment_at))]
fn fragment_of<'a>(
    alloc: Global,
    most: u64,
    least: u64,
    last_seen: u64,
    whole: &mut KeySet,
    cursor: Cursor<'a>,
) -> Result<(Fragment, Cursor<'a>), WsFault>
    ensures read { Gives (λ x. ((x.0, with_fragment x.0 whole.new), x.1)) result
        (fragment_at most (record { least = least; last_seen = last_seen; whole = whole.old })
        cursor.entry) }
    ensures number { IfOk result (λ x. x.0.number ≤ most) }
{
    let at = cursor.at();
    let (number, rest) = cursor.number64()?;
    if number < least || number > most {
        return Err(WsFault::NotCanonical(at));
    }
    let at = rest.at();
    let (seen, rest) = rest.number64()?;
    if number <= seen || seen < last_seen {
        return Err(WsFault::NotCanonical(at));
    }
    let (keys, rest) = whole_keys_of(alloc, whole, rest)?;
    let (ops, rest) = covered_ops_of(alloc, &keys, rest)?;
    let fragment = Fragment {
        number,
        last_seen: seen,
        keys,
        ops,
    };
    Ok((fragment, rest))
}

fn some_fragments_of<'a>(
    alloc: Global,
    most: u64,
    count: u32,
    cursor: Cursor<'a>,
) -> Result<(FragmentList, Cursor<'a>), WsFault>
    requires { most ≤ MOST_EVENTS }
    ensures { Gives (λ x. (x.0, x.1)) result
        (each_at (fragment_at most) count no_fragments cursor.entry) }
{
    let mut fragments = FragmentList::new(alloc);
    let mut least = 0;
    let mut last_seen = 0;
    let mut whole = KeySet::new(alloc)?;
    let mut rest = cursor;
    for _ in 0..count {
        let (fragment, after) = match fragment_of(alloc, most, least, last_seen, &mut whole, rest) {
            Ok(fragment) => fragment,
            Err(fault) => return Err(fault),
        };
        least = fragment.number + 1;
        last_seen = fragment.last_seen;
        match fragments.push(fragment) {
            Ok(()) => {}
            Err(_) => return Err(WsFault::NoMemory),
        }
        rest = after;
    }
    Ok((fragments, rest))
}

/// Reads the number of fragments, and the fragments.
#[tactic(auto, unfolding(crate::specs::Reading::fragments_at))]
pub(crate) fn fragments_of<'a>(
    alloc: Global,
    most: u64,
    cursor: Cursor<'a>,
) -> Result<(FragmentList, Cursor<'a>), WsFault>
    requires { most ≤ MOST_EVENTS }
    ensures { Gives (λ x. (x.0, x.1)) result (fragments_at most cursor.entry) }
{
    let at = cursor.at();
    let (count, rest) = cursor.number32()?;
    if count == 0 {
        return Err(WsFault::NotCanonical(at));
    }
    some_fragments_of(alloc, most, count, rest)
}
