//! The open transactions of a snapshot.
ghost use Rattle.std.specs.Prelude.{◌≡◌, ◌≤◌, nat_eq, map, None, Some, IfOk};
ghost use Rattle.std.specs.HashSet.{IsFromIterResult};
ghost use Rattle.wsrep_base.specs.declared.limits.TheConstants.{MOST_EVENTS};
ghost use Rattle.write_set.specs.Reading.{Gives};
ghost use Rattle.state_snapshot.specs.Reading.{is_member_from, is_trx_above, each_at, open_at, open_trx_at};

use crate::fragments::fragments_of;
use cert_meaning::{MemberItem, OpenItem, OpenList};
use std::alloc::{AllocError, Global};
use std::cmp::Ordering;
use std::collections::HashSet;
use write_set::{Cursor, WsFault};
use wsrep_base::TrxId;

// The numbers of the members.
fn numbers_of(alloc: Global, members: &[MemberItem]) -> Result<HashSet<u32>, AllocError>
    ensures { IfOk result (IsFromIterResult nat_eq (map (λ item. item.member) members.now)) }
{
    members.iter().map(|item| item.member).collect(alloc)
}

fn is_member_from(last: &Option<TrxId>, member: u32) -> bool
    ensures { result ≡ is_member_from last.now member }
{
    match last {
        Some(last) => last.member <= member,
        None => true,
    }
}

fn is_trx_above(last: &Option<TrxId>, trx: &TrxId) -> bool
    ensures { result ≡ is_trx_above last.now trx.now }
{
    match last {
        Some(last) => matches!(last.cmp(trx), Ordering::Less),
        None => true,
    }
}

// Reads an open transaction behind the last one.
#[tactic(auto, unfolding(crate::specs::Reading::open_at))]
fn open_of<'a>(
    alloc: Global,
    most: u64,
    members: &[MemberItem],
    numbers: &HashSet<u32>,
    last: &Option<TrxId>,
    cursor: Cursor<'a>,
) -> Result<(OpenItem, Cursor<'a>), WsFault>
    requires most { most ≤ MOST_EVENTS }
    requires numbers { IsFromIterResult nat_eq (map (λ item. item.member) members.now) numbers.now }
    ensures { Gives (λ x. ((x.0, Some x.0.trx), x.1)) result
        (open_at most members.now last.now cursor.entry) }
{
    let at = cursor.at();
    let (member, rest) = cursor.number32()?;
    if !numbers.contains(&member) || !is_member_from(last, member) {
        return Err(WsFault::NotCanonical(at));
    }
    let at = rest.at();
    let (begin, rest) = rest.number64()?;
    let trx = TrxId { member, begin };
    if !is_trx_above(last, &trx) {
        return Err(WsFault::NotCanonical(at));
    }
    let (fragments, rest) = fragments_of(alloc, most, rest)?;
    Ok((OpenItem { trx, fragments }, rest))
}

fn some_open_of<'a>(
    alloc: Global,
    most: u64,
    members: &[MemberItem],
    count: u32,
    cursor: Cursor<'a>,
) -> Result<(OpenList, Cursor<'a>), WsFault>
    requires { most ≤ MOST_EVENTS }
    ensures { Gives (λ x. (x.0, x.1)) result
        (each_at (open_at most members.now) count None cursor.entry) }
{
    let numbers = numbers_of(alloc, members)?;
    let mut open_trx = OpenList::new(alloc);
    let mut last = None;
    let mut rest = cursor;
    for _ in 0..count {
        let (item, after) = match open_of(alloc, most, members, &numbers, &last, rest) {
            Ok(item) => item,
            Err(fault) => return Err(fault),
        };
        last = Some(item.trx);
        match open_trx.push(item) {
            Ok(()) => {}
            Err(_) => return Err(WsFault::NoMemory),
        }
        rest = after;
    }
    Ok((open_trx, rest))
}

/// Reads the number of open transactions, and the transactions.
#[tactic(auto, unfolding(crate::specs::Reading::open_trx_at))]
pub(crate) fn open_trx_of<'a>(
    alloc: Global,
    most: u64,
    members: &[MemberItem],
    cursor: Cursor<'a>,
) -> Result<(OpenList, Cursor<'a>), WsFault>
    requires { most ≤ MOST_EVENTS }
    ensures { Gives (λ x. (x.0, x.1)) result (open_trx_at most members.now cursor.entry) }
{
    let (count, rest) = cursor.number32()?;
    some_open_of(alloc, most, members, count, rest)
}
