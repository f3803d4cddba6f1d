//! The members of a snapshot.
ghost use Rattle.std.specs.Prelude.{◌≡◌};
ghost use Rattle.write_set.specs.Reading.{Gives};
ghost use Rattle.state_snapshot.specs.Reading.{report_fits, with_member, no_members, each_at, member_at, members_at};

use crate::head::Head;
use cert_meaning::{MemberItem, MemberItemList};
use std::alloc::Global;
use write_set::{Cursor, WsFault};

/// What is known of the members that were read.
#[derive(Clone, Copy, Debug)]
pub(crate) struct MembersSoFar {
    /// How many are left.
    pub left: u32,
    /// The least number that the next may have.
    pub least: u64,
    /// Whether a report is the floor.
    pub reached: bool,
}

fn no_members(count: u32) -> MembersSoFar
    ensures { result ≡ no_members count }
{
    MembersSoFar {
        left: count,
        least: 0,
        reached: false,
    }
}

fn report_fits(head: &Head, so_far: &MembersSoFar, report: u64) -> bool
    ensures { result ≡ report_fits head.now so_far.now report }
{
    head.floor <= report
        && report <= head.number
        && (so_far.left > 1 || so_far.reached || report == head.floor)
}

fn with_member(head: &Head, so_far: &MembersSoFar, item: &MemberItem) -> MembersSoFar
    ensures { result ≡ with_member head.now so_far.now item.now }
{
    MembersSoFar {
        left: so_far.left.saturating_sub(1),
        least: u64::from(item.member) + 1,
        reached: so_far.reached || item.report == head.floor,
    }
}

#[tactic(auto, unfolding(crate::specs::Reading::member_at))]
fn member_of<'a>(
    head: &Head,
    so_far: &MembersSoFar,
    cursor: Cursor<'a>,
) -> Result<(MemberItem, Cursor<'a>), WsFault>
    ensures { Gives (λ x. ((x.0, with_member head.now so_far.now x.0), x.1)) result
        (member_at head.now so_far.now cursor.entry) }
{
    let at = cursor.at();
    let (member, rest) = cursor.number32()?;
    if u64::from(member) < so_far.least {
        return Err(WsFault::NotCanonical(at));
    }
    let at = rest.at();
    let (report, rest) = rest.number64()?;
    if !report_fits(head, so_far, report) {
        return Err(WsFault::NotCanonical(at));
    }
    let (serial, rest) = rest.number64()?;
    let item = MemberItem {
        member,
        report,
        serial,
    };
    Ok((item, rest))
}

fn some_members_of<'a>(
    alloc: Global,
    head: &Head,
    count: u32,
    cursor: Cursor<'a>,
) -> Result<(MemberItemList, Cursor<'a>), WsFault>
    ensures { Gives (λ x. (x.0, x.1)) result
        (each_at (member_at head.now) count (no_members count) cursor.entry) }
{
    let mut members = MemberItemList::new(alloc);
    let mut so_far = no_members(count);
    let mut rest = cursor;
    for _ in 0..count {
        let (item, after) = match member_of(head, &so_far, rest) {
            Ok(member) => member,
            Err(fault) => return Err(fault),
        };
        match members.push(item) {
            Ok(()) => {}
            Err(_) => return Err(WsFault::NoMemory),
        }
        so_far = with_member(head, &so_far, &item);
        rest = after;
    }
    Ok((members, rest))
}

/// Reads the number of members, and the members.
#[tactic(auto, unfolding(crate::specs::Reading::members_at))]
pub(crate) fn members_of<'a>(
    alloc: Global,
    head: &Head,
    cursor: Cursor<'a>,
) -> Result<(MemberItemList, Cursor<'a>), WsFault>
    ensures { Gives (λ x. (x.0, x.1)) result (members_at head.now cursor.entry) }
{
    let (count, rest) = cursor.number32()?;
    some_members_of(alloc, head, count, rest)
}
