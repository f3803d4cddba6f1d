ghost use Rattle.std.specs.Prelude.{◌≡◌, None, IfOk, Ok};
ghost use Rattle.wsrep_base.specs.Reading.{Reads};
ghost use Rattle.order_event.specs.declared.event.Event.{Event};
ghost use Rattle.order_event.specs.Spelling.{is_above, spelling, HasSpelling, FitsTypes};
ghost use Rattle.order_event.specs.Reading.{Gives, member_at, members_at, write_at, view_at, report_at, event_at, read};

use crate::event::{Event, MemberList, REPORT_TAG, VIEW_TAG, WRITE_TAG};
use crate::fault::{Cursor, EventFault};
use bytes::Bytes;
use std::alloc::Global;

/// The event that the bytes spell, all of them.
pub fn decode_event(alloc: Global, bytes: &[u8]) -> Result<Event, EventFault>
    // What is read is spelled so.
    ensures found { IfOk result (λ e. HasSpelling e × (bytes.now ≡ spelling e)) }
    // What is spelled so is read, unless memory runs out.
    ensures only { (e : Event) → FitsTypes e → HasSpelling e → bytes.now ≡ spelling e
        → Gives (λ x. x) result (Ok e) }
    // A fault is the first one.
    ensures exact { Gives (λ e. e) result (read bytes.now) }
{
    whole(alloc, bytes)
}

#[tactic(auto, unfolding(crate::specs::Reading::read))]
fn whole(alloc: Global, bytes: &[u8]) -> Result<Event, EventFault>
    ensures { Gives (λ e. e) result (read bytes.now) }
{
    let (event, rest) = front(alloc, Cursor::new(bytes, 0))?;
    if !rest.is_at_end() {
        return Err(EventFault::Trailing(rest.at()));
    }
    Ok(event)
}

// The event at the front, and the place behind it.
#[tactic(auto, unfolding(crate::specs::Reading::event_at))]
fn front<'a>(alloc: Global, cursor: Cursor<'a>) -> Result<(Event, Cursor<'a>), EventFault>
    ensures { Gives (λ x. (x.0, x.1)) result (event_at cursor.entry) }
{
    let (tag, rest) = cursor.number8()?;
    match tag {
        WRITE_TAG => write_set(alloc, rest),
        VIEW_TAG => view(alloc, rest),
        REPORT_TAG => report(rest),
        _ => Err(EventFault::BadTag),
    }
}

#[tactic(auto, unfolding(crate::specs::Reading::write_at))]
fn write_set<'a>(alloc: Global, cursor: Cursor<'a>) -> Result<(Event, Cursor<'a>), EventFault>
    ensures { Gives (λ x. (x.0, x.1)) result (write_at cursor.entry) }
{
    let (member, rest) = cursor.number32()?;
    let (count, rest) = rest.number32()?;
    let (body, rest) = rest.bytes(count as usize)?;
    let body = Bytes::copy_from_slice(alloc, body)?;
    Ok((Event::Write { member, body }, rest))
}

#[tactic(auto, unfolding(crate::specs::Reading::view_at))]
fn view<'a>(alloc: Global, cursor: Cursor<'a>) -> Result<(Event, Cursor<'a>), EventFault>
    ensures { Gives (λ x. (x.0, x.1)) result (view_at cursor.entry) }
{
    let (version, rest) = cursor.number32()?;
    let (count, rest) = rest.number32()?;
    let (members, rest) = members(alloc, count, rest)?;
    Ok((Event::View { version, members }, rest))
}

#[tactic(auto, unfolding(crate::specs::Reading::report_at))]
fn report<'a>(cursor: Cursor<'a>) -> Result<(Event, Cursor<'a>), EventFault>
    ensures { Gives (λ x. (x.0, x.1)) result (report_at cursor.entry) }
{
    let (member, rest) = cursor.number32()?;
    let (number, rest) = rest.number64()?;
    Ok((Event::Report { member, number }, rest))
}

// So many members, each above the one before it.
fn members<'a>(
    alloc: Global,
    count: u32,
    cursor: Cursor<'a>,
) -> Result<(MemberList, Cursor<'a>), EventFault>
    ensures { Gives (λ x. (x.0, x.1)) result (members_at count None cursor.entry) }
{
    let mut members = MemberList::new(alloc);
    let mut before = None;
    let mut rest = cursor;
    for _ in 0..count {
        let (member, after) = match one_member(before, rest) {
            Ok(read) => read,
            Err(fault) => return Err(fault),
        };
        members.push(member)?;
        before = Some(member);
        rest = after;
    }
    Ok((members, rest))
}

#[tactic(auto, unfolding(crate::specs::Reading::member_at))]
fn one_member<'a>(before: Option<u32>, cursor: Cursor<'a>) -> Result<(u32, Cursor<'a>), EventFault>
    ensures { Reads (λ x. (x.0, x.1)) result (member_at before cursor.entry) }
{
    let at = cursor.at();
    let (member, rest) = cursor.number32()?;
    if !rises(before, member) {
        return Err(EventFault::NotCanonical(at));
    }
    Ok((member, rest))
}

fn rises(before: Option<u32>, member: u32) -> bool
    ensures { result ≡ is_above before member }
{
    match before {
        None => true,
        Some(before) => before < member,
    }
}
