ghost use Rattle.std.specs.Prelude.{◌≡◌, ◌<◌, ◌^◌, ◌++◌, length, flat_map, IfOk, OnOk};
ghost use Rattle.std.specs.Int.{w32, to_be_bytes};
ghost use Rattle.order_event.specs.declared.event.Event.TheVariants.{Write, View, Report};
ghost use Rattle.order_event.specs.Spelling.{spelling, event_len, HasFewMembers, HasSpelling};

use crate::event::{Event, REPORT_TAG, VIEW_TAG, WRITE_TAG};
use bytes::Bytes;
use std::alloc::Global;
use wsrep_base::{ByteList, NoMemory, put_u32, put_u64};

/// The one spelling of the event.
pub fn encode_event(alloc: Global, e: &Event) -> Result<Bytes, NoMemory>
    requires { HasSpelling e.now }
    ensures { IfOk result (λ bytes. bytes ≡ spelling e.now) }
{
    let out = spelled(alloc, e)?;
    Ok(Bytes::from_vec(out.into_vec())?)
}

fn spelled(alloc: Global, e: &Event) -> Result<ByteList, NoMemory>
    requires { HasSpelling e.now }
    ensures { IfOk result (λ out. out ≡ spelling e.now) }
{
    match e {
        Event::Write { member, body } => spelled_write(alloc, *member, body.as_slice()),
        Event::View { version, members } => spelled_view(alloc, *version, members.as_slice()),
        Event::Report { member, number } => spelled_report(alloc, *member, *number),
    }
}

#[tactic(auto, unfolding(crate::specs::Spelling::spelling))]
fn spelled_write(alloc: Global, member: u32, body: &[u8]) -> Result<ByteList, NoMemory>
    requires { length body.now < 2 ^ 32 }
    ensures { IfOk result (λ out. out ≡ spelling (Write member body.now)) }
{
    let mut out = ByteList::new(alloc);
    out.push(WRITE_TAG)?;
    put_u32(&mut out, member)?;
    put_u32(&mut out, body.len() as u32)?;
    out.extend(body)?;
    Ok(out)
}

#[tactic(auto, unfolding(crate::specs::Spelling::spelling))]
fn spelled_view(alloc: Global, version: u32, members: &[u32]) -> Result<ByteList, NoMemory>
    requires { length members.now < 2 ^ 32 }
    ensures { IfOk result (λ out. out ≡ spelling (View version members.now)) }
{
    let mut out = ByteList::new(alloc);
    out.push(VIEW_TAG)?;
    put_u32(&mut out, version)?;
    put_u32(&mut out, members.len() as u32)?;
    put_members(&mut out, members)?;
    Ok(out)
}

#[tactic(auto, unfolding(crate::specs::Spelling::spelling))]
fn spelled_report(alloc: Global, member: u32, number: u64) -> Result<ByteList, NoMemory>
    ensures { IfOk result (λ out. out ≡ spelling (Report member number)) }
{
    let mut out = ByteList::new(alloc);
    out.push(REPORT_TAG)?;
    put_u32(&mut out, member)?;
    put_u64(&mut out, number)?;
    Ok(out)
}

fn put_members(out: &mut ByteList, members: &[u32]) -> Result<(), NoMemory>
    ensures { OnOk result (out.new ≡ out.old ++ flat_map (to_be_bytes w32) members.now) }
{
    for member in members {
        put_u32(out, *member)?;
    }
    Ok(())
}

/// How many bytes the spelling of the event has.
pub fn event_len(e: &Event) -> u64
    requires { HasFewMembers e.now }
    ensures { result ≡ event_len e.now }
{
    match e {
        Event::Write { body, .. } => 9 + body.len() as u64,
        Event::View { members, .. } => 9 + 4 * members.len() as u64,
        Event::Report { .. } => 13,
    }
}
