ghost use Rattle.std.specs.Prelude.{◌≡◌, ◌≤◌, IfOk};
ghost use Rattle.group_order.specs.Order.{all_but, event_of, up_to};

use crate::{Group, GroupFault};
use order_event::{Event, EventList, MemberList, Message};
use std::alloc::Global;
use std::marker::Model;
use wsrep_base::NoMemory;

/// The group in memory. It never fails.
#[derive(Drop)]
pub struct MemGroup {
    events: EventList,
    /// The version and the members of the last view.
    version: u32,
    members: MemberList,
    /// The greatest member of any view.
    last: u32,
}

impl Model for MemGroup {
    ghost use Rattle.std.specs.Prelude.{List};
    ghost use Rattle.order_event.specs.declared.event.Event.{Event};

    ghost Value = { List Event };

    ghost view = { λ group. group.events };

    ghost use Rattle.std.specs.Prelude.{◌≡◌, ◌≤◌, ◌+◌, length};
    ghost use Rattle.group_order.specs.Order.{last_view, last_member};

    ghost invariant = { λ group.
        (last_view group.events ≡ (group.version, group.members))
        × (last_member group.events ≡ group.last)
        × (group.last ≤ 9 + length group.events) };
}

impl MemGroup {
    ghost use Rattle.group_order.specs.Order.{start_order};

    /// The group at its start: the one event is the view of version 1 with the members 1 to
    /// `members`.
    pub fn new(alloc: Global, members: u32) -> Result<MemGroup, NoMemory>
        requires some { 1 ≤ members }
        requires few { members ≤ 9 }
        ensures order { IfOk result (λ group.
            ⟦<MemGroup as Group>⟧.order group ≡ start_order members) }
        ensures faults { IfOk result (λ group. ⟦<MemGroup as Group>⟧.faults group ≡ 0) }
    {
        let mut events = EventList::new(alloc);
        events.push(Event::View {
            version: 1,
            members: members_to(alloc, members)?,
        })?;
        Ok(MemGroup {
            events,
            version: 1,
            members: members_to(alloc, members)?,
            last: members,
        })
    }
}

impl Group for MemGroup {
    ghost order = { λ group. group };

    ghost faults = { λ _. 0 };

    fn len(&self) -> u64 {
        self.events.len() as u64
    }

    fn event(&mut self, n: u64) -> Result<Option<Event>, GroupFault> {
        if n == 0 || n > self.events.len() as u64 {
            return Ok(None);
        }
        let at = n as usize - 1;
        Ok(Some(self.events.as_slice()[at].copy()?))
    }

    fn order(&mut self, member: u32, message: &Message) -> Result<u64, GroupFault> {
        self.events.push(event_of(member, message)?)?;
        Ok(self.events.len() as u64)
    }

    fn leave(&mut self, member: u32) -> Result<u64, GroupFault> {
        let members = all_but(member, &self.members)?;
        self.events.push(Event::View {
            version: self.version,
            members: members.copy()?,
        })?;
        self.members = members;
        Ok(self.events.len() as u64)
    }

    fn join(&mut self) -> Result<(u64, u32), GroupFault> {
        let member = self.last + 1;
        let mut members = self.members.copy()?;
        members.push(member)?;
        self.events.push(Event::View {
            version: self.version,
            members: members.copy()?,
        })?;
        self.members = members;
        self.last = member;
        Ok((self.events.len() as u64, member))
    }
}

// The members but one.
fn all_but(member: u32, members: &MemberList) -> Result<MemberList, NoMemory>
    ensures { IfOk result (λ others. others ≡ all_but member members.now) }
{
    let others = members.as_slice().iter().copied();
    let others: Vec<u32> = others
        .filter(|other| *other != member)
        .collect(members.alloc())?;
    Ok(MemberList::from(others))
}

// The numbers from 1 to `last`.
fn members_to(alloc: Global, last: u32) -> Result<MemberList, NoMemory>
    ensures { IfOk result (λ members. members ≡ up_to last) }
{
    let mut members = MemberList::new(alloc);
    for before in 0..last {
        members.push(before + 1)?;
    }
    Ok(members)
}

// The event that a message becomes as a member's. The bytes are shared.
fn event_of(member: u32, message: &Message) -> Result<Event, NoMemory>
    ensures { IfOk result (λ event. event ≡ event_of member message.now) }
{
    Ok(match message {
        Message::Write(body) => Event::Write {
            member,
            body: body.clone()?,
        },
        Message::Report(number) => Event::Report {
            member,
            number: *number,
        },
    })
}
