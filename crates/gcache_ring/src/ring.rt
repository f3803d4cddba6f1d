ghost use Rattle.std.specs.Prelude.{◌≡◌, ◌+◌, ◌<◌, ◌≤◌, ◌^◌, [], ◌∷◌, ◌++◌, length, drop, IfOk, IsOk, OnOk, OnErr};
ghost use Rattle.std.specs.List.{AllByRecursion};
ghost use Rattle.std.specs.VecDeque.{deque_len, deque_capacity};
ghost use Rattle.order_event.specs.Spelling.{HasFewMembers};
ghost use Rattle.gcache_ring.specs.Held.{room_beside, total, held, empty_ring, with_event, with_events, range_of, copy_of};
ghost use Rattle.gcache_ring.specs.Copies.{Copies};

use crate::fault::CopyFault;
use order_event::{Event, EventList, event_len};
use std::alloc::{AllocError, Global};
use std::collections::VecDeque;
use std::marker::Model;

/// What an entry takes beside the bytes of its event.
const ENTRY: u64 = 24;

/// The youngest events of those pushed: as many as fit its size, in bytes.
#[derive(Drop)]
pub struct Ring {
    // The most that the entries may sum to.
    size: u64,
    // What they sum to.
    used: u64,
    // The number of the youngest event.
    last: u64,
    events: VecDeque<Event>,
}

impl Model for Ring {
    ghost use Rattle.std.specs.Prelude.{◌≡◌, ◌≤◌, length};
    ghost use Rattle.std.specs.List.{AllByRecursion};
    ghost use Rattle.order_event.specs.Spelling.{HasFewMembers};
    ghost use Rattle.gcache_ring.specs.Held.{Ring as Seen, total};

    ghost Value = { Seen };

    ghost view = { λ ring. record {
      size = ring.size;
      last = ring.last;
      events = ring.events.items;
    } };

    ghost invariant = { λ ring. (ring.used ≡ total ring.events.items)
        × (ring.used ≤ ring.size)
        × (length ring.events.items ≤ ring.last)
        × AllByRecursion HasFewMembers ring.events.items };
}

impl Ring {
    /// A ring of so many bytes that holds nothing; the next event pushed is the one behind `at`.
    /// It takes no memory.
    pub fn new(alloc: Global, size: u64, at: u64) -> Result<Ring, AllocError>
        ensures ring { IfOk result (λ ring. ring ≡ empty_ring size at) }
        ensures succeeds { IsOk result }
    {
        Ok(Ring {
            size,
            used: 0,
            last: at,
            events: VecDeque::new(alloc),
        })
    }

    /// From here on it holds nothing; the next event pushed is the one behind `at`. It takes no
    /// memory.
    pub fn restart(&mut self, at: u64)
        ensures { self.new ≡ empty_ring self.old.size at }
    {
        self.events.clear();
        self.used = 0;
        self.last = at;
    }

    /// Pushes the next event. The oldest ones go until the rest fits; one that is larger than the
    /// ring leaves it empty. It costs what is pushed and what goes.
    pub fn push(&mut self, event: &Event) -> Result<(), AllocError>
        requires number { self.old.last + 1 < 2 ^ 64 }
        requires members { HasFewMembers event.now }
        ensures ok { OnOk result (self.new ≡ with_event self.old event.now) }
        ensures err { OnErr result (self.new ≡ self.old) }
    {
        let Some(room) = room_beside(self.size, event) else {
            self.events.clear();
            self.used = 0;
            self.last += 1;
            return Ok(());
        };
        let event = event.copy()?;
        self.events.reserve(1)?;
        self.used = drop_oldest(&mut self.events, self.used, room);
        self.events.push_back_reserved(event);
        self.used += self.size - room;
        self.last += 1;
        Ok(())
    }

    /// Pushes the events one after another, or none of them. It costs what is pushed and what goes.
    pub fn extend(&mut self, events: &EventList) -> Result<(), AllocError>
        requires number { self.old.last + length events.now < 2 ^ 64 }
        requires members { AllByRecursion HasFewMembers events.now }
        ensures ok { OnOk result (self.new ≡ with_events self.old events.now) }
        ensures err { OnErr result (self.new ≡ self.old) }
    {
        let mut more = VecDeque::new(*self.events.allocator());
        copy_all(&mut more, events.as_slice())?;
        self.events.reserve(more.len())?;
        self.used = put_all(&mut self.events, self.used, self.size, more);
        self.last += events.len() as u64;
        Ok(())
    }

    /// The numbers of the oldest and the youngest event that are held. None where none is.
    pub fn range(&self) -> Option<(u64, u64)>
        ensures { result ≡ range_of self.now }
    {
        if self.events.is_empty() {
            return None;
        }
        Some((self.last - self.events.len() as u64 + 1, self.last))
    }

    /// The events from this number on. It costs what is copied; the bytes of write sets are shared.
    pub fn copy(&self, from: u64) -> Result<EventList, CopyFault>
        ensures { Copies result (copy_of self.now from) }
    {
        let Some((oldest, youngest)) = self.range() else {
            return Err(CopyFault::NotHeld(None));
        };
        if from < oldest || youngest < from {
            return Err(CopyFault::NotHeld(Some(oldest)));
        }
        let copied = copied(&self.events, (from - oldest) as usize)?;
        Ok(copied)
    }
}

// What the entry of an event leaves of a size. None where it is larger.
fn room_beside(size: u64, event: &Event) -> Option<u64>
    requires { HasFewMembers event.now }
    ensures { result ≡ room_beside size event.now }
{
    size.checked_sub(ENTRY)?.checked_sub(event_len(event))
}

// Drops the oldest events until the rest fits the limit. Gives what the rest sums to.
fn drop_oldest(events: &mut VecDeque<Event>, used: u64, limit: u64) -> u64
    requires used { used ≡ total events.old.items }
    requires few { AllByRecursion HasFewMembers events.old.items }
    ensures held { events.new.items ≡ held limit events.old.items }
    ensures used { result ≡ total events.new.items }
    ensures few { AllByRecursion HasFewMembers events.new.items }
    ensures fewer { deque_len events.new ≤ deque_len events.old }
    ensures room { deque_capacity events.new ≡ deque_capacity events.old }
{
    let mut left = used;
    while left > limit {
        match events.pop_front() {
            Some(oldest) => left -= ENTRY + event_len(&oldest),
            None => return left,
        }
    }
    left
}

// Copies of the events, in their order, behind what is there.
fn copy_all(copies: &mut VecDeque<Event>, events: &[Event]) -> Result<(), AllocError>
    ensures { OnOk result (copies.new.items ≡ copies.old.items ++ events.now) }
{
    for event in events {
        copies.push_back(event.copy()?)?;
    }
    Ok(())
}

// Pushes the events, for which there is room. Gives what those that are held sum to.
fn put_all(events: &mut VecDeque<Event>, used: u64, size: u64, more: VecDeque<Event>) -> u64
    requires used { used ≡ total events.old.items }
    requires fits { used ≤ size }
    requires few { AllByRecursion HasFewMembers events.old.items }
    requires members { AllByRecursion HasFewMembers more.items }
    requires room { deque_len events.old + deque_len more ≤ deque_capacity events.old }
    ensures held { events.new.items ≡ held size (events.old.items ++ more.items) }
    ensures used { result ≡ total events.new.items }
    ensures fits { result ≤ size }
    ensures few { AllByRecursion HasFewMembers events.new.items }
    ensures fewer { length events.new.items ≤ length events.old.items + length more.items }
{
    let mut sum = used;
    let mut left = more;
    while let Some(event) = left.pop_front() {
        sum = put(events, sum, size, event);
    }
    sum
}

// Pushes one event, for which there is room.
fn put(events: &mut VecDeque<Event>, used: u64, size: u64, event: Event) -> u64
    requires used { used ≡ total events.old.items }
    requires fits { used ≤ size }
    requires few { AllByRecursion HasFewMembers events.old.items }
    requires members { HasFewMembers event }
    requires room { deque_len events.old < deque_capacity events.old }
    ensures held { events.new.items ≡ held size (events.old.items ++ event ∷ []) }
    ensures used { result ≡ total events.new.items }
    ensures fits { result ≤ size }
    ensures few { AllByRecursion HasFewMembers events.new.items }
    ensures fewer { deque_len events.new ≤ deque_len events.old + 1 }
    ensures room { deque_capacity events.new ≡ deque_capacity events.old }
{
    let Some(room) = room_beside(size, &event) else {
        events.clear();
        return 0;
    };
    let left = drop_oldest(events, used, room);
    events.push_back_reserved(event);
    left + (size - room)
}

// The events from this index on.
fn copied(events: &VecDeque<Event>, from: usize) -> Result<EventList, AllocError>
    ensures { IfOk result (λ list. list ≡ drop from events.now.items) }
{
    let mut list = EventList::new(*events.allocator());
    for index in from..events.len() {
        list.push(events[index].copy()?)?;
    }
    Ok(list)
}
