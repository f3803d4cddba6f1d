ghost use Rattle.std.specs.Prelude.{◌≡◌, ◌<◌, ◌∷◌, ◌++◌, [], length, OnOk, OnErr, take, drop, slice_get};
ghost use Rattle.std.specs.Option.{option_copied};

use order_event::{Event, EventList};
use std::alloc::Global;
use std::collections::VecDeque;
use std::marker::Model;
use wsrep_base::NoMemory;

/// Events that are taken and not certified, oldest first.
#[derive(Drop)]
pub struct Inbox {
    events: VecDeque<Event>,
}

impl Model for Inbox {
    ghost use Rattle.std.specs.Prelude.{List};
    ghost use Rattle.order_event.specs.declared.event.Event.{Event};

    ghost Value = { List Event };

    ghost view = { λ inbox. inbox.events.items };
}

impl Inbox {
    /// No events. It takes no memory.
    pub fn new(alloc: Global) -> Inbox
        ensures { result ≡ [] }
    {
        Inbox {
            events: VecDeque::new(alloc),
        }
    }

    /// Puts a copy of the event behind the others. The bytes of a write set are shared.
    pub fn push(&mut self, event: &Event) -> Result<(), NoMemory>
        ensures ok { OnOk result (self.new ≡ self.old ++ event.now ∷ []) }
        ensures err { OnErr result (self.new ≡ self.old) }
    {
        self.events.push_back(event.copy()?)?;
        Ok(())
    }

    /// Puts copies of the events behind the others, or none of them.
    pub fn extend(&mut self, events: &EventList) -> Result<(), NoMemory>
        ensures ok { OnOk result (self.new ≡ self.old ++ events.now) }
        ensures err { OnErr result (self.new ≡ self.old) }
    {
        let before = self.events.len();
        match copy_all(&mut self.events, events.as_slice()) {
            Ok(()) => Ok(()),
            Err(fault) => {
                self.events.truncate(before);
                Err(fault)
            }
        }
    }

    /// How many events it has.
    pub fn len(&self) -> usize
        ensures { result ≡ length self.now }
    {
        self.events.len()
    }

    /// Keeps so many of the oldest events, or all where there are fewer.
    pub fn truncate(&mut self, count: usize)
        ensures { self.new ≡ take count self.old }
    {
        self.events.truncate(count);
    }

    /// The oldest event.
    pub fn first(&self) -> Option<&Event>
        ensures { option_copied result ≡ slice_get self.now 0 }
    {
        self.events.front()
    }

    /// Takes the oldest event out.
    pub fn drop_first(&mut self)
        requires { 0 < length self.old }
        ensures { self.new ≡ drop 1 self.old }
    {
        self.events.pop_front();
    }
}

// Puts copies of the events behind the others; where memory runs out, some of them.
fn copy_all(copies: &mut VecDeque<Event>, events: &[Event]) -> Result<(), NoMemory>
    ensures ok { OnOk result (copies.new.items ≡ copies.old.items ++ events.now) }
    ensures err { OnErr result
        (take (length copies.old.items) copies.new.items ≡ copies.old.items) }
{
    for event in events {
        copies.push_back(event.copy()?)?;
    }
    Ok(())
}
