ghost use Rattle.std.specs.Prelude.{◌≡◌, ℕ, ◌<◌, List, [], ◌∷◌, ◌++◌, length, IsSome, IfOk, IfErr, OnOk, OnErr};
ghost use Rattle.wsrep_base.specs.declared.limits.TheConstants.{MOST_EVENTS};
ghost use Rattle.order_event.specs.declared.event.Event.{Event};
ghost use Rattle.group_order.specs.Order.{event_at, event_of, view_without, view_with, new_member};
ghost use Rattle.group_order.specs.Causes.{HasCause, AtNoMemory};

use crate::GroupFault;
use order_event::{Event, Message};

/// A group of members that share one order of events, numbered from 1. The order only grows.
pub trait Group: Drop {
    /// The events that were ordered so far.
    ghost order: { Self → List Event };

    /// How often a call has failed.
    ghost faults: { Self → ℕ };

    /// How many events there are.
    fn len(&self) -> u64
        ensures { result ≡ length (order self.now) };

    /// The event with this number. None exactly where there is none, which takes no memory.
    fn event(&mut self, n: u64) -> Result<Option<Event>, GroupFault>
        ensures ok { IfOk result (λ event. event ≡ event_at (order self.old) n) }
        ensures order { order self.new ≡ order self.old }
        ensures cause { HasCause (faults self.old) (faults self.new) result }
        ensures memory { IfErr result (AtNoMemory (IsSome (event_at (order self.old) n))) };

    /// Orders the message as that member's, behind all events, and gives its number. After a fault
    /// the order is the same.
    fn order(&mut self, member: u32, message: &Message) -> Result<u64, GroupFault>
        requires { length (order self.old) < MOST_EVENTS }
        ensures ok { OnOk result
            (order self.new ≡ order self.old ++ event_of member message.now ∷ []) }
        ensures number { IfOk result (λ number. number ≡ length (order self.new)) }
        ensures err { OnErr result (order self.new ≡ order self.old) }
        ensures cause { HasCause (faults self.old) (faults self.new) result };

    /// Appends the last view without the member, and gives its number. After a fault the order is
    /// the same.
    fn leave(&mut self, member: u32) -> Result<u64, GroupFault>
        requires { length (order self.old) < MOST_EVENTS }
        ensures ok { OnOk result
            (order self.new ≡ order self.old ++ view_without (order self.old) member ∷ []) }
        ensures number { IfOk result (λ number. number ≡ length (order self.new)) }
        ensures err { OnErr result (order self.new ≡ order self.old) }
        ensures cause { HasCause (faults self.old) (faults self.new) result };

    /// Appends the last view with a new member behind its members, and gives the view's number and
    /// the member's, which no view had before. After a fault the order is the same.
    fn join(&mut self) -> Result<(u64, u32), GroupFault>
        requires { length (order self.old) < MOST_EVENTS }
        ensures ok { OnOk result
            (order self.new
            ≡ order self.old ++ view_with (order self.old) (new_member (order self.old)) ∷ []) }
        ensures number { IfOk result (λ joined. joined.0 ≡ length (order self.new)) }
        ensures member { IfOk result (λ joined. joined.1 ≡ new_member (order self.old)) }
        ensures err { OnErr result (order self.new ≡ order self.old) }
        ensures cause { HasCause (faults self.old) (faults self.new) result };
}
