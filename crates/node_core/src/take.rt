ghost use Rattle.std.specs.Prelude.{◌≡◌, ◌<◌, ◌+◌, ℕ, List, Some, slice_get, IfOk, OnErr};
ghost use Rattle.std.specs.List.{find};
ghost use Rattle.wsrep_base.specs.declared.limits.TheConstants.{NUMBERS_END};
ghost use Rattle.node_meaning.specs.Node.{is_connected};

use crate::answers::Taken;
use crate::node::NodeParts;
use bytes::Bytes;
use node_meaning::Phase;
use order_event::Event;
use wsrep_base::NoMemory;

impl NodeParts {
    ghost use Rattle.order_event.specs.declared.event.Event.{Event as Ordered};
    ghost use Rattle.order_event.specs.Spelling.{HasFewMembers};
    ghost use Rattle.node_meaning.specs.Steps.{take_step, is_write, is_report, is_this_write};
    ghost use Rattle.node_core.specs.declared.answers.Taken.TheVariants as taken;
    ghost use Rattle.node_core.specs.Answers.{taken_answer};
    ghost use Rattle.node_core.specs.Memory.{TakeWants};
    ghost use Rattle.node_core.specs.Stands.{IsStanding, Stands, DoneOver, Unchanged, plain_of};
    ghost use Rattle.node_parts.specs.Queue.{taken as without_oldest};
    ghost use Rattle.node_core.specs.Taking.{taken_own, took_with};

    /// Takes the next event of the order, which is this one.
    pub(crate) fn take(&mut self, event: &Event) -> Result<Taken, NoMemory>
        requires stands { IsStanding self.old }
        requires number { self.old.at.taken < NUMBERS_END }
        requires members { HasFewMembers event.now }
        ensures ok { IfOk result
            (λ r. (order : List Ordered) → slice_get order self.old.at.taken ≡ Some event.now
            → Stands order self.old
            → DoneOver order (take_step order) self.old self.new (taken_answer r)) }
        ensures split { IfOk result (λ r. (n : ℕ) → r ≡ taken.Split n → n ≡ self.old.at.taken + 1) }
        ensures err { OnErr result (Unchanged self.old self.new) }
        ensures there { OnErr result (TakeWants (plain_of self.old)) }
    {
        if !self.is_connected() {
            return Ok(Taken::Away);
        }
        match event {
            Event::Write { member, body } => {
                if *member == self.at.member {
                    self.take_own(event, body)
                } else {
                    self.take_other(event)
                }
            }
            Event::Report { member, .. } => {
                if *member == self.at.member {
                    self.take_own_report(event)
                } else {
                    self.take_other(event)
                }
            }
            Event::View { .. } => self.take_other(event),
        }
    }

    /// Whether the node is connected.
    pub(crate) fn is_connected(&self) -> bool
        ensures { result ≡ is_connected self.now.at.phase }
    {
        is_connected(self.at.phase)
    }

    // Takes a write set of the node's own member, which is the oldest that it had ordered.
    fn take_own(&mut self, event: &Event, body: &Bytes) -> Result<Taken, NoMemory>
        requires number { self.old.at.taken < NUMBERS_END }
        requires last { self.old.ring.last < NUMBERS_END }
        requires members { HasFewMembers event.now }
        ensures ok { IfOk result
            (λ r. (r, self.new)
            ≡ taken_own
            (is_this_write body.now (find is_write self.old.queue.ordered)) self.old event.now) }
        ensures err { OnErr result (self.new ≡ self.old) }
    {
        if !self.queue.is_next_write(body) {
            return Ok(Taken::Split(self.at.taken + 1));
        }
        self.keep_event(event)?;
        self.queue.take_write();
        Ok(self.took())
    }

    // Takes a report of the node's own member.
    fn take_own_report(&mut self, event: &Event) -> Result<Taken, NoMemory>
        requires number { self.old.at.taken < NUMBERS_END }
        requires last { self.old.ring.last < NUMBERS_END }
        requires members { HasFewMembers event.now }
        ensures ok { IfOk result
            (λ r. (r, self.new)
            ≡ took_with self.old event.now (without_oldest is_report self.old.queue)) }
        ensures err { OnErr result (self.new ≡ self.old) }
    {
        self.keep_event(event)?;
        self.queue.take_report();
        Ok(self.took())
    }

    // Takes an event that the node did not send.
    fn take_other(&mut self, event: &Event) -> Result<Taken, NoMemory>
        requires number { self.old.at.taken < NUMBERS_END }
        requires last { self.old.ring.last < NUMBERS_END }
        requires members { HasFewMembers event.now }
        ensures ok { IfOk result
            (λ r. (r, self.new) ≡ took_with self.old event.now self.old.queue) }
        ensures err { OnErr result (self.new ≡ self.old) }
    {
        self.keep_event(event)?;
        Ok(self.took())
    }

    // One more event is taken.
    fn took(&mut self) -> Taken
        requires { self.old.at.taken < NUMBERS_END }
        ensures answer { result ≡ taken.Took (self.old.at.taken + 1) }
        ensures after { self.new
            ≡ record self.old { at = record self.old.at { taken = self.old.at.taken + 1 } } }
    {
        self.at.taken += 1;
        Taken::Took(self.at.taken)
    }
}

fn is_connected(phase: Phase) -> bool
    ensures { result ≡ is_connected phase }
{
    match phase {
        Phase::Connected => true,
        Phase::Joining | Phase::Left => false,
    }
}
