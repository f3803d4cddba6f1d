ghost use Rattle.std.specs.Prelude.{◌≡◌, ◌<◌, ◌+◌, length, OnOk, OnErr};
ghost use Rattle.std.specs.List.{AllByRecursion};
ghost use Rattle.wsrep_base.specs.declared.limits.TheConstants.{NUMBERS_END};

use crate::node::NodeParts;
use order_event::{Event, EventList};
use wsrep_base::NoMemory;

impl NodeParts {
    ghost use Rattle.order_event.specs.Spelling.{HasFewMembers};
    ghost use Rattle.node_core.specs.Taking.{kept, all_kept};

    /// The event is put behind the others of the inbox, and pushed to the ring.
    pub(crate) fn keep_event(&mut self, event: &Event) -> Result<(), NoMemory>
        requires last { self.old.ring.last < NUMBERS_END }
        requires members { HasFewMembers event.now }
        ensures ok { OnOk result (self.new ≡ kept self.old event.now) }
        ensures err { OnErr result (self.new ≡ self.old) }
    {
        let before = self.inbox.len();
        self.inbox.push(event)?;
        match self.ring.push(event) {
            Ok(()) => Ok(()),
            Err(fault) => {
                self.inbox.truncate(before);
                Err(fault)
            }
        }
    }

    /// The events are put behind the others of the inbox, and pushed to the ring.
    pub(crate) fn keep_events(&mut self, events: &EventList) -> Result<(), NoMemory>
        requires last { self.old.ring.last + length events.now < NUMBERS_END }
        requires members { AllByRecursion HasFewMembers events.now }
        ensures ok { OnOk result (self.new ≡ all_kept self.old events.now) }
        ensures err { OnErr result (self.new ≡ self.old) }
    {
        let before = self.inbox.len();
        self.inbox.extend(events)?;
        match self.ring.extend(events) {
            Ok(()) => Ok(()),
            Err(fault) => {
                self.inbox.truncate(before);
                Err(fault)
            }
        }
    }
}
