//! A group in memory, one call of which fails.
ghost use Rattle.std.specs.Prelude.{◌≡◌, ◌<◌, true, false};

use group_order::{Group, GroupFault, MemGroup};
use order_event::{Event, Message};

#[derive(Drop)]
pub(crate) struct FailingGroup {
    group: MemGroup,
    // The number of the call that fails, counted from 1.
    failing: u64,
    calls: u64,
    faults: u64,
}

impl FailingGroup {
    pub(crate) fn new(group: MemGroup, failing: u64) -> FailingGroup
        ensures { (result.group ≡ group) × (result.faults ≡ 0) }
    {
        FailingGroup {
            group,
            failing,
            calls: 0,
            faults: 0,
        }
    }

    // Whether this call is the one that fails.
    fn fails(&mut self) -> bool
        ensures order { self.new.group ≡ self.old.group }
        ensures fails { result ≡ true → self.old.faults < self.new.faults }
        ensures goes_on { result ≡ false → self.new.faults ≡ self.old.faults }
    {
        self.calls = self.calls.saturating_add(1);
        if self.faults < u64::MAX && self.calls == self.failing {
            self.faults += 1;
            return true;
        }
        false
    }
}

#[tactic(auto, using(crate::proofs::Causes::cause_stays))]
impl Group for FailingGroup {
    ghost order = { λ group. group.group };

    ghost faults = { λ group. group.faults };

    fn len(&self) -> u64 {
        self.group.len()
    }

    fn event(&mut self, n: u64) -> Result<Option<Event>, GroupFault> {
        if self.fails() {
            return Err(GroupFault::Failed);
        }
        self.group.event(n)
    }

    fn order(&mut self, member: u32, message: &Message) -> Result<u64, GroupFault> {
        if self.fails() {
            return Err(GroupFault::Failed);
        }
        self.group.order(member, message)
    }

    fn leave(&mut self, member: u32) -> Result<u64, GroupFault> {
        if self.fails() {
            return Err(GroupFault::Failed);
        }
        self.group.leave(member)
    }

    fn join(&mut self) -> Result<(u64, u32), GroupFault> {
        if self.fails() {
            return Err(GroupFault::Failed);
        }
        self.group.join()
    }
}
