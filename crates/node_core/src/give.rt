ghost use Rattle.std.specs.Prelude.{◌≡◌, ◌≤◌, List, true, Ok, IfOk};
ghost use Rattle.order_event.specs.declared.event.Event.{Event as Ordered};
ghost use Rattle.gcache_ring.specs.Held.{range_of, copy_of};
ghost use Rattle.node_core.specs.Giving.{is_in};

use crate::gift::{Gift, GiveFault};
use crate::node::NodeParts;
use crate::ranges::id_in_range;
use cert_meaning::FoldState;
use gcache_ring::CopyFault;
use order_event::EventList;
use state_snapshot::take;
use std::alloc::AllocError;
use undo_rows::Rows;
use wsrep_base::NoMemory;

impl NodeParts {
    ghost use Rattle.wsrep_base.specs.declared.limits.TheConstants.{MOST_EVENTS};
    ghost use Rattle.cert_meaning.specs.Fold.{state_at};
    ghost use Rattle.cert_meaning.specs.Parts.{trim};
    ghost use Rattle.node_meaning.specs.Node.{is_connected};
    ghost use Rattle.node_core.specs.Giving.{CanGive, Gives};
    ghost use Rattle.node_core.specs.Stands.{IsStanding, Stands, plain_of};

    /// What a node that joins misses from this number on: the events, exactly where `same` holds
    /// and the ring has that number; else a snapshot of what is committed, if that is all that is
    /// certified.
    pub(crate) fn give(&self, from: u64, same: bool) -> Result<Gift, GiveFault>
        requires stands { CanGive self.now }
        requires connected { is_connected self.now.at.phase ≡ true }
        requires few { self.now.at.taken ≤ MOST_EVENTS }
        ensures { (order : List Ordered) → Stands order self.now
            → Gives order (plain_of self.now) from same result }
    {
        if same && is_in(self.ring.range(), from) {
            return Ok(Gift::Ist(self.events_from(from)?));
        }
        let at = &self.at;
        if at.certified != at.committed {
            return Err(GiveFault::Busy(at.certified, at.committed));
        }
        id_in_range(&self.id);
        let state = self.committed_state()?;
        Ok(Gift::Sst(take(&state, self.id)?))
    }

    // The state at what is committed, if that is all that is certified. Commits may be missing
    // against which no later write set is tested.
    fn committed_state(&self) -> Result<FoldState, NoMemory>
        requires stands { IsStanding self.now }
        requires all { self.now.at.certified ≡ self.now.at.committed }
        ensures { IfOk result (λ state. (order : List Ordered) → Stands order self.now
            → trim state ≡ trim (state_at order self.now.at.committed)) }
    {
        let mut parts = self.certification.parts()?;
        parts.rows = self.rows.walk()?;
        FoldState::of(self.alloc, parts)
    }

    // The events of the ring from a number that it has.
    fn events_from(&self, from: u64) -> Result<EventList, NoMemory>
        requires { is_in (range_of self.now.ring) from ≡ true }
        ensures { IfOk result (λ events. copy_of self.now.ring from ≡ Ok events) }
    {
        match self.ring.copy(from) {
            Ok(events) => Ok(events),
            Err(CopyFault::NoMemory) => Err(AllocError),
            Err(CopyFault::NotHeld(_)) => unreachable!(),
        }
    }
}

// Whether a number is in the range, where there is one.
fn is_in(range: Option<(u64, u64)>, number: u64) -> bool
    ensures { result ≡ is_in range number }
{
    match range {
        Some((oldest, youngest)) => oldest <= number && number <= youngest,
        None => false,
    }
}
