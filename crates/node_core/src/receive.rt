ghost use Rattle.std.specs.Prelude.{◌≡◌, ◌≤◌, length, IfOk, IfErr, OnErr, true};
ghost use Rattle.finite_map.specs.FiniteMap.{empty};
ghost use Rattle.cert_meaning.specs.Parts.{rows_of};
ghost use Rattle.node_core.specs.Joining.{IsFaultOf, has_installed};
ghost use Rattle.node_core.specs.declared.gift.Gift.TheVariants as given;

use crate::gift::{Gift, ReceiveFault};
use crate::node::NodeParts;
use bytes::Bytes;
use certification::Certification;
use node_meaning::Phase;
use order_event::EventList;
use row_model::RowItem;
use state_snapshot::{SnapFault, install};
use std::alloc::Global;
use undo_rows::{Overlay, Rows};
use wsrep_base::{NoMemory, StateId};

impl NodeParts {
    ghost use Rattle.node_meaning.specs.Node.{is_joining};
    ghost use Rattle.node_meaning.specs.Joining.{IsAtRest};
    ghost use Rattle.node_core.specs.Joining.{GiftFits, EventsFit, Received, TookEvents, TookSnapshot};
    ghost use Rattle.node_core.specs.Stands.{IsStanding, Unchanged, plain_of};

    /// Takes what another node gave, and is connected. It gives the last number that was taken.
    pub(crate) fn receive(&mut self, gift: &Gift) -> Result<u64, ReceiveFault>
        requires stands { IsStanding self.old }
        requires joining { is_joining self.old.at.phase ≡ true }
        requires rests { IsAtRest (plain_of self.old) }
        requires fits { GiftFits gift.now (plain_of self.old) }
        ensures ok { IfOk result (λ last. Received gift.now self.old self.new last) }
        ensures err { OnErr result (Unchanged self.old self.new) }
        ensures fault { IfErr result (λ fault. IsFaultOf gift.now fault) }
    {
        match gift {
            Gift::Ist(events) => Ok(self.take_events(events)?),
            Gift::Sst(bytes) => self.take_snapshot(bytes),
        }
    }

    // Takes all the events at once.
    fn take_events(&mut self, events: &EventList) -> Result<u64, NoMemory>
        requires stands { IsStanding self.old }
        requires rests { IsAtRest (plain_of self.old) }
        requires fits { EventsFit events.now (plain_of self.old) }
        ensures ok { IfOk result (λ last. TookEvents events.now self.old self.new last) }
        ensures err { OnErr result (self.new ≡ self.old) }
    {
        self.keep_events(events)?;
        self.at.phase = Phase::Connected;
        self.at.taken += events.len() as u64;
        Ok(self.at.taken)
    }

    // Takes the state that the bytes spell.
    fn take_snapshot(&mut self, bytes: &Bytes) -> Result<u64, ReceiveFault>
        requires stands { IsStanding self.old }
        requires rests { IsAtRest (plain_of self.old) }
        ensures ok { IfOk result (λ last. TookSnapshot bytes.now self.old self.new last) }
        ensures err { OnErr result (self.new ≡ self.old) }
        ensures fault { IfErr result (λ fault. IsFaultOf (given.Sst bytes.now) fault) }
    {
        let (state, id) = match install(self.alloc, bytes.as_slice()) {
            Ok(installed) => installed,
            Err(SnapFault::NoMemory) => return Err(ReceiveFault::NoMemory),
            Err(fault) => return Err(ReceiveFault::Snap(fault)),
        };
        let parts = state.parts()?;
        let number = parts.number;
        let rows = rows_of(self.alloc, parts.rows.as_slice(), self.units.room())?;
        let certification = Certification::installed(self.alloc, parts)?;
        self.install(number, id, rows, certification);
        Ok(number)
    }

    // The node is connected, and has committed up to this number; its ring is empty.
    fn install(&mut self, number: u64, id: StateId, rows: Overlay, certification: Certification)
        ensures { self.new ≡ has_installed self.old number id rows certification }
    {
        self.certification = certification;
        self.rows = rows;
        self.ring.restart(number);
        self.since = number;
        self.id = id;
        self.at.phase = Phase::Connected;
        self.at.taken = number;
        self.at.certified = number;
        self.at.committed = number;
    }
}

// Rows as committed ones, with room for so many that are put.
fn rows_of(alloc: Global, items: &[RowItem], room: usize) -> Result<Overlay, NoMemory>
    ensures committed { IfOk result (λ rows. rows.committed ≡ rows_of items.now) }
    ensures changes { IfOk result (λ rows. rows.changes ≡ empty) }
    ensures spare { IfOk result (λ rows. room ≤ rows.spare) }
{
    let mut rows = Overlay::new(alloc)?;
    rows.reserve(items.len())?;
    put_rows(&mut rows, items);
    rows.reserve(room)?;
    Ok(rows)
}

// The rows become committed ones, where there is none yet, there is room, and nothing has changed.
fn put_rows(rows: &mut Overlay, items: &[RowItem])
    requires room { length items.now ≤ rows.old.spare }
    requires none { rows.old.committed ≡ empty }
    requires free { rows.old.changes ≡ empty }
    ensures committed { rows.new.committed ≡ rows_of items.now }
    ensures changes { rows.new.changes ≡ empty }
{
    for item in items.iter().rev() {
        rows.put(&item.id, Some(item.row));
    }
}
