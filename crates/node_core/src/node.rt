ghost use Rattle.std.specs.Prelude.{◌≡◌, ◌≢◌, ◌≤◌, ◌<◌, List, length, IfOk};
ghost use Rattle.wsrep_base.specs.declared.limits.TheConstants.{MOST_RING_BYTES};

use certification::Certification;
use client_trx::Trx;
use gcache_ring::Ring;
use node_meaning::{Phase, Progress};
use node_parts::{Inbox, Queue, Slots, Units};
use row_locks::LockTable;
use row_model::Reply;
use std::alloc::Global;
use undo_rows::Overlay;
use wsrep_base::{NoMemory, StateId};

/// What a node is but for its watcher. Each part has its own contract; what it stands for as a
/// whole is told over an order. Its calls are those of a node.
#[derive(Drop)]
pub struct NodeParts {
    pub(crate) alloc: Global,
    pub(crate) at: Progress,
    pub(crate) id: StateId,
    /// Live transactions and waiting answers, by session.
    pub(crate) live: Slots<Trx>,
    pub(crate) waiting: Slots<Reply>,
    /// What it sent and did not take yet.
    pub(crate) queue: Queue,
    /// What it took and did not certify yet.
    pub(crate) inbox: Inbox,
    pub(crate) certification: Certification,
    pub(crate) units: Units,
    pub(crate) locks: LockTable,
    pub(crate) rows: Overlay,
    /// The youngest events that it took since its start or its last snapshot.
    pub(crate) ring: Ring,
    /// The number of the snapshot that it took last; 0 where it took none.
    pub(crate) since: u64,
}

impl NodeParts {
    ghost use Rattle.wsrep_base.specs.StateId.{nil_id};
    ghost use Rattle.order_event.specs.declared.event.Event.{Event};
    ghost use Rattle.node_meaning.specs.Node.{start_node};
    ghost use Rattle.node_meaning.specs.Steps.{sent_out};
    ghost use Rattle.node_core.specs.Stands.{Stands, Does, quietly, plain_of};

    /// At its start, connected, with a ring of so many bytes.
    pub(crate) fn new(
        alloc: Global,
        id: StateId,
        member: u32,
        gcache: u64,
    ) -> Result<NodeParts, NoMemory>
        requires id { id ≢ nil_id }
        requires ring { gcache ≤ MOST_RING_BYTES }
        ensures start { IfOk result (λ node. plain_of node ≡ start_node gcache id member) }
        ensures stands { IfOk result (λ node. (order : List Event) → Stands order node) }
    {
        Ok(NodeParts {
            alloc,
            at: Progress {
                phase: Phase::Connected,
                member,
                view: 1,
                taken: 0,
                certified: 0,
                committed: 0,
                serial: 1,
                begin: 1,
            },
            id,
            live: Slots::new(alloc)?,
            waiting: Slots::new(alloc)?,
            queue: Queue::new(alloc),
            inbox: Inbox::new(alloc),
            certification: Certification::new(alloc)?,
            units: Units::new(alloc),
            locks: LockTable::new(alloc)?,
            rows: Overlay::new(alloc)?,
            ring: Ring::new(alloc, gcache, 0)?,
            since: 0,
        })
    }

    /// The oldest message that waits is ordered.
    pub(crate) fn sent_out(&mut self)
        requires { 0 < length self.old.queue.outbox }
        ensures { Does (quietly sent_out) self.old self.new tt }
    {
        self.queue.sent_out();
    }
}
