ghost use Rattle.std.specs.Prelude.{◌≡◌, ◌≢◌, ◌≤◌, ◌<◌, ◌+◌, length, IfOk, IfErr, OnOk, IsTrue};
ghost use Rattle.wsrep_base.specs.declared.limits.TheConstants.{MOST_EVENTS};
ghost use Rattle.wsrep_base.specs.StateId.{nil_id};
ghost use Rattle.order_event.specs.Fits.{step_fits};
ghost use Rattle.group_order.specs.Order.{start_order};
ghost use Rattle.node_meaning.specs.Cluster.{start_cluster, cluster_step, will_order};

use crate::fault::StepFault;
use crate::ranges::act_in_range;
use crate::seat::{Seat, join_orders, leave_orders};
use crate::steps::step_at;
use group_order::Group;
use order_event::{Act, Answer, Step};
use row_model::RowList;
use std::alloc::Global;
use std::marker::Model;
use std::vec::IntoIter;
use wsrep_base::{NoMemory, StateId};
use wsrep_watch::Watcher;

/// What a node shows at the end.
#[derive(Drop)]
pub struct NodeEnd {
    /// How far it has committed.
    pub at: u64,
    /// Its committed rows, by table and then by row.
    pub rows: RowList,
}

/// Nodes over one group, each with its watcher, if it has one. They are numbered from 1.
#[derive(Drop)]
pub struct ClusterOf<G: Group, W: Watcher> {
    group: G,
    seats: Vec<Seat<W>>,
}

/// Nodes whose watchers are in boxes.
pub type Cluster<G> = ClusterOf<G, Box<dyn Watcher + Send>>;

impl<G: Group, W: Watcher> Model for ClusterOf<G, W> {
    ghost use Rattle.cluster_core.specs.State.{ClusterState};
    ghost use Rattle.cluster_core.specs.Acts.{AreKept, cluster_of, nodes_of};
    ghost use Rattle.cluster_core.specs.Lawful.{IsLawful};

    ghost Value = { ClusterState };

    ghost view = { λ c.
        record {
          model = record { order = G.order c.group; nodes = nodes_of c.seats.items };
          faults = G.faults c.group;
        } };

    ghost invariant = { λ c. AreKept (G.order c.group) c.seats.items
        × IsLawful (cluster_of (G.order c.group) (nodes_of c.seats.items)) };
}

impl<G: Group, W: Watcher> ClusterOf<G, W> {
    ghost use Rattle.cluster_core.specs.State.{end_at, end_rows};
    ghost use Rattle.node_laws.specs.Given.{given};
    ghost use Rattle.cluster_core.specs.Steps.{has_session, FailedBy, HasGroupCause};

    /// So many nodes at their start, over a group at its start. Watcher i goes to node i; those
    /// beyond the last node are told that they ended at 0, and dropped. Each node holds events that
    /// it took for others that join, in a ring of `gcache` bytes.
    pub fn new(
        alloc: Global,
        group: G,
        id: StateId,
        nodes: u8,
        gcache: u64,
        watch: Vec<W>,
    ) -> Result<ClusterOf<G, W>, NoMemory>
        requires some { 1 ≤ nodes }
        requires few { nodes ≤ 9 }
        requires id { id ≢ nil_id }
        requires ring { gcache ≤ MOST_RING_BYTES }
        requires order { G.order group ≡ start_order nodes }
        ensures start { IfOk result (λ c. c.model ≡ start_cluster nodes gcache id) }
        ensures faults { IfOk result (λ c. c.faults ≡ G.faults group) }
        ensures nodes { IfOk result (λ c. length c.model.nodes ≡ nodes) }
        ensures counts { IfOk result (λ c. given c.model ≡ 1) }
    {
        let seats = seats_of(alloc, id, nodes, gcache, watch)?;
        Ok(ClusterOf { group, seats })
    }

    /// What a step of a node is answered.
    pub fn step(&mut self, step: &Step) -> Result<Answer, StepFault>
        requires node { (1 ≤ step.now.node) × (step.now.node ≤ length self.old.model.nodes) }
        requires session { has_session step.now.act }
        requires names { IsTrue (step_fits step.now) }
        requires events { length self.old.model.order + will_order self.old.model step.now
            ≤ MOST_EVENTS }
        requires counts { given self.old.model < NUMBERS_END }
        ensures ok { IfOk result
            (λ answer. (answer, self.new.model) ≡ cluster_step self.old.model step.now) }
        // It stopped at a step that may come to this fault, and left what was done before it.
        ensures err { IfErr result
            (FailedBy step.now.act step.now.node self.old.model self.new.model) }
        ensures cause { HasGroupCause self.old.faults self.new.faults result }
        // The count is that of a group, so it never rises where no group of the type fails.
        ensures group { (g : G) × (self.new.faults ≡ G.faults g) }
        ensures counts { given self.new.model ≤ given self.old.model + 1 }
        ensures nodes { length self.new.model.nodes ≡ length self.old.model.nodes }
        ensures events { OnOk result
            (length self.new.model.order
            ≡ length self.old.model.order + will_order self.old.model step.now) }
    {
        act_in_range(&step.act);
        let at = usize::from(step.node) - 1;
        step_at(&mut self.seats, at, &mut self.group, &step.act)
    }

    /// How many events were ordered.
    pub fn events(&self) -> u64
        ensures { result ≡ length self.now.model.order }
    {
        self.group.len()
    }

    /// How many events the step is going to order.
    pub fn will_order(&self, step: &Step) -> u64
        requires { (1 ≤ step.now.node) × (step.now.node ≤ length self.now.model.nodes) }
        ensures { result ≡ will_order self.now.model step.now }
    {
        let node = &self.seats[usize::from(step.node) - 1].node;
        let place = node.place();
        match step.act {
            Act::Order => place.outbox.min(1),
            Act::Drain => place.outbox,
            Act::Leave => leave_orders(place.phase),
            Act::Join(_) => join_orders(place.phase, node.taken(), node.committed()),
            _ => 0,
        }
    }

    /// What a node shows at the end.
    pub fn end(&self, node: u8) -> Result<NodeEnd, NoMemory>
        requires { (1 ≤ node) × (node ≤ length self.now.model.nodes) }
        ensures at { IfOk result (λ end. end.at ≡ end_at self.now.model node) }
        ensures rows { IfOk result (λ end. end.rows ≡ end_rows self.now.model node) }
    {
        let node = &self.seats[usize::from(node) - 1].node;
        Ok(NodeEnd {
            at: node.committed(),
            rows: node.rows()?,
        })
    }
}

ghost use Rattle.order_event.specs.declared.event.Event.{Event as Ordered};
ghost use Rattle.std.specs.Prelude.{List, map};
ghost use Rattle.std.specs.List.{AllByRecursion};
ghost use Rattle.wsrep_base.specs.declared.limits.TheConstants.{MOST_RING_BYTES, NUMBERS_END};
ghost use Rattle.group_order.specs.Order.{up_to};
ghost use Rattle.node_meaning.specs.Node.{start_node};
ghost use Rattle.cluster_core.specs.Seated.{IsSeated, seen};
ghost use Rattle.cluster_core.specs.Acts.{nodes_of};

// The seats of so many nodes at their start.
fn seats_of<W: Watcher>(
    alloc: Global,
    id: StateId,
    nodes: u8,
    gcache: u64,
    watch: Vec<W>,
) -> Result<Vec<Seat<W>>, NoMemory>
    requires id { id ≢ nil_id }
    requires ring { gcache ≤ MOST_RING_BYTES }
    ensures nodes { IfOk result
        (λ seats. nodes_of seats.items ≡ map (start_node gcache id) (up_to nodes)) }
    ensures seated { IfOk result
        (λ seats. (order : List Ordered) → AllByRecursion (λ s. IsSeated order (seen s))
        seats.items) }
{
    let mut watchers = watch.into_iter();
    let mut seats = Vec::new(alloc);
    for before in 0..nodes {
        let watcher = watchers.next();
        seats.push(Seat::new(alloc, id, u32::from(before) + 1, gcache, watcher)?)?;
    }
    end_all(watchers);
    Ok(seats)
}

// The watchers that no node has are told that they ended at 0, and dropped.
fn end_all<W: Watcher>(watchers: IntoIter<W>) {
    for mut watcher in watchers {
        watcher.ended(0);
    }
}
