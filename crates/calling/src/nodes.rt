//! Two nodes over a group in memory, and what a step of theirs is answered.
ghost use Rattle.std.specs.Prelude.{◌≡◌, ◌≤◌, ◌<◌, ◌+◌, ◌^◌, length, IfOk, OnOk, IsTrue};
ghost use Rattle.order_event.specs.Fits.{act_fits};
ghost use Rattle.node_laws.specs.Given.{given};
ghost use Rattle.cluster_core.specs.Steps.{has_session};

use crate::teller::Teller;
use anyhow::{Result, bail};
use cluster_core::ClusterOf;
use group_order::MemGroup;
use order_event::{Act, Answer, Step};
use std::alloc::Global;
use wsrep_base::StateId;

// The id of the state that the nodes begin with. It is not nil.
const ID: [u8; 16] = [0, 0, 0, 0, 0, 0, 0, 0, 0, 0, 0, 0, 0, 0, 0, 161];

/// Nodes that tellers watch.
pub(crate) type Nodes = ClusterOf<MemGroup, Teller>;

/// The nodes at their start; the first watcher is that of node 1.
pub(crate) fn open(alloc: Global, watch: Vec<Teller>) -> Result<Nodes>
    ensures nodes { IfOk result (λ c. length c.model.nodes ≡ 2) }
    ensures counts { IfOk result (λ c. given c.model ≡ 1) }
{
    let group = MemGroup::new(alloc, 2)?;
    Ok(ClusterOf::new(alloc, group, StateId::of_bytes(ID), 2, 0, watch)?)
}

/// What a step of a node is answered. These are the conditions of `Cluster::step`: nodes, sessions
/// and names that there may be, and numbers that do not run out.
pub(crate) fn step(cluster: &mut Nodes, node: u8, act: Act) -> Result<Answer>
    requires nodes { length cluster.old.model.nodes ≡ 2 }
    requires node { (1 ≤ node) × (node ≤ 2) }
    requires session { has_session act }
    requires names { IsTrue (act_fits act) }
    requires counts { given cluster.old.model < 1000 }
    ensures nodes { length cluster.new.model.nodes ≡ 2 }
    ensures counts { given cluster.new.model ≤ given cluster.old.model + 1 }
{
    let step = Step { node, act };
    if cluster.events() > 1000 || cluster.will_order(&step) > 1000 {
        bail!("there are too many events");
    }
    Ok(cluster.step(&step)?)
}
