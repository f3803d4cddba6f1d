use cluster_core::ClusterOf;
use group_order::MemGroup;
use std::marker::Model;
use wsrep_watch::Watcher;

/// The cluster of a schedule, once its header came.
#[derive(Drop)]
pub struct Opened<W: Watcher> {
    /// The number of nodes.
    pub nodes: u8,
    pub cluster: ClusterOf<MemGroup, W>,
}

impl<W: Watcher> Model for Opened<W> {
    ghost use Rattle.galera_run.specs.Places.{Opened};

    ghost Value = { Opened };

    ghost view = { λ o. record { nodes = o.nodes; cluster = o.cluster } };
}

/// Where a run over the lines of a schedule stands.
#[derive(Drop)]
pub struct Place<W: Watcher> {
    /// The number of the next line, counted from 1.
    pub number: u64,
    /// The bytes of the lines before it, with their newlines.
    pub before: usize,
    /// The step lines that were run.
    pub steps: u64,
    /// The watchers of the nodes, up to the header.
    pub watch: Vec<W>,
    pub state: Option<Opened<W>>,
}

impl<W: Watcher> Model for Place<W> {
    ghost use Rattle.galera_run.specs.Places.{Place};

    ghost Value = { Place };

    ghost view = { λ p.
        record { number = p.number; before = p.before; steps = p.steps; state = p.state } };
}
