use apply_unit::Task;
use node_meaning::Phase;
use wsrep_base::{Judged, SessionList, StateId};

/// What became of an event that was given to a node.
#[derive(Clone, Copy, Debug, PartialEq, Eq)]
pub enum Taken {
    /// It was taken, and has this number.
    Took(u64),
    /// The event with this number is a write set of the node's own member, and not the oldest
    /// that it had ordered.
    Split(u64),
    /// The node is not connected.
    Away,
}

/// What certifying the next event says.
#[derive(Clone, Copy, Debug, PartialEq, Eq)]
pub enum Certified {
    Judged(u64, Judged),
    /// All that was taken is certified.
    Nothing,
}

/// What became of the start of a unit.
#[derive(Drop)]
pub enum Started {
    /// Its task, and the sessions whose transactions it aborted, ascending.
    Unit(Task, SessionList),
    /// The unit with this number comes before it and touches it.
    NotYet(u64),
    /// The number is the commit of a live transaction of this node.
    Local,
    NoUnit,
}

/// What became of committing the next number.
#[derive(Clone, Copy, Debug, PartialEq, Eq)]
pub enum Advanced {
    At(u64),
    /// All that was certified is committed.
    Nothing,
    /// The next number waits for its unit.
    NotReady(u64),
}

/// What became of a report.
#[derive(Clone, Copy, Debug, PartialEq, Eq)]
pub enum Reported {
    /// A report of this number waits to be ordered.
    Sent(u64),
    /// The node has left.
    Disconnected,
    /// The node joins, or has not committed the view in which it entered.
    NotSynced,
}

/// Where a node stands, and how much it keeps for certification.
#[derive(Clone, Copy, Debug, PartialEq, Eq)]
pub struct Status {
    pub taken: u64,
    pub certified: u64,
    pub committed: u64,
    /// The least report of the members: what saw less is stale.
    pub floor: u64,
    /// How many different kinds at parts the commits have that a write set may still be tested
    /// against, or that are not committed.
    pub index: u64,
    pub open_trx: u64,
}

/// Where a node is.
#[derive(Clone, Copy, Debug, PartialEq, Eq)]
pub struct Place {
    pub phase: Phase,
    /// Its member number.
    pub member: u32,
    /// The number of the view in which that member entered.
    pub view: u64,
    pub id: StateId,
    /// How many messages wait to be ordered.
    pub outbox: u64,
}
