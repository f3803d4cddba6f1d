/// Whether a node is in the group.
#[derive(Clone, Copy, Debug, PartialEq, Eq)]
pub enum Phase {
    /// It left the group; what it had taken is still certified and committed.
    Left,
    /// It asked to join and has no state yet.
    Joining,
    Connected,
}

/// How far a node is. Numbers of events count from 1, and it holds
/// `committed <= certified <= taken`.
#[derive(Clone, Copy, Debug, PartialEq, Eq)]
pub struct Progress {
    pub phase: Phase,
    /// Its member number.
    pub member: u32,
    /// The number of the view in which that member entered.
    pub view: u64,
    /// The last number that was taken from the order.
    pub taken: u64,
    /// The last number that was certified.
    pub certified: u64,
    /// The last number that was committed.
    pub committed: u64,
    /// The serial of the next write set that it sends.
    pub serial: u64,
    /// The begin number of the next transaction.
    pub begin: u64,
}

/// How far the unit of a passed commit is on a node.
#[derive(Clone, Copy, Debug, PartialEq, Eq)]
pub enum Stage {
    Started,
    Finished,
}
