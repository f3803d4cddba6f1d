use row_model::{Call, Reply};
use wsrep_base::{Judged, SessionList};

/// One step of a cluster: what a node does. Nodes are numbered from 1.
#[derive(Clone, Copy, Debug, PartialEq, Eq)]
pub struct Step {
    pub node: u8,
    pub act: Act,
}

/// What a node does in one step.
#[derive(Clone, Copy, Debug, PartialEq, Eq)]
pub enum Act {
    /// A session, 1 to 32, makes a call.
    Client(u8, Call),
    /// The oldest message that waits is ordered.
    Order,
    /// The next event of the order is taken.
    Take,
    /// The next event that was taken is certified.
    Certify,
    /// The unit of the commit with this number is started.
    Start(u64),
    /// The unit with this number is finished.
    Finish(u64),
    /// The next number that was certified is committed.
    Advance,
    Report,
    Status,
    /// Everything is ordered, taken, certified and committed.
    Drain,
    Leave,
    /// Joins again; true where it keeps nothing of its state.
    Join(bool),
    /// Takes the state that it misses from this node.
    Transfer(u8),
}

/// What a step is answered. Numbers stand in the order in which they are printed.
#[derive(Debug, Drop, PartialEq)]
pub enum Answer {
    Client(Reply),
    Nothing,
    Ordered(u64),
    Took(u64),
    /// The event is a write set of the node's own member, and not the oldest that it had ordered.
    Split,
    /// The event with this number was certified.
    Judged(u64, Judged),
    NoUnit(u64),
    Local(u64),
    NotYet(u64),
    /// The unit with this number was started, and the transactions of these sessions were aborted.
    Started(u64, SessionList),
    Finished(u64),
    NotReady(u64),
    At(u64),
    Reported(u64),
    Disconnected,
    NotSynced,
    /// Taken, certified, committed, floor, index entries, open transactions.
    Status(u64, u64, u64, u64, u64, u64),
    Left(u64),
    StillJoined,
    NotDrained(u64, u64),
    /// The number of the view, and the new member.
    Joining(u64, u32),
    NotJoining,
    NoDonor,
    DonorBehind(u64, u64),
    DonorBusy(u64, u64),
    /// The events from the first number to the second were taken at once.
    Ist(u64, u64),
    /// A snapshot of the state at this number was taken.
    Sst(u64),
}
