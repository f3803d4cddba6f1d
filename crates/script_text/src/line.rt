use order_event::Step;
use thiserror::Error;
use wsrep_base::StateId;

/// What the first line of a schedule says of its cluster.
#[derive(Clone, Copy, Debug, PartialEq, Eq)]
pub struct Header {
    /// The number of nodes, at least 1.
    pub nodes: u8,
    /// The size of each node's GCache ring, in bytes.
    pub gcache: u64,
    /// The id of the state that the cluster begins with.
    pub id: StateId,
}

/// What a line behind the header says.
#[derive(Clone, Copy, Debug, PartialEq, Eq)]
pub enum Line {
    /// Nothing is done.
    Blank,
    Step(Step),
}

/// Why a line is refused.
#[derive(Clone, Copy, Debug, PartialEq, Eq, Error)]
pub enum ScriptCause {
    /// It is outside the grammar.
    #[error("grammar")]
    Grammar,
    /// It is within the grammar, and a count passes its limit.
    #[error("limit")]
    Limit,
}
