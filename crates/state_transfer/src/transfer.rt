/// How a node that joins gets what it misses.
#[derive(Clone, Copy, Debug, PartialEq, Eq)]
pub enum Plan {
    /// By the events from this number on (incremental state transfer).
    Ist(u64),
    /// By a snapshot of the state (state snapshot transfer).
    Sst,
}
