/// What an entry is.
///
/// | From | By | To |
/// |---|---|---|
/// | Idle, Cancelled | `wait` | Waiting |
/// | Waiting | `try_enter` | Entered |
/// | Waiting | `cancel` | Cancelled |
/// | any but Waiting | `leave` | Finished |
#[derive(Clone, Copy, Debug, PartialEq, Eq)]
pub enum EntryState {
    Idle,
    Waiting,
    Cancelled,
    Entered,
    Finished,
}

/// What `try_enter` answers.
#[derive(Clone, Copy, Debug, PartialEq, Eq)]
pub enum Entry {
    /// The entry was cancelled, and stays so until it waits again.
    Cancelled,
    /// The entry still waits; all numbers up to this one are left.
    NotYet(u64),
    Entered,
}
