/// What certification says of a write set. The first that holds, in this order.
#[derive(Clone, Copy, Debug, PartialEq, Eq)]
pub enum Verdict {
    Pass,
    /// The bytes are no valid spelling of a write set.
    Malformed,
    /// Its member is no member, or it names another.
    Stranger,
    /// Its serial is not above the last of its member.
    Repeat,
    /// It has seen what is not ordered before it.
    Future,
    /// What it has seen is below the floor.
    Stale,
    /// It does not continue its transaction where that stands, or makes it too large.
    Broken,
    /// A commit with this number, ordered after what it has seen, conflicts with it.
    Conflict(u64),
    /// A fragment with this number, of another open transaction, touches it.
    Held(u64),
}

/// What became of an event when it was certified.
#[derive(Clone, Copy, Debug, PartialEq, Eq)]
pub enum Judged {
    View,
    Report,
    Commit,
    Fragment,
    Rollback,
    /// A write set with a verdict other than `Pass`.
    Fail(Verdict),
}
