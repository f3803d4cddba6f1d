//! The laws of snapshots, each as the contract of a call that does nothing.

ghost use Rattle.state_snapshot.specs.Laws.{SnapshotIsInstalled, OnlySnapshotsAreInstalled};
ghost use Rattle.state_snapshot.specs.Orders.{SnapshotCanBeTaken, TrimmedIsInRange};

/// What is taken is installed again as the trimmed state, and no other bytes are installed.
pub fn one_spelling()
    ensures again { SnapshotIsInstalled }
    ensures only { OnlySnapshotsAreInstalled }
{}

/// The state at each point of an order of up to 500,000 events, over views of fewer than 2^32
/// members, meets the rules of a snapshot once it is trimmed.
pub fn can_be_taken()
    ensures rules { SnapshotCanBeTaken }
    ensures range { TrimmedIsInRange }
{}
