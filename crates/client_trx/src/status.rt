ghost use Rattle.std.specs.Prelude.{◌≡◌};
ghost use Rattle.client_trx.specs.Live.{has_locks, is_running, is_sent, is_uncommitted, commit_number, passed_status};

use row_model::Reply;

/// How far a live transaction is.
///
/// | Status | Meaning | Has row locks |
/// |---|---|---|
/// | `Running` | statements are taken | yes |
/// | `FragmentSent` | a fragment is not yet certified | yes |
/// | `CommitSent` | the commit is not yet certified | yes |
/// | `Certified(n)` | the commit passed at number n | yes |
/// | `KilledSent` | aborted by a unit, the commit not yet certified | no |
/// | `Replaying(n)` | aborted by a unit, the commit passed at number n | no |
///
/// | Status | its write set passes at n | it fails by Conflict v or Held v | unit n kills it |
/// |---|---|---|---|
/// | `Running` | none is sent | none is sent | ends: DEADLOCK BF n |
/// | `FragmentSent` | `Running` | ends: DEADLOCK CERT v | ends: DEADLOCK BF n |
/// | `CommitSent` | `Certified(n)` | ends: DEADLOCK CERT v | `KilledSent` |
/// | `Certified(m)` | none is sent | none is sent | `Replaying(m)` |
/// | `KilledSent` | `Replaying(n)` | ends: DEADLOCK CERT v | has no locks |
/// | `Replaying(m)` | none is sent | none is sent | has no locks |
///
/// A fragment leads from `Running` to `FragmentSent`, and the commit to `CommitSent`. Any other
/// verdict changes nothing. A `Certified` or `Replaying` transaction ends when its node commits its
/// number. One that ends before that, and ever sent a fragment, leaves a rollback to be sent where
/// a unit kills it or its client rolls it back.
#[derive(Clone, Copy, Debug, PartialEq, Eq)]
pub enum Status {
    Running,
    FragmentSent,
    CommitSent,
    Certified(u64),
    KilledSent,
    Replaying(u64),
}

impl Status {
    /// Whether it has row locks, and its changes are in the rows that it sees.
    pub fn has_locks(self) -> bool
        ensures { result ≡ has_locks self }
    {
        match self {
            Status::Running | Status::FragmentSent | Status::CommitSent | Status::Certified(_) => {
                true
            }
            Status::KilledSent | Status::Replaying(_) => false,
        }
    }

    /// Whether statements are taken.
    pub fn is_running(self) -> bool
        ensures { result ≡ is_running self }
    {
        match self {
            Status::Running => true,
            Status::FragmentSent
            | Status::CommitSent
            | Status::Certified(_)
            | Status::KilledSent
            | Status::Replaying(_) => false,
        }
    }

    /// Whether a write set of it is sent and not yet certified.
    pub fn is_sent(self) -> bool
        ensures { result ≡ is_sent self }
    {
        match self {
            Status::FragmentSent | Status::CommitSent | Status::KilledSent => true,
            Status::Running | Status::Certified(_) | Status::Replaying(_) => false,
        }
    }

    /// Whether its client or a unit can end it: nothing of its commit is sent.
    pub fn is_uncommitted(self) -> bool
        ensures { result ≡ is_uncommitted self }
    {
        match self {
            Status::Running | Status::FragmentSent => true,
            Status::CommitSent | Status::Certified(_) | Status::KilledSent | Status::Replaying(_) =>
                false,
        }
    }

    /// The number of its commit; None where that has not passed.
    pub fn commit_number(self) -> Option<u64>
        ensures { result ≡ commit_number self }
    {
        match self {
            Status::Certified(n) | Status::Replaying(n) => Some(n),
            Status::Running | Status::FragmentSent | Status::CommitSent | Status::KilledSent => {
                None
            }
        }
    }

    // The status once the write set that was sent has passed with number n.
    pub(crate) fn passed(self, n: u64) -> Status
        ensures { result ≡ passed_status n self }
    {
        match self {
            Status::FragmentSent => Status::Running,
            Status::CommitSent => Status::Certified(n),
            Status::KilledSent => Status::Replaying(n),
            Status::Running | Status::Certified(_) | Status::Replaying(_) => self,
        }
    }
}

/// What became of a statement's key and change.
#[derive(Clone, Copy, Debug, PartialEq, Eq)]
pub enum Added {
    /// They were added.
    Done,
    /// They were added, and the transaction has as many changes as a fragment has.
    Fragment,
    /// The transaction would be too large. Nothing was added.
    TooLarge,
}

/// Whether a transaction goes on after a verdict or a kill.
#[derive(Clone, Copy, Debug, PartialEq, Eq)]
pub enum Outcome {
    Lives,
    /// It ends, and its client is told this.
    Ends(Reply),
}
