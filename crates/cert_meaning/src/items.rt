use item_list::ItemList;
use key_sets::KeySet;
use row_model::OpList;
use write_set::WriteSet;
use wsrep_base::{Judged, TrxId};

/// A passed commit.
#[derive(Debug, Drop)]
pub struct CommitItem {
    /// The number of its event.
    pub number: u64,
    pub trx: TrxId,
    /// All keys of its transaction.
    pub keys: KeySet,
}

/// Passed commits, oldest first.
pub type CommitList = ItemList<CommitItem>;

/// A passed fragment of an open transaction.
#[derive(Debug, Drop)]
pub struct Fragment {
    /// The number of its event.
    pub number: u64,
    /// The number up to which the transaction had seen the order.
    pub last_seen: u64,
    pub keys: KeySet,
    pub ops: OpList,
}

/// The passed fragments of a transaction, oldest first.
pub type FragmentList = ItemList<Fragment>;

/// All that the fragments of a transaction have.
#[derive(Debug, Drop)]
pub struct Whole {
    /// The union of their keys.
    pub keys: KeySet,
    /// Their changes, in order.
    pub ops: OpList,
}

/// What became of events, in their order.
pub type JudgedList = ItemList<Judged>;

/// What a step of the fold tells.
#[derive(Debug, Drop)]
pub struct Told {
    /// What became of the event.
    pub judged: Judged,
    /// The write set that the event's bytes spell. None where they spell none, and of other events.
    pub set: Option<WriteSet>,
    /// The changes that the event commits: those of its transaction's fragments, and its own.
    pub changes: OpList,
}
