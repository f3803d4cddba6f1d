use crate::ops::Change;
use crate::row::{Row, RowId};
use item_list::ItemList;

/// What a client asks of its session.
#[derive(Clone, Copy, Debug, PartialEq, Eq)]
pub enum Call {
    /// Begins a transaction. It sends a fragment whenever that many changes were made since the
    /// last one; 0 sends none.
    Begin(u64),
    Insert(RowId, Row),
    Update(RowId, Change),
    Delete(RowId),
    /// Reads a row and holds it against change until the transaction ends.
    Share(RowId),
    Read(RowId),
    Commit,
    Rollback,
    /// Asks for the answer that a call before did not give.
    Poll,
}

/// Calls of one client, in order. For runs with threads, where each session has its list.
pub type ClientCallList = ItemList<Call>;

/// What a client is told.
#[derive(Clone, Copy, Debug, PartialEq, Eq)]
pub enum Reply {
    Done,
    Row(Row),
    Running,
    Pending,
    /// Committed with this number in the order; 0 where nothing was changed.
    Committed(u64),
    RolledBack,
    NoTrx,
    InTrx,
    NoRow,
    Duplicate,
    /// The row lacks this column.
    NoColumn(u8),
    /// This session's transaction has a lock there.
    Busy(u8),
    /// The unit of the write set with this number is at work there.
    BusyApply(u64),
    /// The fragment with this number, of another open transaction, stands there.
    HeldBy(u64),
    TooLarge,
    /// The write set with this number prevailed when the transaction was certified.
    DeadlockCert(u64),
    /// The write set with this number prevailed and aborted the transaction.
    DeadlockBf(u64),
    Unknown,
    Disconnected,
    NotSynced,
}
