use key_sets::KeySet;
use row_model::OpList;

/// What a transaction sends to be certified: its changes, or a part of them, and the keys that
/// they touch.
#[derive(Debug, Drop)]
pub struct WriteSet {
    /// The member that sends it.
    pub member: u32,
    /// Counts the write sets of the member.
    pub serial: u64,
    /// The begin number of the transaction at its member.
    pub begin: u64,
    /// 0 for the first write set of a transaction, and one more for each further one.
    pub fragment: u32,
    /// START 1, END 2, ROLLBACK 4.
    pub flags: u8,
    /// The number up to which the transaction has seen the order.
    pub last_seen: u64,
    pub keys: KeySet,
    pub ops: OpList,
}

/// The fields before the keys.
#[derive(Clone, Copy, Debug)]
pub(crate) struct Header {
    pub member: u32,
    pub serial: u64,
    pub begin: u64,
    pub fragment: u32,
    pub flags: u8,
    pub last_seen: u64,
}
