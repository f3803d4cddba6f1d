use crate::items::{CommitList, FragmentList};
use item_list::ItemList;
use row_model::RowList;
use wsrep_base::TrxId;

/// A member, and how it stands.
#[derive(Clone, Copy, Debug, PartialEq, Eq)]
pub struct MemberItem {
    pub member: u32,
    /// Its last report.
    pub report: u64,
    /// The serial of its last write set.
    pub serial: u64,
}

/// Members, ascending.
pub type MemberItemList = ItemList<MemberItem>;

/// An open transaction, with its passed fragments.
#[derive(Debug, Drop)]
pub struct OpenItem {
    pub trx: TrxId,
    /// Oldest first.
    pub fragments: FragmentList,
}

/// Open transactions, by member and then by begin number.
pub type OpenList = ItemList<OpenItem>;

/// All fields of a fold state, as lists.
#[derive(Debug, Drop)]
pub struct StateParts {
    /// How many events it has seen.
    pub number: u64,
    /// The least report.
    pub floor: u64,
    /// That of the last view.
    pub version: u32,
    /// The members, ascending.
    pub members: MemberItemList,
    /// The rows, by table and then by row.
    pub rows: RowList,
    /// The passed commits, oldest first.
    pub commits: CommitList,
    /// The open transactions, by member and then by begin number.
    pub open_trx: OpenList,
}
