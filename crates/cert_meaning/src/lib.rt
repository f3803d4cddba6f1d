//! What an order of events means: the state that each event leads to, the same on every node.
#![tactic(auto)]

mod fragments;
mod gathered;
mod items;
mod judging;
mod laws;
mod members;
mod open_table;
mod parts;
mod row_table;
mod search;
mod sets;
mod state;
mod unions;

pub use fragments::{last_seen_of, whole_ops};
pub use items::{CommitItem, CommitList, Fragment, FragmentList, JudgedList, Told, Whole};
pub use judging::verdicts;
pub use laws::fold_laws;
pub use members::Standing;
pub use open_table::OpenTable;
pub use parts::{MemberItem, MemberItemList, OpenItem, OpenList, StateParts};
pub use sets::{decoded, is_rollback, is_start, judged_as, trx_of};
pub use state::FoldState;
