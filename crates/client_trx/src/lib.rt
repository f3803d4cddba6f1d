//! A live transaction of a client: its keys and changes, how far it is, and the write sets that it
//! sends: fragments, a commit, a rollback.
#![tactic(auto)]

mod keyed_ops;
mod newest;
mod status;
mod trx;

pub use status::{Added, Outcome, Status};
pub use trx::Trx;
