//! Snapshots of a state, as bytes: one spelling for each trimmed state, and the first fault of
//! bytes that are none.
#![tactic(auto)]

mod changes;
mod commits;
mod fault;
mod fragments;
mod head;
mod installing;
mod keys;
mod laws;
mod members;
mod open_trx;
mod rows;
mod taking;
mod writing;

pub use fault::SnapFault;
pub use installing::install;
pub use laws::{can_be_taken, one_spelling};
pub use taking::take;
