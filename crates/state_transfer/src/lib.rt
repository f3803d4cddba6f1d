//! How a node that joins gets what it misses: the events, or a snapshot.
#![tactic(auto)]

mod planning;
mod transfer;

pub use planning::plan;
pub use transfer::Plan;
