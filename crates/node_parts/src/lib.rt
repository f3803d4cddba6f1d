//! The parts of a node, each with a contract of its own.
#![tactic(auto)]

mod inbox;
mod passed;
mod queue;
mod slots;
mod transactions;
mod units;

pub use inbox::Inbox;
pub use passed::{Passed, PassedCommit};
pub use queue::{MessageList, Queue};
pub use slots::Slots;
pub use transactions::{committer_of, is_local, session_of};
pub use units::Units;
