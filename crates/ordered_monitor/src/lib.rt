//! Entries with numbers that wait, enter at most once, and are left in any order.
#![tactic(auto)]

mod entry;
mod monitor;

pub use entry::{Entry, EntryState};
pub use monitor::Monitor;
