//! Row locks: which sessions and units have which keys, and who stands in the way of one more.
#![tactic(auto)]

mod holder;
mod holder_index;
mod laws;
mod lock_table;
mod put;

pub use holder::{Grant, Holder};
pub use laws::lock_laws;
pub use lock_table::LockTable;
