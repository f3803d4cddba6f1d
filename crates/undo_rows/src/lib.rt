//! Rows of which each may have an owner that has changed it and not committed yet.
#![tactic(auto)]

mod hashed_rows;
mod overlay;
mod owned_rows;
mod row_list;
mod rows;
mod undo;

pub use overlay::{Overlay, items_in_order};
pub use rows::{Rows, Written};
pub use undo::UndoRows;
