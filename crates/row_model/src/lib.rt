//! Rows of named tables, what changes do to them, and what clients ask and are told.
#![tactic(auto)]

mod calls;
mod ops;
mod row;

pub use calls::{Call, ClientCallList, Reply};
pub use ops::{Change, ImageList, Op, OpList, apply_op};
pub use row::{Row, RowId, RowItem, RowList};
