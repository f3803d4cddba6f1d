//! Lists of calls on rows with owners, over every type of such rows.
#![tactic(auto)]

mod calls;

pub use calls::{RowAnswer, RowCall, do_calls};
