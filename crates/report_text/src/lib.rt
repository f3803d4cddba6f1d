//! The text that a run prints: of the answer of each step, and of the rows of each node at the end.
#![tactic(auto)]

mod answers;
mod load;
mod nodes;
mod parts;
mod replies;

pub use answers::put_answer;
pub use load::{LoadCounts, put_counts, put_sum};
pub use nodes::put_node;
