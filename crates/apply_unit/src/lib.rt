//! The changes of one write set, done on the committed rows that they name.
#![tactic(auto)]

mod done;
mod task;

pub use done::Done;
pub use task::Task;
