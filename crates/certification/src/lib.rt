//! What a node needs of certification: the verdict of the next event, what passed and is not
//! committed, and what its status tells. Nothing here goes over all commits.
#![tactic(auto)]

mod certification;
mod indexed;
mod judging;
mod laws;

pub use certification::{Certification, Certified};
pub use judging::judge;
pub use laws::trimmed_states_go_on;
