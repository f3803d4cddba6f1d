//! What a node means: where it stands, what its sessions are answered and what its steps do, as
//! functions of the order of events; and the laws that every step keeps.
#![tactic(auto)]

mod progress;

pub use progress::{Phase, Progress, Stage};
