//! Which transaction commits at a number, and when a victim whose commit passed may commit from its
//! own write set.
#![tactic(auto)]

mod replay;

pub use replay::{commits_at, is_certified_at, ready};
