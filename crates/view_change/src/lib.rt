//! The members of a group along an order of events: what each last reported, the serial of its
//! last write set, and the floor, which is the least report.
#![tactic(auto)]

mod laws;
mod members;
mod standings;

pub use laws::following_laws;
pub use members::Members;
