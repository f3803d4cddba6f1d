//! The one order of events that the nodes of a cluster share, and the group that keeps it.
#![tactic(auto)]

mod fault;
mod group;
mod mem_group;

pub use fault::GroupFault;
pub use group::Group;
pub use mem_group::MemGroup;
