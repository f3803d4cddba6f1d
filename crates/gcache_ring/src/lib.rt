//! The youngest events that a node has taken, as many as fit a size, for a node that joins.
#![tactic(auto)]

mod fault;
mod laws;
mod ring;

pub use fault::CopyFault;
pub use laws::longest_suffix;
pub use ring::Ring;
