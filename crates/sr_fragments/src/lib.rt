//! The open transactions: their passed fragments, and which of them stands in the way of some keys.
//! Nothing here goes over the fragments of others.
#![tactic(auto)]

mod held_index;
mod laws;
mod marks;
mod open_set;
mod shape;
mod spot;

pub use laws::open_laws;
pub use open_set::OpenSet;
pub use shape::Shape;
