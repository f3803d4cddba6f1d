//! The keys that certification compares: kinds, parts, and sets of keys that conflict or touch.
#![tactic(auto)]

mod fault;
mod key_set;
mod kind;
mod laws;
mod parts;
mod relation;
mod test;

pub use fault::KeyFault;
pub use key_set::{KeySet, conflicts, meet, touches};
pub use kind::Kind;
pub use laws::{key_set_laws, kind_laws};
pub use parts::Parts;
pub use relation::Relation;
pub use test::PartsTest;
