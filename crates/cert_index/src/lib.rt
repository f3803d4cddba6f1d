//! The index of certification: which commit was the latest to have each kind at each parts, of the
//! commits whose keys it keeps. Nothing here goes over the commits.
#![tactic(auto)]

mod entry;
mod index;
mod laws;
mod pair;
mod table;

pub use entry::Entry;
pub use index::Index;
pub use laws::index_laws;
