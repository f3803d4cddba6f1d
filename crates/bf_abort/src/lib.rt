//! Brute-force abort: which sessions' transactions a unit that starts has to abort, and what each
//! becomes and releases.
#![tactic(auto)]

mod aborting;

pub use aborting::{abort, victims};
