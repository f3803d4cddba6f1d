//! The words that every crate of the project shares: names of transactions and states, verdicts,
//! fields of bytes, limits, and a counter of steps.
#![tactic(auto)]

mod bytes;
mod cursor;
mod ids;
mod limits;
mod steps;
mod verdict;

pub use bytes::{ByteList, put_u32, put_u64, read_u32, read_u64};
pub use cursor::{Cursor, ReadFault};
pub use ids::{CallList, SessionList, StateId, TrxId};
pub use limits::{MOST_EVENTS, MOST_RING_BYTES, NUMBERS_END};
pub use std::alloc::AllocError as NoMemory;
pub use steps::Steps;
pub use verdict::{Judged, Verdict};
