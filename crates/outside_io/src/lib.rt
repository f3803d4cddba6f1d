//! The outside as the program sees it: where bytes come from and where they go, in memory and real.
#![tactic(auto)]

mod calls;
mod failed;
mod mem_sink;
mod mem_source;
mod sink;
mod source;
mod std_streams;

pub use failed::Failed;
pub use mem_sink::MemSink;
pub use mem_source::MemSource;
pub use sink::Sink;
pub use source::Source;
pub use std_streams::{StdSink, StdSource};
