//! Limits that hold in every run.

/// The most events of an order.
pub const MOST_EVENTS: u64 = 500_000;

/// Numbers of a node (its events, its write sets, its transactions) stay below this.
pub const NUMBERS_END: u64 = 1 << 63;

/// The most bytes of a ring of events.
pub const MOST_RING_BYTES: u64 = 16_777_216;
