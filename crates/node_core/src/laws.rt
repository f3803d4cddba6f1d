//! What an order of events means, told without a node.

pub use certification::judge;
