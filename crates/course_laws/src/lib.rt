//! The laws of a node's course over an order that grows: its own write sets are decided by
//! conflict alone.
#![tactic(auto)]
