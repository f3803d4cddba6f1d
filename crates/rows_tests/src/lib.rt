//! Tests of rows with owners, both types over the same tables, and of the monitor.
#![tactic(auto)]

#[cfg(test)]
mod monitor;
#[cfg(test)]
mod rows;
