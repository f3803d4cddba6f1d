//! Tests over the bytes of what a joining node gets: snapshots that are cut or changed. It has
//! nothing else.
#![tactic(auto)]

#[cfg(test)]
mod snapshots;
