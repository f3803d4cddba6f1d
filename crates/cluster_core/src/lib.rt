//! A cluster: several nodes over one group, and what each step of a node is answered.
#![tactic(auto)]

mod cluster;
mod drain;
mod fault;
mod ranges;
mod seat;
mod steps;
mod transfer;

pub use cluster::{Cluster, ClusterOf, NodeEnd};
pub use fault::StepFault;
