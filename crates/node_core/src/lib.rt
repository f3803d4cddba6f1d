//! One node of a cluster: its sessions and their transactions, what it sent and took, its
//! certification state, its locks and rows, and the units of other nodes' commits.
#![tactic(auto)]

mod advance;
mod answers;
mod certify;
mod client;
mod finish;
mod gift;
mod give;
mod join;
mod keep;
pub mod laws;
mod leave;
mod node;
mod ranges;
mod receive;
mod refusal;
mod report;
mod start;
mod statement;
mod status;
mod take;
mod watched;

pub use answers::{Advanced, Certified, Place, Reported, Started, Status, Taken};
pub use gift::{Gift, GiveFault, ReceiveFault};
pub use watched::{Node, NodeOf};
