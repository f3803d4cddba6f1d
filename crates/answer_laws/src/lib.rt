//! Right answers: what a session of a node was told holds of the whole order.
#![tactic(auto)]
