//! Worked schedules: what a run of the model cluster answers, step by step; rows and their proofs,
//! no code.
#![tactic(auto)]
