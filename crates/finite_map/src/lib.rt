//! A finite map as contracts see it, which computes on literals: definitions and laws, no code.
#![tactic(auto)]
