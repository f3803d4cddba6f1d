//! Tests of bytes and texts that no run brings: events, write sets and the verdicts on them, over
//! tables of text, and the texts of answers that no call of the program gives yet. It has nothing
//! else.
#![tactic(auto)]

#[cfg(test)]
mod answers;
#[cfg(test)]
mod events;
#[cfg(test)]
mod rows;
#[cfg(test)]
mod verdicts;
#[cfg(test)]
mod write_sets;
