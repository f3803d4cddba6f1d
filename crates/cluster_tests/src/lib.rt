//! Tests of a cluster whose group fails at one call, and of watchers in boxes. It has nothing else.
#![tactic(auto)]

#[cfg(test)]
mod group;
#[cfg(test)]
mod ids;
#[cfg(test)]
mod steps;
#[cfg(test)]
mod watched;
