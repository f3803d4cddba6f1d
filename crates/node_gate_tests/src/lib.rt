//! Tests of a gate over its public calls, with threads. It has nothing else.
#![tactic(auto)]

#[cfg(test)]
mod jobs;
#[cfg(test)]
mod relay;
#[cfg(test)]
mod tally;
#[cfg(test)]
mod tests;
#[cfg(test)]
mod told;
#[cfg(test)]
mod turns;
#[cfg(test)]
mod waits;
