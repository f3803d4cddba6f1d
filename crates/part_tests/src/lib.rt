//! Tests over the public calls of parts by themselves: each call that can answer that there is no
//! memory is made once where it is ample. It has nothing else.
#![tactic(auto)]

#[cfg(test)]
mod folds;
#[cfg(test)]
mod fragments;
#[cfg(test)]
mod rings;
