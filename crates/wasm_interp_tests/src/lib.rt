//! Tests of the machine over a memory in segments, in a crate of their own so that the machine is not
//! proved again below them.
#![tactic(auto)]

#[cfg(test)]
mod piece_tests;
#[cfg(test)]
mod tests;
#[cfg(test)]
mod trials;
