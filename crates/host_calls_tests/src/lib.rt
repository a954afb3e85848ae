//! Tests of the host calls, in a crate above them, so that they are not proved again below them.
#![tactic(auto)]

#[cfg(test)]
mod state_tests;
#[cfg(test)]
mod tests;
