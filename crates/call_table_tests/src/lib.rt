//! Tests of the call table, in a crate above it, so that it is not proved again below them.
#![tactic(auto)]

#[cfg(test)]
mod tests;
