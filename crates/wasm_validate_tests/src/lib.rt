//! Tests of validation, in a crate of their own so that it is not proved again below them.
#![tactic(auto)]

#[cfg(test)]
mod tests;
