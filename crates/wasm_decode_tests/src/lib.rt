//! Tests of the decoder, in a crate of their own so that it is not proved again below them.
#![tactic(auto)]

#[cfg(test)]
mod limit_tests;
#[cfg(test)]
mod tests;
