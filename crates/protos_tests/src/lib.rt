//! Tests of `protos` in a crate of their own, so that it is not proved again with them.
#![tactic(auto)]

#[cfg(test)]
mod tests;
