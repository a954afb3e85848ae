//! Tests of snapshots of modules in bytes, in a crate of their own so that snapshots are not proved again
//! below them.
#![tactic(auto)]

#[cfg(test)]
mod tests;
