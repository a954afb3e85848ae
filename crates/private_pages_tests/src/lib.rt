//! Tests of the page pool and of private pages over it, in a crate of their own, so that neither is
//! proved again below its tests.
#![tactic(auto)]

#[cfg(test)]
mod tests;
