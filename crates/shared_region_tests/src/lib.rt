//! Tests of the locks on a region and of a region, in a crate of their own, so that neither is proved again below its
//! tests.
#![tactic(auto)]

#[cfg(test)]
mod locks;
#[cfg(test)]
mod regions;
