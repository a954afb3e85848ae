//! Where a call is placed.
#![tactic(auto)]

mod loads;

pub use loads::{HostLoads, is_warm, place, place_among};

#[cfg(test)]
mod tests;
