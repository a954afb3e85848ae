//! Callers of a tier, with what its clauses then say, and the tests that run them.
#![tactic(auto)]

mod alone;
mod lending;
mod makers;
mod told;

pub use alone::{append_alone, look_alone};
pub use lending::shared;
pub use makers::two_makers;
pub use told::{Told, write_read_tell};

#[cfg(test)]
mod tests;
