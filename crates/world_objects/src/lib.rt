//! The replicas and the global values of a world on one thread, each with its trail.
#![tactic(auto)]

mod laws;
mod object;
mod objects;
mod row;

pub use laws::{enters_as_the_world, meets_as_the_world, starts_as_the_world};
pub use objects::{Held, KeyStart, Objects};
