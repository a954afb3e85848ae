//! Snapshots of all functions of a registry.
#![tactic(auto)]

mod kept;
mod protos;

pub use protos::{Protos, has_modules};
