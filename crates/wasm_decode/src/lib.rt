//! Modules, from bytes.
#![tactic(auto)]

mod decoder;
mod entries;
mod fault;
mod floats;
mod limits;
mod names;
mod parts;
mod sections;
mod vectors;

pub use decoder::decode;
pub use fault::{DecodeFault, Which};
