//! Snapshots of functions about to run `main`: instantiation, and what is kept of it.
#![tactic(auto)]

mod constants;
mod entries;
mod fault;
mod image;
mod instantiation;
mod proto;
mod segments;
mod table;

pub use fault::BuildFault;
pub use proto::{Proto, empty_memory, machine_over, room_of};
