//! One region, the replica of a key at a host or the global value of a key: operations on it, and moves between two.
#![tactic(auto)]

mod apply;
mod kept;
mod moves;
mod region;

pub use moves::{MoveBlocked, parts_are_entries};
pub use region::Region;
