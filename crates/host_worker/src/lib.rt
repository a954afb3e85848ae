//! Calls that run on benches, over the objects that threads share.
#![tactic(auto)]

mod bench;
mod calling;
mod gate;
mod starting;

pub use bench::{Bench, Halt, Passes, Tiers};
pub use calling::run_call;
pub use gate::{Gate, Open};
