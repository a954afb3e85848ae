//! The machine: it runs a valid module over any linear memory, by the reduction rules.
#![tactic(auto)]

mod access;
mod buffer;
mod calls;
mod cells;
mod control;
mod dispatch;
mod entry;
mod frames;
mod functions;
mod host_calls;
mod laws;
mod machine;
mod numeric;
mod pieces;
mod resume;
mod rows;
mod sides;
mod stack;
mod surface;
mod thread;
mod value_stack;
mod variables;
mod words;

pub use laws::{grants_agree, stands_with_aside, stands_with_memory, stands_with_scratch};
pub use machine::{Event, HostAsk, Machine, PieceAsk, Room};
