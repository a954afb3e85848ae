//! The outside: files that are read and a stream that is written, as traits, with stand-ins in
//! memory.
#![tactic(auto)]

mod fail_shelf;
mod fail_sink;
mod fault;
mod mem_shelf;
mod mem_sink;
mod shelf;
mod sink;

pub use fail_shelf::FailShelf;
pub use fail_sink::FailSink;
pub use fault::{Failed, ReadFault};
pub use mem_shelf::MemShelf;
pub use mem_sink::MemSink;
pub use shelf::{Shelf, read_file};
pub use sink::{Sink, write_whole};

#[cfg(test)]
mod tests;
