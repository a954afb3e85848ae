//! The shared objects of a session: opened with the passes of all who use them, and closed with their whole lists.
#![tactic(auto)]

mod closing;
mod columns;
mod hosts;
mod lists;
mod numbers;
mod objects;
mod opening;
mod shift;

pub use closing::close;
pub use columns::{BenchPasses, Columns};
pub use hosts::HostRest;
pub use objects::{Closed, Closing, Objects, Opened, SessionPasses};
pub use opening::open;
