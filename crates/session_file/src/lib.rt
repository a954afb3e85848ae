//! Session files: from the bytes of one to a registry, or to the first reason why there is none.
#![tactic(auto)]

mod entries;
mod faults;
mod fill;
mod lists;
mod members;
mod plan;
mod reader;

pub use plan::SessionPlan;
pub use reader::read_session;
