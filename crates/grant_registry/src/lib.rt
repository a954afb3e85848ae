//! Functions, keys, grants and requests of a session.
#![tactic(auto)]

mod budgets;
mod calls;
mod entries;
mod forms;
mod modules;
mod readers;
mod registry;
mod shown;
mod writers;

pub use registry::Registry;
pub use shown::{FunctionPlan, KeyPlan, RequestPlan};
