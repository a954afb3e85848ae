//! What is printed of a session and of a single call.
#![tactic(auto)]

mod fault;
mod laws;
mod lines;
mod outcomes;
mod paths;
mod reported;
mod whole;
mod writing;

pub use fault::WriteFault;
pub use laws::report_of_world;
pub use outcomes::call_line;
pub use reported::{Blocked, Obstacle, Reported};
pub use whole::report;
pub use writing::write_report;
