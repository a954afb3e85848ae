//! One call in progress, from question to question, without threads.
#![tactic(auto)]

mod buffer;
mod faaslet;
mod grants;
mod host;
mod laws;
mod output;
mod state;
mod stops;
mod tally;

pub use call_table::Job;
pub use faaslet::{Faaslet, Turn};
pub use laws::stands_with_scratch;
