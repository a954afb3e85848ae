//! The records of all calls of a session: who is queued, taken and finished.
#![tactic(auto)]

mod chains;
mod children;
mod heads;
mod jobs;
mod kept;
mod loads;
mod progress;
mod records;
mod spare;
mod store;
mod table;

pub use jobs::{Job, Next, SubmitFault, Unfinished};
pub use kept::{
    a_bench_takes_and_ends, none_unfinished_stays, orders_are_below, others_leave_a_bench,
};
pub use table::CallTable;
