//! Laws on what a bench was told: cut into the parts of its calls, each ran with its own.
#![tactic(auto)]

mod benches;
mod told;

pub use benches::{
    a_bench_begins, a_bench_ends, a_bench_takes, heard_alike, others_leave_it, parts_are_own,
};
pub use told::{
    what_a_call_ran_with, what_a_call_was_told, what_was_told_is_granted, what_was_told_joins,
};
