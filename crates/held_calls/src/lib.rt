//! Laws on the calls that a bench holds, by lists of entries of the call table.
#![tactic(auto)]

mod changes;
mod ends;
mod stays;

pub use changes::{
    a_finish_is_at_its_place, a_take_is_at_its_place, what_is_asked_leaves_the_benches,
};
pub use ends::{
    lists_are_cut_and_joined, none_comes_behind_the_end, orders_stay, what_is_known_stays,
};
pub use stays::{a_held_call_stays_on, joins, others_keep_a_bench};
