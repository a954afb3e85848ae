//! Laws over what a bench is told: of its children by the call table, and of its locks by the regions.
#![tactic(auto)]

mod children;
mod locks;

pub use children::{
    a_call_looks_at_its_children, a_reply_of_the_table_fits, a_reply_tells_of_children,
    children_are_counted, children_stay_known, none_is_known, what_a_call_has_seen,
    what_is_seen_grows,
};
pub use locks::{
    a_call_ends_without_locks, a_call_locks_in_turn, a_list_leaves_what_was_told,
    locks_are_left_in_order,
};
