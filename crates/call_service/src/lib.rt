//! What a call asks of the call table is served: one Submit or one Look, in a turn of the table.
#![tactic(auto)]

mod asking;
mod laws;
mod service;

pub use laws::{
    children_stay, heard_once, heard_stays, lists_lead_to_one_table, lists_spell_a_history,
    nothing_is_heard, questions_are_asked, serving_only_adds, sessions_go_on, told_as_joins,
    what_is_made_is_heard,
};
pub use service::{Service, serve_call};
