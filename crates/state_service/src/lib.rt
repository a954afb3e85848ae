//! What a call asks of shared state is served: one operation on a replica or a global value, or one transfer between
//! the two.
#![tactic(auto)]

mod asking;
mod laws;
mod moving;
mod service;

pub use laws::{
    entries_are_heard, heard_once, heard_stays, nothing_is_heard, questions_are_asked,
    what_is_made_is_heard,
};
pub use service::{StatePasses, serve_state};
