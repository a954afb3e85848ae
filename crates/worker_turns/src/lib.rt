//! The turns of the workers and of the session on the call table: requests come, and calls are taken and finished.
#![tactic(auto)]

mod ending;
mod laws;
mod requests;
mod taking;

pub use ending::finish;
pub use laws::{
    a_call_may_end_later, a_request_comes, others_make_no_requests, what_was_taken_may_end,
};
pub use requests::submit_request;
pub use taking::{take_next, take_this};
