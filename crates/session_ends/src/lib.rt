//! Laws over a session whose threads have all ended: from the lists that they leave, it ran.
#![tactic(auto)]

mod begins;
mod benches;
mod ended;

pub use begins::{the_requests_are_alone, the_session_enters_one_more};
pub use benches::{a_bench_rests_without_locks, a_taken_call_is_on_a_bench, what_is_heard_is_told};
pub use ended::{an_ended_session_is_one, an_ended_session_ran};
