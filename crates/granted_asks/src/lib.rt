//! Laws on the calls of a well-formed plan: what they ask lies in the plan, and each function may be started. The
//! definitions that they add stand in `specs/`.
#![tactic(auto)]

mod plan_calls;

pub use plan_calls::{asks_are_within, functions_can_start};
