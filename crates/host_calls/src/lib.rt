//! The host calls of a Faaslet: their checks in order, and what they do one after another, over a machine that stands at
//! one of them.
#![tactic(auto)]

mod buffer;
mod call_call;
mod call_host;
mod call_known;
mod call_parts;
mod modes;
mod replies;
mod span;
mod state_act;
mod state_call;
mod state_host;
mod state_known;
mod state_laws;
mod state_parts;

pub use call_call::{CallCall, CallStep};
pub use call_host::{CallHost, CallLimits};
pub use call_known::CallKnown;
pub use replies::fitting_replies_belong;
pub use state_call::{StateCall, StateStep};
pub use state_host::{StateHost, StateKind};
pub use state_known::{Known, PlaceKnown, Tier};
pub use state_laws::state_replies_belong;
