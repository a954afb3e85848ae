//! Regions by key that threads take in turns: what the tier of a host and the tier of all hosts have in common.
#![tactic(auto)]

mod attempt;
mod cells;
mod closing;
mod making;
mod notes;
mod opening;
mod rows;
mod slots;
mod tier;

pub use cells::{Passes, Tier, TierRoom};
