//! A session that is opened, used once and closed, and the test that runs it, in a crate of their own.
#![tactic(auto)]

mod using;

pub use using::append_once;

#[cfg(test)]
mod tests;
