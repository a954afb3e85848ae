//! A session by the turns of its worker and its requests, and the test that runs it, in a crate of their own.
#![tactic(auto)]

mod coming;
mod session;
mod working;

pub use session::{Came, run};

#[cfg(test)]
mod tests;
