//! Callers of `serve_call`, and the tests that run them, in a crate of their own.
#![tactic(auto)]

mod asking;
mod begun;

pub use asking::ask_all;
pub use begun::parent;

#[cfg(test)]
mod tests;
