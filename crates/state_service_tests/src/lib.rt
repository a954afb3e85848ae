//! Callers of `serve_state`, with what its clauses then say, and the tests that run them.
#![tactic(auto)]

mod each;
mod locking;
mod moving;
mod pair;

pub use each::{Told, serve_each};
pub use locking::lock_once;
pub use moving::{Ends, fill_write_push};

#[cfg(test)]
mod tests;
