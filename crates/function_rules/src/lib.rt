//! Which valid modules a function may have: they import host calls alone, and export `main` and
//! perhaps `init`.
#![tactic(auto)]

mod exports;
mod host_calls;
mod imports;
mod judge;
mod signature;

pub use exports::export_of;
pub use judge::{Unfit, fits};

#[cfg(test)]
mod tests;
