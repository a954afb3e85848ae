//! Read and write locks on one region, and who blocks whom.
#![tactic(auto)]

mod locks;

pub use locks::{Blocked, LockKind, LockState};
