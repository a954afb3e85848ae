//! A value that threads take in turns, with its one history known in proofs.
#![tactic(auto)]

mod cell;
mod closing;
mod held;
mod kept;
mod notes;
mod opening;
mod plays;
mod turn;
mod view;

pub use cell::{Held, Note, Pass, Seen, Turns};
pub use kept::{Kept, Named};
pub use view::Entry;
