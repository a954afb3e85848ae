//! Callers of a turn cell: a tally to which threads add, and a journal in which they write. Each shows one way to use
//! a cell, and the tests run them.
#![tactic(auto)]

mod adding;
mod four;
mod journal;
mod looking;
mod one;
mod tally;
mod two;
mod writing;

pub use adding::{add, add_times, add_two};
pub use four::add_in_four;
pub use journal::Journal;
pub use looking::{both_look, hand_over, look_in_two};
pub use one::{Found, alone};
pub use tally::Tally;
pub use two::add_in_two;
pub use writing::{one_line, write};

#[cfg(test)]
mod tests;
