//! Tests of calls that ask questions: small modules run in a Faaslet, and each question is served as a row says.
#![tactic(auto)]

mod calls;
mod rows;
mod serving;

pub use calls::{Came, call_of, read};
pub use rows::{Off, Served};

#[cfg(test)]
mod modules;
#[cfg(test)]
mod tests;
