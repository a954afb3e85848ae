//! The integer operations of WebAssembly: each answers its row of the integer tables.
#![tactic(auto)]

pub mod int32;
pub mod int64;
mod opcodes;

pub use opcodes::{binary, compare, convert, test, unary};

#[cfg(test)]
mod tests;
