//! Which modules are valid, by the rules of W3C WebAssembly Core Specification 1.0, section 3.
#![tactic(auto)]

mod blocks;
mod bodies;
mod body;
mod branches;
mod constants;
mod fault;
mod floats;
mod instrs;
mod invalid;
mod jumps;
mod kind;
mod locals;
mod module_rules;
mod names;
mod opcodes;
mod operands;
mod rules;
mod scope;
mod spaces;
mod stack;
mod valid;

pub use invalid::{Invalid, Refused};
pub use jumps::{Jump, Jumps};
pub use valid::{ValidModule, validate};
