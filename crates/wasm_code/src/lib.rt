//! Numbers and bodies of the binary format.
#![tactic(auto)]

mod body;
mod fault;
mod instr;
mod locals;
mod nesting;
mod number;

pub use body::{expression_at, read_body};
pub use fault::BodyFault;
pub use instr::val_type_at;
pub use number::{Malformed, byte_at, read_s32, read_s64, read_u32, s32_at, s64_at, u32_at};

#[cfg(test)]
mod tests;
