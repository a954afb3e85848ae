//! The host calls by their names.

ghost use Rattle.std.specs.Prelude.{◌≡◌, ◌↔◌, IsTrue, bytes_eq, position, option_map, slice_get};
ghost use Rattle.faaslet_meaning.specs.HostCalls.{number_of, host_rows, type_of_row};
ghost use Rattle.function_rules.specs.Signatures.{func_type};
ghost use Rattle.function_rules.specs.HostCalls.{IsTypeOf, IsTypedCall};

use crate::signature::{Signature, func_type, has_type};
use faaslet_meaning::{FuncType, ValType};

/// In the order of their numbers.
const HOST_NAMES: [&str; 23] = [
    "state_size",
    "state_used",
    "get_state",
    "read_state",
    "set_state",
    "push_state",
    "pull_state",
    "push_state_offset",
    "pull_state_offset",
    "append_state",
    "lock_state_read",
    "lock_state_write",
    "unlock_state",
    "lock_global_read",
    "lock_global_write",
    "unlock_global",
    "input_size",
    "read_input",
    "write_output",
    "chain_call",
    "await_call",
    "output_size",
    "read_output",
];

/// In the same order.
const HOST_TYPES: [Signature; 23] = [
    Signature {
        params: 1,
        result: Some(ValType::I32),
    }, // state_size
    Signature {
        params: 1,
        result: Some(ValType::I32),
    }, // state_used
    Signature {
        params: 1,
        result: Some(ValType::I32),
    }, // get_state
    Signature {
        params: 4,
        result: None,
    }, // read_state
    Signature {
        params: 4,
        result: None,
    }, // set_state
    Signature {
        params: 1,
        result: None,
    }, // push_state
    Signature {
        params: 1,
        result: None,
    }, // pull_state
    Signature {
        params: 3,
        result: None,
    }, // push_state_offset
    Signature {
        params: 3,
        result: None,
    }, // pull_state_offset
    Signature {
        params: 3,
        result: Some(ValType::I32),
    }, // append_state
    Signature {
        params: 1,
        result: None,
    }, // lock_state_read
    Signature {
        params: 1,
        result: None,
    }, // lock_state_write
    Signature {
        params: 1,
        result: None,
    }, // unlock_state
    Signature {
        params: 1,
        result: None,
    }, // lock_global_read
    Signature {
        params: 1,
        result: None,
    }, // lock_global_write
    Signature {
        params: 1,
        result: None,
    }, // unlock_global
    Signature {
        params: 0,
        result: Some(ValType::I32),
    }, // input_size
    Signature {
        params: 3,
        result: None,
    }, // read_input
    Signature {
        params: 2,
        result: None,
    }, // write_output
    Signature {
        params: 3,
        result: Some(ValType::I32),
    }, // chain_call
    Signature {
        params: 1,
        result: Some(ValType::I64),
    }, // await_call
    Signature {
        params: 1,
        result: Some(ValType::I32),
    }, // output_size
    Signature {
        params: 4,
        result: None,
    }, // read_output
];

fn is_spelled(text: &str, name: &[u8]) -> bool
    ensures { result ≡ bytes_eq text.now name.now }
{
    text.as_bytes() == name
}

fn place_of(names: &[&str], name: &[u8]) -> Option<usize>
    ensures { result ≡ position (λ n. bytes_eq n.now name.now) names.now }
{
    names.iter().position(|n| is_spelled(n, name))
}

/// The number of the host call of this name.
fn number_of(name: &[u8]) -> Option<usize>
    ensures { result ≡ number_of name.now }
{
    place_of(&HOST_NAMES, name)
}

fn type_at(types: &[Signature], number: usize) -> Option<Signature>
    ensures { result ≡ slice_get types.now number }
{
    types.get(number).copied()
}

fn host_type(number: usize) -> Option<Signature>
    ensures { option_map func_type result ≡ option_map type_of_row (slice_get host_rows number) }
{
    type_at(&HOST_TYPES, number)
}

/// Whether type number `t` is that of the host call with this number.
#[tactic(auto, using(crate::proofs::Tables::typed, crate::proofs::Tables::typed_as, crate::proofs::Tables::no_row))]
fn has_host_type(types: &[FuncType], number: usize, t: u32) -> bool
    ensures { IsTrue result ↔ IsTypeOf types.now number t }
{
    match (func_type(types, t), host_type(number)) {
        (Some(t), Some(host)) => has_type(t, host),
        _ => false,
    }
}

/// Whether type number `t` is that of the host call of this name.
pub fn is_typed_call(types: &[FuncType], name: &[u8], t: u32) -> bool
    ensures { IsTrue result ↔ IsTypedCall types.now name.now t }
{
    match number_of(name) {
        Some(number) => has_host_type(types, number, t),
        None => false,
    }
}
