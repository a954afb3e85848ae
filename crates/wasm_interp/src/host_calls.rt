//! The host calls: their names and the lengths of their buffers.

ghost use Rattle.std.specs.Prelude.{◌≡◌, ◌≤◌, Some, bytes_eq, drop, length, map, option_and_then, option_map, position, reverse, slice_get, take};
ghost use Rattle.std.specs.Int.{w32};
ghost use Rattle.faaslet_meaning.specs.HostCalls.{HostCall, HostRow, arity, buffer_of, host_rows, made};
ghost use Rattle.faaslet_meaning.specs.Integers.{low};
ghost use Rattle.faaslet_meaning.specs.Program.{host_number};

use crate::value_stack::Values;

/// In the order of their numbers.
const HOST_NAMES: [&str; 23] = [
    "state_size",
    "state_used",
    "get_state",
    "read_state",
    "set_state",
    "push_state",
    "pull_state",
    "push_state_offset",
    "pull_state_offset",
    "append_state",
    "lock_state_read",
    "lock_state_write",
    "unlock_state",
    "lock_global_read",
    "lock_global_write",
    "unlock_global",
    "input_size",
    "read_input",
    "write_output",
    "chain_call",
    "await_call",
    "output_size",
    "read_output",
];

/// Which argument is the length of a buffer, in the same order.
const BUFFER_LENGTHS: [Option<usize>; 23] = [
    None,
    None,
    None,
    Some(3), // read_state
    Some(3), // set_state
    None,
    None,
    None,
    None,
    Some(2), // append_state
    None,
    None,
    None,
    None,
    None,
    None,
    None,
    Some(2), // read_input
    Some(1), // write_output
    Some(2), // chain_call
    None,
    None,
    Some(3), // read_output
];

fn is_spelled(text: &str, name: &[u8]) -> bool
    ensures { result ≡ bytes_eq text.now name.now }
{
    text.as_bytes() == name
}

fn place_of(names: &[&str], name: &[u8]) -> Option<usize>
    ensures { result ≡ position (λ n. bytes_eq n.now name.now) names.now }
{
    names.iter().position(|n| is_spelled(n, name))
}

/// The number of the host call of this name, or one past all of them.
pub fn host_number(name: &[u8]) -> usize
    ensures { result ≡ host_number name.now }
{
    match place_of(&HOST_NAMES, name) {
        Some(number) => number,
        None => HOST_NAMES.len(),
    }
}

fn length_place(table: &[Option<usize>], call: usize) -> Option<usize>
    ensures { result ≡ option_and_then (λ place. place) (slice_get table.now call) }
{
    match table.get(call) {
        Some(place) => *place,
        None => None,
    }
}

fn arg_at(args: &[u64], place: usize) -> Option<u64>
    ensures { result ≡ slice_get args.now place }
{
    args.get(place).copied()
}

/// How long the buffer of a host call with these arguments is, where it has one.
pub fn buffer_length(call: usize, args: &[u64; 4]) -> Option<u64>
    ensures { (row : HostRow) (h : HostCall) → slice_get host_rows call ≡ Some row → made row.form (take (arity row.form) args.now) ≡ Some h
        → result ≡ option_map (λ b. b.len) (buffer_of h) }
{
    match length_place(&BUFFER_LENGTHS, call) {
        Some(place) => arg_at(args, place),
        None => None,
    }
}

/// Takes so many arguments off the values, each as an i32. They stand in order, the last was topmost.
pub fn take_args(values: &mut Values, params: usize) -> [u64; 4]
    requires few { params ≤ 4 }
    requires there { params ≤ length values.old }
    ensures args { take params result ≡ reverse (map (low w32) (take params values.old)) }
    ensures left { values.new ≡ drop params values.old }
{
    let mut args = [0; 4];
    let mut left = params;
    'pops: while left > 0 {
        left -= 1;
        args[left] = values.pop() % 0x1_0000_0000;
    }
    args
}
