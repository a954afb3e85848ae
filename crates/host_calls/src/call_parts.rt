//! The parts that host calls on calls are made of: questions, answers, and bytes that come from elsewhere.

ghost use Rattle.std.specs.Prelude.{◌≡◌, ◌+◌, ◌≤◌, drop, length, slice_range, take};
ghost use Rattle.faaslet_meaning.specs.Serve.{await_answer};
ghost use Rattle.host_calls.specs.Parts.{reading_ask, writing_ask};
ghost use Rattle.host_calls.specs.Reads.{key_of};

use crate::buffer::room;
use crate::modes::key_at;
use crate::span::Shared;
use faaslet_meaning::{Ask, AskOp, Channel, Grant, Linear, Outcome};
use wasm_interp::Machine;

/// The question for a shared piece that is read.
pub fn read_ask(grants: &[Grant], piece: Shared) -> Ask
    ensures { result ≡ reading_ask (key_of grants.now piece.place) piece }
{
    Ask::Region {
        channel: Channel::Local(key_at(grants, piece.place)),
        op: AskOp::Read {
            off: piece.off,
            len: piece.len,
        },
    }
}

/// The question for a shared piece that is written, with its bytes at the front of the scratch.
pub fn write_ask(grants: &[Grant], piece: Shared) -> Ask
    ensures { result ≡ writing_ask (key_of grants.now piece.place) piece }
{
    Ask::Region {
        channel: Channel::Local(key_at(grants, piece.place)),
        op: AskOp::Write {
            off: piece.off,
            len: piece.len,
        },
    }
}

/// What `await_call` answers: a status in the upper half, and in the lower one the result where there is one.
pub fn await_answer(outcome: Outcome) -> u64
    ensures { result ≡ await_answer outcome }
{
    match outcome {
        Outcome::Done(code) => u64::from(code.cast_unsigned()),
        Outcome::Trap(_) => 1 << 32,
        Outcome::FuelOut => 2 << 32,
        Outcome::Broken(_) => 3 << 32,
        Outcome::Want => 4 << 32,
    }
}

// Bytes at the front of others.
fn put_front(bytes: &mut [u8], new: &[u8])
    requires { length new.now ≤ length bytes.old }
    ensures { take (length new.now) bytes.new ≡ new.now }
{
    bytes[..new.len()].copy_from_slice(new);
}

/// Bytes of the input from a place on come to the front of the second buffer.
pub fn take_input<'m, M: Linear>(machine: &mut Machine<'m, M>, input: &[u8], off: u32, len: u32)
    requires inside { off + len ≤ length input.now }
    requires few { len ≤ 65536 }
    ensures only { machine.new ≡ record machine.old { aside = machine.new.aside } }
    ensures held { take len machine.new.aside ≡ slice_range input.now off (off + len) }
    ensures long { length machine.new.aside ≡ 65536 }
{
    let off = off as usize;
    let end = off + len as usize;
    put_front(machine.aside_mut(), &input[off..end]);
}

// Bytes from a place on come to the front.
fn bring_front(bytes: &mut [u8], off: usize, len: usize)
    requires { off + len ≤ length bytes.old }
    ensures { take len bytes.new ≡ take len (drop off bytes.old) }
{
    bytes.copy_within(off..off + len, 0);
}

/// The bytes of the scratch from a place on come to the front of the second buffer.
pub fn take_output<'m, M: Linear>(machine: &mut Machine<'m, M>, off: u32, len: u32)
    requires few { off + len ≤ 65536 }
    ensures only { machine.new ≡ record machine.old { aside = machine.new.aside; scratch = machine.new.scratch } }
    ensures held { take len machine.new.aside ≡ take len (drop off machine.old.scratch) }
    ensures long { length machine.new.aside ≡ 65536 }
{
    bring_front(machine.scratch_mut(), off as usize, len as usize);
    machine.put_aside(0, len);
    let _room = room(machine);
}
