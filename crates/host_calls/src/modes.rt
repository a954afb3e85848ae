//! Whether a buffer lies in memory, and its shared pieces were granted.

ghost use Rattle.std.specs.Prelude.{◌≡◌, ◌+◌, ◌≤◌, IsTrue, OnSome, None, slice_get};
ghost use Rattle.faaslet_meaning.specs.HostCalls as host;
ghost use Rattle.faaslet_meaning.specs.Memory.{lies_in, shared_pieces};
ghost use Rattle.faaslet_meaning.specs.MemoryRules.{all_granted, granted, includes};
ghost use Rattle.host_calls.specs.Buffers.{IsWithin};
ghost use Rattle.host_calls.specs.Reads.{buffer_trap, key_of};

use crate::span::{Span, next_piece};
use faaslet_meaning::{Grant, Home, Linear, Mode, Trap};
use wasm_interp::Machine;

pub fn includes(mode: Mode, needs: Mode) -> bool
    ensures { result ≡ includes mode needs }
{
    match mode {
        Mode::Write => true,
        Mode::Read => needs == Mode::Read,
    }
}

/// Whether the grant at a place has the mode.
pub fn has_mode(grants: &[Grant], place: u32, needs: Mode) -> bool
    ensures { result ≡ granted needs (slice_get grants.now place) }
{
    match grants.get(place as usize) {
        Some(grant) => includes(grant.mode, needs),
        None => false,
    }
}

/// The key at a place, or 0 where there is none.
pub fn key_at(grants: &[Grant], place: u32) -> u32
    ensures { result ≡ key_of grants.now place }
{
    match grants.get(place as usize) {
        Some(grant) => grant.key,
        None => 0,
    }
}

// Whether every shared piece of a buffer was granted with the mode.
fn all_granted<'m, M: Linear>(
    machine: &mut Machine<'m, M>,
    grants: &[Grant],
    needs: Mode,
    from: Span,
) -> bool
    requires within { IsWithin (M.memory machine.old.memory) from }
    ensures same { machine.new ≡ machine.old }
    ensures all { from.done ≡ 0 → result ≡ all_granted grants.now needs (shared_pieces (M.memory machine.old.memory) from.ptr from.len) }
{
    let mut span = from;
    'pieces: while span.done < span.len {
        let piece = next_piece(machine, span);
        if let Home::Shared { place, .. } = piece.home {
            if !has_mode(grants, place, needs) {
                return false;
            }
        }
        span.done += piece.len as u32;
    }
    true
}

fn lies_in<'m, M: Linear>(machine: &mut Machine<'m, M>, ptr: u32, len: u32) -> bool
    ensures same { machine.new ≡ machine.old }
    ensures inside { result ≡ lies_in (M.memory machine.old.memory) ptr len }
{
    machine
        .memory_mut()
        .check(u64::from(ptr), u64::from(len))
        .is_ok()
}

/// The buffer lies in memory, and every shared piece of it has its mode; else the trap of the first that isn't so.
pub fn check_buffer<'m, M: Linear>(
    machine: &mut Machine<'m, M>,
    grants: &[Grant],
    needs: Mode,
    span: Span,
) -> Option<Trap>
    requires few { span.len ≤ 65536 }
    requires first { span.done ≡ 0 }
    ensures same { machine.new ≡ machine.old }
    ensures trap { result ≡ buffer_trap grants.now (M.memory machine.old.memory) needs span.ptr span.len }
{
    if !lies_in(machine, span.ptr, span.len) {
        return Some(Trap::OutOfBounds);
    }
    if !all_granted(machine, grants, needs, span) {
        return Some(Trap::Denied);
    }
    None
}
