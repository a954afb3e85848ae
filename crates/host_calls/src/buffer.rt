//! The bytes of a buffer go between memory and the second buffer: its private pieces are copied, its shared ones are
//! asked for one by one, the lowest address first.

ghost use Rattle.std.specs.Prelude.{◌≡◌, ◌+◌, ◌<◌, ◌≤◌, ◌^◌, drop, length, take, IfSome};
ghost use Rattle.faaslet_meaning.specs.Memory.{IsMemory};
ghost use Rattle.host_calls.specs.Buffers.{IsWithin, StopsAt, reading_on, written_on};

use crate::span::{Reached, Shared, Span, next_piece};
use faaslet_meaning::{Home, Linear};
use wasm_interp::Machine;

// A buffer of which so many bytes are through stands at a shared piece.
fn stopped(span: Span, done: u32, place: u32, off: u64, len: u64) -> Reached
    requires off { off < 2 ^ 32 }
    requires len { len < 2 ^ 32 }
    ensures { result ≡ record {
      span = record { ptr = span.ptr; len = span.len; done = done; next = len };
      piece = Some (record { place = place; off = off; len = len });
    } }
{
    let len = len as u32;
    Reached {
        span: Span {
            ptr: span.ptr,
            len: span.len,
            done,
            next: len,
        },
        piece: Some(Shared {
            place,
            off: off as u32,
            len,
        }),
    }
}

/// How many bytes the second buffer has.
pub fn room<'m, M: Linear>(machine: &mut Machine<'m, M>) -> usize
    ensures same { machine.new ≡ machine.old }
    ensures long { length machine.old.aside ≡ 65536 }
{
    machine.aside_mut().len()
}

/// How many bytes the scratch has.
pub fn scratch_room<'m, M: Linear>(machine: &mut Machine<'m, M>) -> usize
    ensures same { machine.new ≡ machine.old }
    ensures long { length machine.old.scratch ≡ 65536 }
{
    machine.scratch_mut().len()
}

// How many pages the memory has; it keeps to what every memory does.
fn pages<'m, M: Linear>(machine: &mut Machine<'m, M>) -> u32
    ensures same { machine.new ≡ machine.old }
    ensures sound { IsMemory (M.memory machine.old.memory) }
{
    machine.memory_mut().pages()
}

/// Changes nothing, and tells what every machine keeps to.
pub fn sized<'m, M: Linear>(machine: &mut Machine<'m, M>)
    ensures same { machine.new ≡ machine.old }
    ensures aside { length machine.old.aside ≡ 65536 }
    ensures scratch { length machine.old.scratch ≡ 65536 }
    ensures sound { IsMemory (M.memory machine.old.memory) }
{
    let _pages = pages(machine);
    let _aside = room(machine);
    let _scratch = scratch_room(machine);
}

/// Reads a buffer on into the second buffer, up to the next shared piece or to its end.
pub fn fetch<'m, M: Linear>(machine: &mut Machine<'m, M>, from: Span) -> Reached
    requires within { IsWithin (M.memory machine.old.memory) from }
    ensures only { machine.new ≡ record machine.old { aside = machine.new.aside } }
    ensures where_ { (result.span.ptr ≡ from.ptr) × (result.span.len ≡ from.len) }
    ensures within { IsWithin (M.memory machine.old.memory) result.span }
    ensures same { reading_on (M.memory machine.old.memory) result.span machine.new.aside ≡ reading_on (M.memory machine.old.memory) from machine.old.aside }
    ensures stops { StopsAt (M.memory machine.old.memory) result.span result.piece }
    ensures long { length machine.new.aside ≡ 65536 }
    ensures sound { IsMemory (M.memory machine.old.memory) }
{
    let _pages = pages(machine);
    let _room = room(machine);
    let mut span = from;
    'pieces: while span.done < span.len {
        let piece = next_piece(machine, span);
        if let Home::Shared { place, off } = piece.home {
            return stopped(span, span.done, place, off, piece.len);
        }
        let len = piece.len as u32;
        machine.load_aside(span.address(), span.done, len);
        span.done += len;
    }
    Reached { span, piece: None }
}

// Writes a buffer on from the second buffer, up to the next shared piece or to its end.
fn store_on<'m, M: Linear>(machine: &mut Machine<'m, M>, from: Span) -> Reached
    requires within { IsWithin (M.memory machine.old.memory) from }
    ensures only { machine.new ≡ record machine.old { memory = machine.new.memory } }
    ensures backing { M.backing machine.new.memory ≡ M.backing machine.old.memory }
    ensures where_ { (result.span.ptr ≡ from.ptr) × (result.span.len ≡ from.len) }
    ensures within { IsWithin (M.memory machine.new.memory) result.span }
    ensures same { written_on (M.memory machine.new.memory) result.span machine.old.aside ≡ written_on (M.memory machine.old.memory) from machine.old.aside }
    ensures stops { StopsAt (M.memory machine.new.memory) result.span result.piece }
{
    let mut span = from;
    'pieces: while span.done < span.len {
        let piece = next_piece(machine, span);
        if let Home::Shared { place, off } = piece.home {
            return stopped(span, span.done, place, off, piece.len);
        }
        let len = piece.len as u32;
        machine.store_aside(span.address(), span.done, len);
        span.done += len;
    }
    Reached { span, piece: None }
}

/// Writes a buffer on from the second buffer. Where it comes to a shared piece, the bytes of that are at the front of the
/// scratch.
pub fn send<'m, M: Linear>(machine: &mut Machine<'m, M>, from: Span) -> Reached
    requires within { IsWithin (M.memory machine.old.memory) from }
    ensures only { machine.new ≡ record machine.old { memory = machine.new.memory; scratch = machine.new.scratch } }
    ensures backing { M.backing machine.new.memory ≡ M.backing machine.old.memory }
    ensures where_ { (result.span.ptr ≡ from.ptr) × (result.span.len ≡ from.len) }
    ensures within { IsWithin (M.memory machine.new.memory) result.span }
    ensures same { written_on (M.memory machine.new.memory) result.span machine.old.aside ≡ written_on (M.memory machine.old.memory) from machine.old.aside }
    ensures stops { StopsAt (M.memory machine.new.memory) result.span result.piece }
    ensures bytes { IfSome result.piece (λ p. take p.len machine.new.scratch ≡ take p.len (drop result.span.done machine.old.aside)) }
    ensures long { length machine.new.scratch ≡ 65536 }
{
    let _room = room(machine);
    let _scratch = scratch_room(machine);
    let reached = store_on(machine, from);
    if let Some(piece) = reached.piece {
        machine.bring_back(reached.span.done, piece.len);
    }
    reached
}
