//! A buffer of a host call, and its next piece.

ghost use Rattle.std.specs.Prelude.{◌≡◌, ◌+◌, ◌-◌, ◌<◌, ◌≤◌, ◌^◌};
ghost use Rattle.faaslet_meaning.specs.Memory.{IsMemory, IsFirstPiece};
ghost use Rattle.host_calls.specs.Buffers.{IsWithin};
ghost use Rattle.host_calls.specs.Homes.{IsNear};

use faaslet_meaning::{Linear, Piece};
use wasm_interp::Machine;

/// A buffer in linear memory: where it lies, how many of its bytes are through, and, where it stands at a shared piece,
/// how long that piece is.
#[derive(Clone, Copy)]
pub struct Span {
    pub ptr: u32,
    pub len: u32,
    pub done: u32,
    pub next: u32,
}

/// A shared piece: so many bytes of the replica at a place of the grants, from a byte of it on.
#[derive(Clone, Copy)]
pub struct Shared {
    pub place: u32,
    pub off: u32,
    pub len: u32,
}

/// How far a buffer has come, and the shared piece at which it stands, unless it is through.
#[derive(Clone, Copy)]
pub struct Reached {
    pub span: Span,
    pub piece: Option<Shared>,
}

impl Span {
    /// A buffer of which nothing is through.
    pub fn of(ptr: u32, len: u32) -> Span
        ensures { result ≡ record { ptr = ptr; len = len; done = 0; next = 0 } }
    {
        Span {
            ptr,
            len,
            done: 0,
            next: 0,
        }
    }

    /// The address of the first byte that isn't through.
    pub fn address(self) -> u64
        ensures { result ≡ self.ptr + self.done }
    {
        u64::from(self.ptr) + u64::from(self.done)
    }

    /// The shared piece at which it stands is through.
    pub fn passed(self) -> Span
        requires { self.done + self.next < 2 ^ 32 }
        ensures { result ≡ record self { done = self.done + self.next } }
    {
        Span {
            ptr: self.ptr,
            len: self.len,
            done: self.done + self.next,
            next: self.next,
        }
    }
}

/// The first piece of what isn't through.
pub fn next_piece<'m, M: Linear>(machine: &mut Machine<'m, M>, span: Span) -> Piece
    requires within { IsWithin (M.memory machine.old.memory) span }
    requires some { span.done < span.len }
    ensures same { machine.new ≡ machine.old }
    ensures first { IsFirstPiece (M.memory machine.old.memory) (span.ptr + span.done) (span.len - span.done) result }
    ensures some { 0 < result.len }
    ensures few { result.len ≤ span.len - span.done }
    ensures near { IsNear result.home }
    ensures sound { IsMemory (M.memory machine.old.memory) }
{
    machine
        .memory_mut()
        .piece_at(span.address(), u64::from(span.len - span.done))
}
