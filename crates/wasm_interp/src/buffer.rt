//! Bytes of a fixed number.

ghost use Rattle.std.specs.Prelude.{◌≡◌, ◌+◌, ◌≤◌, length, take, drop, IfOk};
ghost use Rattle.faaslet_meaning.specs.LoadStore.{bytes_of};
ghost use Rattle.faaslet_meaning.specs.Memory.{over};
ghost use Rattle.std.specs.Borrow.{sem};
ghost use Rattle.wasm_interp.specs.Lending.{LendsBytes};

use crate::words::put_number;
use std::alloc::{AllocError, Global};
use std::marker::Model;

/// How long a buffer is.
pub const BUFFER: usize = 65_536;

/// 65,536 bytes.
#[derive(Drop)]
pub struct Buffer {
    bytes: Vec<u8>,
}

impl Model for Buffer {
    ghost use Rattle.std.specs.Prelude.{ℕ, List, length, ◌≡◌};

    ghost Value = { List ℕ };

    ghost view = { λ b. b.bytes.items };

    ghost invariant = { λ b. length b.bytes.items ≡ 65536 };
}

// The lowest bytes of a number, the lowest first, at the front.
fn put_lowest(bytes: &mut [u8], len: usize, value: u64)
    requires few { len ≤ 8 }
    requires room { len ≤ length bytes.old }
    ensures { take len bytes.new ≡ bytes_of len value }
{
    put_number(&mut bytes[..len], value);
}

// Lays bytes over others.
fn lay(bytes: &mut [u8], at: usize, new: &[u8])
    requires { at + length new.now ≤ length bytes.old }
    ensures { bytes.new ≡ over bytes.old at new.now }
{
    let end = at + new.len();
    bytes[at..end].copy_from_slice(new);
}

impl Buffer {
    /// An empty buffer, with all the memory that it ever takes.
    pub fn new(alloc: Global) -> Result<Buffer, AllocError>
        ensures { IfOk result (λ b. length b ≡ 65536) }
    {
        let bytes = vec![in alloc; 0; BUFFER]?;
        Ok(Buffer { bytes })
    }

    /// Its bytes.
    pub fn as_slice(&self) -> &[u8]
        ensures bytes { result.now ≡ self.now }
        ensures long { length self.now ≡ 65536 }
    {
        self.bytes.as_slice()
    }

    /// The lowest bytes of a number, the lowest first, at the front.
    pub fn put_front(&mut self, len: usize, value: u64)
        requires { len ≤ 8 }
        ensures { take len self.new ≡ bytes_of len value }
    {
        put_lowest(self.bytes.as_mut_slice(), len, value);
    }

    /// Its bytes, to be written over.
    pub fn as_mut_slice(&mut self) -> &mut [u8]
        ensures* writes_back { sem 𝓛 (LendsBytes self.entry result) }
        ensures bytes { result.now ≡ self.old }
        ensures long { length result.now ≡ 65536 }
    {
        self.bytes.as_mut_slice()
    }

    /// Copies bytes of another buffer.
    pub fn copy_from(&mut self, at: usize, other: &Buffer, from: usize, len: usize)
        requires to { at + len ≤ 65536 }
        requires of { from + len ≤ 65536 }
        ensures { self.new ≡ over self.old at (take len (drop from other.now)) }
    {
        let end = from + len;
        lay(self.bytes.as_mut_slice(), at, &other.as_slice()[from..end]);
    }
}
