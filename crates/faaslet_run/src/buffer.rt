//! Bytes of a fixed number.

ghost use Rattle.std.specs.Prelude.{◌≡◌, IfOk, length};
ghost use Rattle.std.specs.Borrow.{sem};
ghost use Rattle.faaslet_run.specs.Lending.{LendsBytes};

use std::alloc::{AllocError, Global};
use std::marker::Model;

/// How long an input and the bytes of a question or a reply may be.
const BUFFER: usize = 65_536;

/// 65,536 bytes.
#[derive(Drop)]
pub struct Buffer {
    bytes: Vec<u8>,
}

impl Model for Buffer {
    ghost use Rattle.std.specs.Prelude.{ℕ, List, length, ◌≡◌};

    ghost Value = { List ℕ };

    ghost view = { λ b. b.bytes.items };

    ghost invariant = { λ b. length b.bytes.items ≡ 65536 };
}

impl Buffer {
    pub fn new(alloc: Global) -> Result<Buffer, AllocError>
        ensures { IfOk result (λ b. length b ≡ 65536) }
    {
        let bytes = vec![in alloc; 0; BUFFER]?;
        Ok(Buffer { bytes })
    }

    pub fn as_slice(&self) -> &[u8]
        ensures bytes { result.now ≡ self.now }
        ensures long { length self.now ≡ 65536 }
    {
        self.bytes.as_slice()
    }

    /// Its bytes, to be written over.
    pub fn as_mut_slice(&mut self) -> &mut [u8]
        ensures* writes_back { sem 𝓛 (LendsBytes self.entry result) }
        ensures bytes { result.now ≡ self.old }
        ensures long { length result.now ≡ 65536 }
    {
        self.bytes.as_mut_slice()
    }
}
