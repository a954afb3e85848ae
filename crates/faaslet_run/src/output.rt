//! The output of a call.

ghost use Rattle.std.specs.Prelude.{◌≡◌, ◌+◌, ◌≤◌, [], ◌++◌, IfOk, length};
ghost use Rattle.faaslet_meaning.specs.Memory.{over};

use std::alloc::{AllocError, Global};
use std::marker::Model;

/// How long an output may be.
const OUTPUT: usize = 65_536;

/// At most 65,536 bytes, for which there is room.
#[derive(Drop)]
pub struct Output {
    bytes: Vec<u8>,
    len: usize,
}

impl Model for Output {
    ghost use Rattle.std.specs.Prelude.{ℕ, List, length, take, ◌≡◌, ◌≤◌};

    ghost Value = { List ℕ };

    ghost view = { λ o. take o.len o.bytes.items };

    ghost invariant = { λ o. (length o.bytes.items ≡ 65536) × (o.len ≤ 65536) };
}

// Lays bytes over others.
fn lay(bytes: &mut [u8], at: usize, new: &[u8])
    requires { at + length new.now ≤ length bytes.old }
    ensures { bytes.new ≡ over bytes.old at new.now }
{
    let end = at + new.len();
    bytes[at..end].copy_from_slice(new);
}

impl Output {
    pub fn new(alloc: Global) -> Result<Output, AllocError>
        ensures { IfOk result (λ o. o ≡ []) }
    {
        let bytes = vec![in alloc; 0; OUTPUT]?;
        Ok(Output { bytes, len: 0 })
    }

    /// No bytes any more.
    pub fn clear(&mut self)
        ensures { self.new ≡ [] }
    {
        self.len = 0;
    }

    pub fn len(&self) -> u32
        ensures { result ≡ length self.now }
    {
        self.len as u32
    }

    pub fn as_slice(&self) -> &[u8]
        ensures { result.now ≡ self.now }
    {
        &self.bytes[..self.len]
    }

    pub fn append(&mut self, new: &[u8])
        requires { length self.old + length new.now ≤ 65536 }
        ensures { self.new ≡ self.old ++ new.now }
    {
        lay(self.bytes.as_mut_slice(), self.len, new);
        self.len += new.len();
    }
}
