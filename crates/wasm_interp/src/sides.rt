//! The scratch, the second buffer, and the memory, as the layers above use them.

ghost use Rattle.std.specs.Prelude.{◌≡◌, ℕ, ◌+◌, ◌≤◌, List, Some, IsTrue, length, take, drop};
ghost use Rattle.std.specs.Borrow.{sem};
ghost use Rattle.faaslet_meaning.specs.declared.grant.Grant.{Grant};
ghost use Rattle.faaslet_meaning.specs.declared.module.Module.{Module};
ghost use Rattle.faaslet_meaning.specs.Configuration.{Configuration, Next};
ghost use Rattle.faaslet_meaning.specs.Memory.{IsMemory, IsPrivate, lies_in, over, put, read_bytes};
ghost use Rattle.wasm_interp.specs.Lending.{LendsScratch, LendsAside, LendsMemory};
ghost use Rattle.wasm_interp.specs.StandsFor.{StandsFor, config_of};

use crate::machine::Machine;
use faaslet_meaning::Linear;

impl<'m, M: Linear> Machine<'m, M> {
    /// The scratch, 65,536 bytes.
    pub fn scratch_mut(&mut self) -> &mut [u8]
        ensures* writes_back { sem 𝓛 (LendsScratch M.row self.entry result) }
        ensures bytes { result.now ≡ self.old.scratch }
        ensures long { length result.now ≡ 65536 }
    {
        self.scratch.as_mut_slice()
    }

    /// The second buffer, 65,536 bytes, which no reply touches.
    pub fn aside_mut(&mut self) -> &mut [u8]
        ensures* writes_back { sem 𝓛 (LendsAside M.row self.entry result) }
        ensures bytes { result.now ≡ self.old.aside }
        ensures long { length result.now ≡ 65536 }
    {
        self.aside.as_mut_slice()
    }

    /// The memory.
    pub fn memory_mut(&mut self) -> &mut M
        ensures* writes_back { sem 𝓛 (LendsMemory M.row self.entry result) }
        ensures same { result.now ≡ self.old.memory }
        ensures stands { (code : Module) (grants : List Grant) (given : ℕ) (n : Next) (c : Configuration)
            → StandsFor M.memory self.old code grants given n → config_of n ≡ Some c → M.memory result.now ≡ c.memory }
    {
        &mut self.memory
    }

    /// Copies the first `len` bytes of the scratch to place `at` of the second buffer.
    pub fn put_aside(&mut self, at: u32, len: u32)
        requires { at + len ≤ 65536 }
        ensures { self.new ≡ record self.old { aside = over self.old.aside at (take len self.old.scratch) } }
    {
        self.aside
            .copy_from(at as usize, &self.scratch, 0, len as usize);
    }

    /// Copies `len` bytes at place `at` of the second buffer to the front of the scratch.
    pub fn bring_back(&mut self, at: u32, len: u32)
        requires { at + len ≤ 65536 }
        ensures { self.new ≡ record self.old { scratch = over self.old.scratch 0 (take len (drop at self.old.aside)) } }
    {
        self.scratch
            .copy_from(0, &self.aside, at as usize, len as usize);
    }

    /// Copies `len` private bytes of the memory at `addr` to place `at` of the second buffer.
    pub fn load_aside(&mut self, addr: u64, at: u32, len: u32)
        requires room { at + len ≤ 65536 }
        requires inside { IsTrue (lies_in (M.memory self.old.memory) addr len) }
        requires private { IsPrivate (M.memory self.old.memory) addr len }
        ensures { self.new ≡ record self.old { aside = over self.old.aside at (read_bytes addr len (M.memory self.old.memory).bytes) } }
    {
        load_bytes(
            &self.memory,
            addr,
            self.aside.as_mut_slice(),
            at as usize,
            len as usize,
        );
    }

    /// Copies `len` bytes at place `at` of the second buffer to the private memory at `addr`.
    pub fn store_aside(&mut self, addr: u64, at: u32, len: u32)
        requires room { at + len ≤ 65536 }
        requires inside { IsTrue (lies_in (M.memory self.old.memory) addr len) }
        requires private { IsPrivate (M.memory self.old.memory) addr len }
        ensures same { self.new ≡ record self.old { memory = self.new.memory } }
        ensures put { M.memory self.new.memory ≡ put (M.memory self.old.memory) addr (take len (drop at self.old.aside)) }
        ensures sound { IsMemory (M.memory self.new.memory) }
        ensures backing { M.backing self.new.memory ≡ M.backing self.old.memory }
    {
        let at = at as usize;
        let end = at + len as usize;
        self.memory
            .write_private(addr, &self.aside.as_slice()[at..end]);
    }
}

// Reads private bytes to a place of a buffer.
fn load_bytes<M: Linear>(memory: &M, addr: u64, bytes: &mut [u8], at: usize, len: usize)
    requires room { at + len ≤ length bytes.old }
    requires inside { IsTrue (lies_in (M.memory memory.now) addr len) }
    requires private { IsPrivate (M.memory memory.now) addr len }
    ensures { bytes.new ≡ over bytes.old at (read_bytes addr len (M.memory memory.now).bytes) }
{
    let end = at + len;
    memory.read_private(addr, &mut bytes[at..end]);
}
