//! Loads and stores, the size of memory and its growth. W3C WebAssembly Core Specification 1.0, section 4.4.4.

ghost use Rattle.std.specs.Prelude.{◌≡◌, ℕ, ◌+◌, ◌<◌, ◌≤◌, ◌^◌, Some, length, slice_get};
ghost use Rattle.std.specs.Int.{w32};
ghost use Rattle.faaslet_meaning.specs.Configuration.{Program, Configuration};
ghost use Rattle.faaslet_meaning.specs.Integers.{low};
ghost use Rattle.faaslet_meaning.specs.LoadStore.{Load, load_of, load_size, store_of, bytes_of};
ghost use Rattle.faaslet_meaning.specs.MemoryRules.{load_at, store_at};
ghost use Rattle.wasm_interp.specs.Goes.{SameRun, Able, Done, Loaded, instruction};
ghost use Rattle.wasm_interp.specs.Stands.{Stands};
ghost use Rattle.wasm_interp.specs.StandsFor.{StageStands};
ghost use Rattle.wasm_interp.specs.declared.machine.Stage.TheVariants as stages;

use crate::machine::{Machine, Stage};
use crate::pieces::{may_write, read_sized, write_sized};
use crate::rows::{load_bytes, load_value, store_bytes};
use crate::thread::Thread;
use faaslet_meaning::{Instr, Linear, Outcome, Trap};

impl<'m> Thread<'m> {
    // The effective address, from the value with so many above it.
    #[inline(always)]
    fn address(&self, above: usize, offset: u32) -> u64
        requires { above < length self.now.values }
        ensures sum { (x : ℕ) → slice_get self.now.values above ≡ Some x → result ≡ low w32 x + offset }
        ensures near { result < 2 ^ 33 }
    {
        self.values.get(above) % 0x1_0000_0000 + u64::from(offset)
    }
}

impl<'m, M: Linear> Machine<'m, M> {
    #[inline(always)]
    pub(crate) fn load(&mut self, op: u8, align: u32, offset: u32)
        requires { Able M.memory self.old (instruction (Instr.Load op align offset)) }
        ensures done { Done M.memory self.old self.new (instruction (Instr.Load op align offset)) }
        ensures same { SameRun M.backing self.old self.new }
    {
        let addr = self.thread.address(0, offset);
        let size = load_bytes(op);
        match read_sized(&self.memory, addr, size) {
            Some(number) => self.thread.values.replace(load_value(op, number)),
            None => self.load_slowly(op, addr, size),
        }
    }

    // A load that is not private throughout, or passes the end.
    fn load_slowly(&mut self, op: u8, addr: u64, size: u64)
        requires row { (l : Load) × (load_of op ≡ Some l) }
        requires size { (l : Load) → load_of op ≡ Some l → size ≡ load_size l }
        requires few { size ≤ 8 }
        requires near { addr < 2 ^ 33 }
        requires runs { self.old.stage ≡ stages.Runs }
        requires value { 0 < length self.old.thread.values }
        ensures done { (c : Configuration) (l : Load) → load_of op ≡ Some l → Stands (M.memory self.old.memory) self.old.thread c
            → 0 < length c.frame.values → StageStands (M.memory self.new.memory) self.new.thread self.new.stage (load_at c l addr) }
        ensures same { SameRun M.backing self.old self.new }
    {
        match self.memory.check(addr, size) {
            Ok(()) => self.read_rest(op, addr, size, 0, 0),
            Err(_) => self.stage = Stage::Over(Outcome::Trap(Trap::OutOfBounds)),
        }
    }

    #[inline(always)]
    pub(crate) fn store(&mut self, op: u8, align: u32, offset: u32)
        requires { Able M.memory self.old (instruction (Instr.Store op align offset)) }
        ensures done { Done M.memory self.old self.new (instruction (Instr.Store op align offset)) }
        ensures same { SameRun M.backing self.old self.new }
    {
        let value = self.thread.values.get(0);
        let addr = self.thread.address(1, offset);
        let size = store_bytes(op);
        if write_sized(&mut self.memory, addr, size, value) {
            self.thread.values.cut(2);
        } else {
            self.store_slowly(op, addr, size, value);
        }
    }

    // A store that is not private throughout, or passes the end. No byte is written before all modes were looked at.
    fn store_slowly(&mut self, op: u8, addr: u64, size: u64, value: u64)
        requires row { store_of op ≡ Some size }
        requires few { size ≤ 8 }
        requires near { addr < 2 ^ 33 }
        requires runs { self.old.stage ≡ stages.Runs }
        requires values { 2 ≤ length self.old.thread.values }
        ensures done { (p : Program) (c : Configuration) → Loaded self.old p → Stands (M.memory self.old.memory) self.old.thread c
            → 2 ≤ length c.frame.values
            → StageStands (M.memory self.new.memory) self.new.thread self.new.stage (store_at p c addr (bytes_of size value)) }
        ensures same { SameRun M.backing self.old self.new }
    {
        match self.memory.check(addr, size) {
            Ok(()) => {}
            Err(_) => {
                self.stage = Stage::Over(Outcome::Trap(Trap::OutOfBounds));
                return;
            }
        }
        if may_write(&self.memory, self.writable, addr, size) {
            self.write_rest(op, addr, size, 0, value);
        } else {
            self.stage = Stage::Over(Outcome::Trap(Trap::Denied));
        }
    }

    pub(crate) fn memory_size(&mut self)
        requires { Able M.memory self.old (instruction Instr.MemorySize) }
        ensures done { Done M.memory self.old self.new (instruction Instr.MemorySize) }
        ensures same { SameRun M.backing self.old self.new }
    {
        let pages = self.memory.pages();
        if let Some(outcome) = self.thread.put(u64::from(pages)) {
            self.stage = Stage::Over(outcome);
        }
    }

    pub(crate) fn memory_grow(&mut self)
        requires { Able M.memory self.old (instruction Instr.MemoryGrow) }
        ensures done { Done M.memory self.old self.new (instruction Instr.MemoryGrow) }
        ensures same { SameRun M.backing self.old self.new }
    {
        let pages = (self.thread.values.get(0) % 0x1_0000_0000) as u32;
        let most = self.most_pages();
        match self.memory.grow(pages, most) {
            Ok(old) => self.thread.values.replace(u64::from(old)),
            Err(_) => self.thread.values.replace(0xFFFF_FFFF),
        }
    }

    // The maximum of the module's memory; without one it has what there may be.
    fn most_pages(&self) -> u32
        requires { (p : Program) × Loaded self.now p }
        ensures { (p : Program) → Loaded self.now p → result ≡ p.most_pages }
    {
        let Some(code) = self.code else {
            unreachable!()
        };
        match code.module().memories.as_slice().first() {
            Some(limits) => limits.max.unwrap_or(65_536),
            None => 0,
        }
    }
}
