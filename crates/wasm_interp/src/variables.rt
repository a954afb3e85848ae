//! Constants, locals and globals. W3C WebAssembly Core Specification 1.0, sections 4.4.1, 4.4.2 and 4.4.3.

ghost use Rattle.std.specs.Prelude.{◌≢◌, ◌<◌, ◌≤◌, length, None};
ghost use Rattle.faaslet_meaning.specs.Configuration.{Configuration, stuck};
ghost use Rattle.faaslet_meaning.specs.Memory.{Memory};
ghost use Rattle.faaslet_meaning.specs.Step.{set_local};
ghost use Rattle.wasm_interp.specs.Stands.{Stands, Follows, Ready, Can, Does};
ghost use Rattle.wasm_interp.specs.Rooms.{SameRooms};

use crate::thread::Thread;
use faaslet_meaning::{Instr, Outcome};

impl<'m> Thread<'m> {
    /// One more value, an i32.
    #[inline(always)]
    pub fn i32_const(&mut self, n: &i32) -> Option<Outcome>
        ensures done { Does self.old (Instr.I32Const n.now) self.new result }
        ensures rooms { SameRooms self.old self.new }
    {
        let value = *n;
        self.put(u64::from(value.cast_unsigned()))
    }

    /// One more value, an i64.
    #[inline(always)]
    pub fn i64_const(&mut self, n: &i64) -> Option<Outcome>
        ensures done { Does self.old (Instr.I64Const n.now) self.new result }
        ensures rooms { SameRooms self.old self.new }
    {
        let value = *n;
        self.put(value.cast_unsigned())
    }

    /// Takes the topmost value off.
    #[inline(always)]
    pub fn drop_top(&mut self) -> Option<Outcome>
        requires { 0 < length self.old.values }
        ensures done { Does self.old Instr.Drop self.new result }
        ensures rooms { SameRooms self.old self.new }
    {
        self.values.pop();
        None
    }

    /// Keeps the first of two values where the one on top is not zero, and else the second.
    #[inline(always)]
    pub fn select(&mut self) -> Option<Outcome>
        requires { 3 ≤ length self.old.values }
        ensures done { Does self.old Instr.Select self.new result }
        ensures rooms { SameRooms self.old self.new }
    {
        let condition = self.values.pop() % 0x1_0000_0000;
        let second = self.values.pop();
        if condition == 0 {
            self.values.replace(second);
        }
        None
    }

    /// One more value, that of a local.
    #[inline(always)]
    pub fn local_get(&mut self, k: u32) -> Option<Outcome>
        requires { Can self.old (Instr.LocalGet k) }
        ensures done { Does self.old (Instr.LocalGet k) self.new result }
        ensures rooms { SameRooms self.old self.new }
    {
        let _len = self.values.len();
        let v = self.values.at(self.here.base + k as usize);
        self.put(v)
    }

    // The frame's local is set, after its value was taken.
    #[inline(always)]
    fn set_local(&mut self, k: u32, v: u64)
        requires { Ready self.old (λ d. set_local d k v) }
        ensures done { (memory : Memory) (d : Configuration) → Stands memory self.old d → set_local d k v ≢ stuck → Follows memory self.new (set_local d k v) None }
        ensures rooms { SameRooms self.old self.new }
    {
        let _len = self.values.len();
        self.values.set_at(self.here.base + k as usize, v);
    }

    /// Takes the topmost value off, into a local.
    #[inline(always)]
    pub fn local_set(&mut self, k: u32) -> Option<Outcome>
        requires { Can self.old (Instr.LocalSet k) }
        ensures done { Does self.old (Instr.LocalSet k) self.new result }
        ensures rooms { SameRooms self.old self.new }
    {
        let v = self.values.pop();
        self.set_local(k, v);
        None
    }

    /// The topmost value into a local as well.
    #[inline(always)]
    pub fn local_tee(&mut self, k: u32) -> Option<Outcome>
        requires { Can self.old (Instr.LocalTee k) }
        ensures done { Does self.old (Instr.LocalTee k) self.new result }
        ensures rooms { SameRooms self.old self.new }
    {
        let v = self.values.get(0);
        self.set_local(k, v);
        None
    }

    /// One more value, that of a global.
    #[inline(always)]
    pub fn global_get(&mut self, k: u32) -> Option<Outcome>
        requires { k < length self.old.globals.items }
        ensures done { Does self.old (Instr.GlobalGet k) self.new result }
        ensures rooms { SameRooms self.old self.new }
    {
        let v = self.globals.get(k as usize);
        self.put(v)
    }

    /// Takes the topmost value off, into a global.
    #[inline(always)]
    pub fn global_set(&mut self, k: u32) -> Option<Outcome>
        requires room { k < length self.old.globals.items }
        requires value { 0 < length self.old.values }
        ensures done { Does self.old (Instr.GlobalSet k) self.new result }
        ensures rooms { SameRooms self.old self.new }
    {
        let v = self.values.pop();
        self.globals.set(k as usize, v);
        None
    }
}
