//! Numeric instructions. W3C WebAssembly Core Specification 1.0, section 4.4.1.

ghost use Rattle.std.specs.Prelude.{◌≡◌, ◌<◌, ◌≤◌, length, Some};
ghost use Rattle.std.specs.Int.{Width};
ghost use Rattle.faaslet_meaning.specs.Integers.{Compare, Unary, Binary, Convert, numeric_of};
ghost use Rattle.faaslet_meaning.specs.Integers as rows;
ghost use Rattle.wasm_interp.specs.Stands.{Can, Does};
ghost use Rattle.wasm_interp.specs.Rooms.{SameRooms};

use crate::thread::Thread;
use faaslet_meaning::{Instr, Outcome};
use wasm_num::{binary, compare, convert, test, unary};

// The operands are replaced by what the operation gives.
impl<'m> Thread<'m> {
    #[inline(always)]
    fn test(&mut self, op: u8) -> Option<Outcome>
        requires class { (w : Width) × (numeric_of op ≡ Some (rows.test w)) }
        requires value { 0 < length self.old.values }
        ensures done { Does self.old (Instr.Num op) self.new result }
        ensures rooms { SameRooms self.old self.new }
    {
        let x = self.values.get(0);
        self.values.replace(test(op, x));
        None
    }

    #[inline(always)]
    fn compare(&mut self, op: u8) -> Option<Outcome>
        requires class { (f : Compare) × (w : Width) × (numeric_of op ≡ Some (rows.compare f w)) }
        requires values { 2 ≤ length self.old.values }
        ensures done { Does self.old (Instr.Num op) self.new result }
        ensures rooms { SameRooms self.old self.new }
    {
        let y = self.values.pop();
        let x = self.values.get(0);
        self.values.replace(compare(op, x, y));
        None
    }

    #[inline(always)]
    fn unary(&mut self, op: u8) -> Option<Outcome>
        requires class { (f : Unary) × (w : Width) × (numeric_of op ≡ Some (rows.unary f w)) }
        requires value { 0 < length self.old.values }
        ensures done { Does self.old (Instr.Num op) self.new result }
        ensures rooms { SameRooms self.old self.new }
    {
        let x = self.values.get(0);
        self.values.replace(unary(op, x));
        None
    }

    #[inline(always)]
    fn binary(&mut self, op: u8) -> Option<Outcome>
        requires class { (f : Binary) × (w : Width) × (numeric_of op ≡ Some (rows.binary f w)) }
        requires values { 2 ≤ length self.old.values }
        ensures done { Does self.old (Instr.Num op) self.new result }
        ensures rooms { SameRooms self.old self.new }
    {
        let y = self.values.pop();
        let x = self.values.get(0);
        match binary(op, x, y) {
            Ok(v) => {
                self.values.replace(v);
                None
            }
            Err(trap) => Some(Outcome::Trap(trap)),
        }
    }

    #[inline(always)]
    fn convert(&mut self, op: u8) -> Option<Outcome>
        requires class { (f : Convert) × (numeric_of op ≡ Some (rows.convert f)) }
        requires value { 0 < length self.old.values }
        ensures done { Does self.old (Instr.Num op) self.new result }
        ensures rooms { SameRooms self.old self.new }
    {
        let x = self.values.get(0);
        self.values.replace(convert(op, x));
        None
    }

    /// In the order of the opcodes.
    #[inline(always)]
    pub fn numeric(&mut self, op: u8) -> Option<Outcome>
        requires { Can self.old (Instr.Num op) }
        ensures done { Does self.old (Instr.Num op) self.new result }
        ensures rooms { SameRooms self.old self.new }
    {
        if op == 0x45 {
            self.test(op)
        } else if op == 0x50 {
            self.test(op)
        } else if op < 0x67 {
            self.compare(op)
        } else if op < 0x6A {
            self.unary(op)
        } else if op < 0x79 {
            self.binary(op)
        } else if op < 0x7C {
            self.unary(op)
        } else if op < 0xA7 {
            self.binary(op)
        } else {
            self.convert(op)
        }
    }
}
