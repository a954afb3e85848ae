//! How a run begins, and how it goes on after a host call.

ghost use Rattle.std.specs.Prelude.{◌≡◌, ◌≤◌, [], Ok, length, IfOk};
ghost use Rattle.faaslet_meaning.specs.declared.module.FuncType.{FuncType};
ghost use Rattle.faaslet_meaning.specs.Configuration.{Configuration};
ghost use Rattle.faaslet_meaning.specs.ControlRules.{entered};
ghost use Rattle.faaslet_meaning.specs.Memory.{Memory};
ghost use Rattle.faaslet_meaning.specs.Step.{finished};
ghost use Rattle.faaslet_meaning.specs.Tree.{Tree};
ghost use Rattle.wasm_interp.specs.Callees.{OwnIs};
ghost use Rattle.wasm_interp.specs.Stands.{Stands};
ghost use Rattle.wasm_interp.specs.StandsFor.{StageStands};
ghost use Rattle.wasm_interp.specs.Rooms.{SameRooms};

use crate::cells::Cells;
use crate::functions::Own;
use crate::machine::{Room, Stage};
use crate::stack::Stack;
use crate::thread::{Frame, Thread};
use crate::value_stack::Values;
use faaslet_meaning::{Outcome, Trap};
use std::alloc::{AllocError, Global};

impl<'m> Thread<'m> {
    /// A thread that has begun nothing, with room for all that it ever holds.
    pub fn new(alloc: Global, room: Room) -> Result<Thread<'m>, AllocError>
        ensures { IfOk result (λ t. (t.globals.room ≡ room.globals) × (t.table.room ≡ room.table)) }
    {
        Ok(Thread {
            values: Values::new(alloc)?,
            labels: Stack::new(alloc)?,
            frames: Stack::new(alloc)?,
            here: Frame {
                code: &[],
                jumps: &[],
                pc: 0,
                base: 0,
                height: 0,
                depth: 0,
                arity: 0,
            },
            globals: Cells::new(alloc, room.globals)?,
            table: Cells::new(alloc, room.table)?,
            fuel: 0,
        })
    }

    /// Begins a body without parameters.
    pub fn begin(&mut self, own: Own<'m>, globals: &[u64], table: &[Option<u32>], fuel: u64)
        requires few { own.locals ≤ 65536 }
        requires globals { length globals.now ≤ self.old.globals.room }
        requires table { length table.now ≤ self.old.table.room }
        ensures stands { (memory : Memory) (t : FuncType) (body : Tree) → t.params ≡ [] → OwnIs t own.entry.locals body own.entry
            → Stands memory self.new (record { frame = entered t own.entry.locals body []; callers = []; globals = globals.now; table = table.now; memory = memory; fuel = fuel }) }
        ensures rooms { SameRooms self.old self.new }
    {
        self.values.cut(self.values.len());
        self.labels.cut(self.labels.len());
        self.frames.cut(self.frames.len());
        self.values.put_zeros(own.locals);
        self.here = Frame {
            code: own.code,
            jumps: own.jumps,
            pc: 0,
            base: 0,
            height: own.locals as usize,
            depth: 0,
            arity: own.results,
        };
        self.globals.fill(globals);
        self.table.fill(table);
        self.fuel = fuel;
    }

    // Goes on after a host call with this result.
    fn receive(&mut self, value: Option<u64>) -> Stage
        ensures done { (memory : Memory) (c : Configuration) → Stands memory self.old c → StageStands memory self.new result (finished c (Ok value)) }
        ensures rooms { SameRooms self.old self.new }
    {
        let Some(v) = value else {
            return Stage::Runs;
        };
        match self.put(v) {
            None => Stage::Runs,
            Some(outcome) => Stage::Over(outcome),
        }
    }

    /// Goes on after a host call.
    pub fn finish(&mut self, answer: Result<Option<u64>, Trap>) -> Stage
        ensures done { (memory : Memory) (c : Configuration) → Stands memory self.old c → StageStands memory self.new result (finished c answer) }
        ensures rooms { SameRooms self.old self.new }
    {
        match answer {
            Ok(value) => self.receive(value),
            Err(trap) => Stage::Over(Outcome::Trap(trap)),
        }
    }
}
