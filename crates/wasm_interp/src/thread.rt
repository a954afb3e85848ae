//! Values, labels and frames, globals, table and fuel: all of a run but its memory.

ghost use Rattle.std.specs.Prelude.{◌<◌};
ghost use Rattle.faaslet_meaning.specs.Configuration.{Configuration};
ghost use Rattle.faaslet_meaning.specs.Limits.{push};
ghost use Rattle.faaslet_meaning.specs.Memory.{Memory};
ghost use Rattle.wasm_interp.specs.Stands.{Stands, Follows};
ghost use Rattle.wasm_interp.specs.Rooms.{SameRooms};

use crate::cells::Cells;
use crate::stack::Stack;
use crate::value_stack::Values;
use faaslet_meaning::{Instr, Outcome, Trap};
use wasm_validate::Jump;

/// How many values the frames of a call may hold together, their locals among them.
pub const VALUES: usize = 65_536;

/// How many labels the frames of a call may hold together.
pub const LABELS: usize = 65_536;

/// How many frames a call may have.
pub const FRAMES: usize = 1_024;

/// A label that was entered: where a branch to it goes on, how many values lie below it, and how many
/// such a branch carries. That of a loop stays where it is branched to.
#[derive(Clone, Copy, Debug)]
pub struct Label {
    pub target: usize,
    pub height: usize,
    pub arity: u32,
    pub again: bool,
}

/// A call that was entered. Its locals are the values from `base` on, and its operands those from
/// `height` on; of all labels the `depth` topmost are its own.
#[derive(Clone, Copy)]
pub struct Frame<'m> {
    pub code: &'m [Instr],
    pub jumps: &'m [Jump],
    pub pc: usize,
    pub base: usize,
    pub height: usize,
    pub depth: usize,
    pub arity: u32,
}

/// The frame that runs is `here`, and its callers are `frames`.
#[derive(Drop)]
pub struct Thread<'m> {
    pub values: Values,
    pub labels: Stack<Label, 65536>,
    pub frames: Stack<Frame<'m>, 1024>,
    pub here: Frame<'m>,
    pub globals: Cells<u64>,
    pub table: Cells<Option<u32>>,
    pub fuel: u64,
}

impl<'m> Thread<'m> {
    /// One more value, where there is room.
    #[inline(always)]
    pub fn put(&mut self, v: u64) -> Option<Outcome>
        ensures done { (memory : Memory) (d : Configuration) → Stands memory self.old d → Follows memory self.new (push d v) result }
        ensures rooms { SameRooms self.old self.new }
    {
        if self.values.len() < VALUES {
            self.values.push(v);
            None
        } else {
            Some(Outcome::Trap(Trap::StackExhausted))
        }
    }
}
