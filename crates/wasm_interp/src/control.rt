//! Blocks and branches. W3C WebAssembly Core Specification 1.0, sections 4.4.5 and 4.4.6.

ghost use Rattle.std.specs.Prelude.{◌≡◌, ◌≢◌, Option, None, ◌+◌, ◌^◌, ◌<◌, ◌≤◌, ◌↔◌, IsTrue, length, slice_get, unwrap_or};
ghost use Rattle.std.specs.Int.{w32};
ghost use Rattle.faaslet_meaning.specs.Configuration.{Program, Configuration, stuck};
ghost use Rattle.faaslet_meaning.specs.ControlRules.{leave, br};
ghost use Rattle.faaslet_meaning.specs.Integers.{low};
ghost use Rattle.faaslet_meaning.specs.Limits.{enter};
ghost use Rattle.faaslet_meaning.specs.Memory.{Memory};
ghost use Rattle.faaslet_meaning.specs.Step.{begin};
ghost use Rattle.faaslet_meaning.specs.Tree.{Tree, arity_of};
ghost use Rattle.wasm_interp.specs.Places.{InstrAt, JumpAt, IsOpener, Opens, Closes};
ghost use Rattle.wasm_interp.specs.Stands.{Stands, Follows, Ready, Can, Does};
ghost use Rattle.wasm_interp.specs.Rooms.{SameRooms};

use crate::thread::{LABELS, Label, Thread};
use faaslet_meaning::{Instr, Labels, Outcome, Trap, ValType};
use wasm_validate::Jump;

// How many results a block has.
#[inline(always)]
fn arity(kind: Option<ValType>) -> u32
    ensures { result ≡ arity_of kind }
{
    match kind {
        None => 0,
        Some(_) => 1,
    }
}

// The label at the index, or the last one.
#[inline(always)]
fn target(targets: &[u32], last: u32, x: u64) -> u32
    ensures { result ≡ unwrap_or (slice_get targets.now (low w32 x)) last }
{
    let k = (x % 0x1_0000_0000) as usize;
    if k < targets.len() { targets[k] } else { last }
}

impl<'m> Thread<'m> {
    // Whether one more label has room. Each frame has one of its own, which isn't on the stack.
    #[inline(always)]
    fn has_label_room(&self) -> bool
        ensures { IsTrue result ↔ (length self.now.labels + length self.now.frames < 65535) }
    {
        let held = self.labels.len();
        held < LABELS - 1 && self.frames.len() < LABELS - 1 - held
    }

    // Enters a label, and goes on with the body of its block.
    #[inline(always)]
    fn enter(&mut self, pc: usize, target: usize, arity: u32, again: bool) -> Option<Outcome>
        requires deep { self.old.here.depth ≤ length self.old.labels }
        requires few { arity ≤ 1 }
        ensures done { (memory : Memory) (d : Configuration) (body : Tree) (loop_body : Option Tree)
            → Stands memory self.old d → Opens self.old.here.code.now self.old.here.pc pc target again body loop_body
            → Follows memory self.new (enter d arity loop_body body) result }
        ensures rooms { SameRooms self.old self.new }
    {
        if self.has_label_room() {
            let height = self.values.len();
            self.labels.push(Label {
                target,
                height,
                arity,
                again,
            });
            self.here.depth += 1;
            self.here.pc = pc;
            None
        } else {
            Some(Outcome::Trap(Trap::StackExhausted))
        }
    }

    // Leaves the innermost label, and goes on at this place, which follows its block.
    #[inline(always)]
    fn leave(&mut self, pc: usize)
        requires deep { 0 < self.old.here.depth }
        requires labels { self.old.here.depth ≤ length self.old.labels }
        ensures done { (memory : Memory) (d : Configuration) → Stands memory self.old d → Closes self.old.here.code.now self.old.here.pc pc
            → Follows memory self.new (leave d d.frame.labels) None }
        ensures rooms { SameRooms self.old self.new }
    {
        self.labels.pop();
        self.here.depth -= 1;
        self.here.pc = pc;
    }

    // Branches over the n innermost labels of the frame.
    #[inline(always)]
    fn branch(&mut self, n: usize)
        requires ready { Ready self.old (λ d. br d n) }
        requires inner { n < self.old.here.depth }
        ensures done { (memory : Memory) (d : Configuration) → Stands memory self.old d → br d n ≢ stuck → Follows memory self.new (br d n) None }
        ensures rooms { SameRooms self.old self.new }
    {
        self.labels.cut(n);
        let label = self.labels.get(0);
        self.values.unwind(label.arity, label.height);
        self.here.pc = label.target;
        self.here.depth -= n;
        if !label.again {
            self.labels.pop();
            self.here.depth -= 1;
        }
    }

    /// A branch over the n innermost labels, or out of the frame.
    #[inline(always)]
    pub fn br(&mut self, n: u32) -> Option<Outcome>
        requires { Ready self.old (λ d. br d n) }
        ensures done { (memory : Memory) (d : Configuration) → Stands memory self.old d → br d n ≢ stuck → Follows memory self.new (br d n) result }
        ensures rooms { SameRooms self.old self.new }
    {
        if (n as usize) < self.here.depth {
            self.branch(n as usize);
            None
        } else {
            self.leave_frame()
        }
    }

    /// Branches where the value on top is not zero.
    #[inline(always)]
    pub fn br_if(&mut self, n: u32) -> Option<Outcome>
        requires { Can self.old (Instr.BrIf n) }
        ensures done { Does self.old (Instr.BrIf n) self.new result }
        ensures rooms { SameRooms self.old self.new }
    {
        if self.values.pop() % 0x1_0000_0000 == 0 {
            None
        } else {
            self.br(n)
        }
    }

    /// Branches to the label that the value on top picks, or to the last.
    pub fn br_table(&mut self, targets: &Labels, last: u32) -> Option<Outcome>
        requires { Can self.old (Instr.BrTable targets.now last) }
        ensures done { Does self.old (Instr.BrTable targets.now last) self.new result }
        ensures rooms { SameRooms self.old self.new }
    {
        let x = self.values.pop();
        self.br(target(targets.as_slice(), last, x))
    }

    /// An instruction that opens a block, once it is paid for; the thread stands at it.
    #[inline(always)]
    pub fn open(&mut self, instr: &Instr, jump: Jump) -> Option<Outcome>
        requires ready { (p : Program) × Ready self.old (λ c. begin p c c.frame.rest) }
        requires opener { IsOpener instr.now }
        requires at { InstrAt self.old.here instr.now }
        requires jump { JumpAt self.old.here jump }
        requires near { self.old.here.pc + 1 < 2 ^ 64 }
        ensures done { (p : Program) (memory : Memory) (c : Configuration) → Stands memory self.old c → begin p c c.frame.rest ≢ stuck
            → Follows memory self.new (begin p c c.frame.rest) result }
        ensures rooms { SameRooms self.old self.new }
    {
        let body = self.here.pc + 1;
        self.here.pc = jump.after;
        match instr {
            Instr::Block(kind) => self.enter(body, jump.after, arity(*kind), false),
            Instr::Loop(_) => self.enter(body, body, 0, true),
            Instr::If(kind) => {
                if self.values.pop() % 0x1_0000_0000 == 0 {
                    self.enter(jump.other, jump.after, arity(*kind), false)
                } else {
                    self.enter(body, jump.after, arity(*kind), false)
                }
            }
            _ => unreachable!(),
        }
    }

    /// The end of a sequence.
    #[inline(always)]
    pub fn end(&mut self) -> Option<Outcome>
        requires ready { Ready self.old (λ c. leave c c.frame.labels) }
        requires at { InstrAt self.old.here Instr.End }
        requires near { self.old.here.pc + 1 < 2 ^ 64 }
        ensures done { (memory : Memory) (c : Configuration) → Stands memory self.old c → leave c c.frame.labels ≢ stuck
            → Follows memory self.new (leave c c.frame.labels) result }
        ensures rooms { SameRooms self.old self.new }
    {
        if self.here.depth == 0 {
            self.leave_frame()
        } else {
            let pc = self.here.pc + 1;
            self.leave(pc);
            None
        }
    }

    /// The end of an `if`'s first side.
    #[inline(always)]
    pub fn other_end(&mut self) -> Option<Outcome>
        requires ready { Ready self.old (λ c. leave c c.frame.labels) }
        requires at { InstrAt self.old.here Instr.Else }
        ensures done { (memory : Memory) (c : Configuration) → Stands memory self.old c → leave c c.frame.labels ≢ stuck
            → Follows memory self.new (leave c c.frame.labels) result }
        ensures rooms { SameRooms self.old self.new }
    {
        let target = self.labels.get(0).target;
        self.leave(target);
        None
    }
}
