//! One step, and whole runs. W3C WebAssembly Core Specification 1.0, section 4.4.

ghost use Rattle.std.specs.Prelude.{◌≡◌, ℕ, List, Some, false, ◌+◌, ◌<◌, ◌^◌};
ghost use Rattle.faaslet_meaning.specs.declared.grant.Grant.{Grant};
ghost use Rattle.faaslet_meaning.specs.declared.module.Module.{Module};
ghost use Rattle.faaslet_meaning.specs.Configuration.{Configuration, Begun, Next};
ghost use Rattle.faaslet_meaning.specs.Memory.{Memory};
ghost use Rattle.faaslet_meaning.specs.Step.{step};
ghost use Rattle.faaslet_meaning.specs.Tree.{IsPlain};
ghost use Rattle.wasm_interp.specs.Goes.{SameRun, Able, Done, instruction, beginning, settled, does_run, event_of, Shown};
ghost use Rattle.wasm_interp.specs.Places.{InstrAt, JumpAt, IsBegun, IsOwn};
ghost use Rattle.wasm_interp.specs.Stands.{Stands, Can, Does};
ghost use Rattle.wasm_interp.specs.StandsFor.{PendingStands, StageStands, EndsRun, StandsFor, Ran};
ghost use Rattle.wasm_interp.specs.declared.machine.Event.TheVariants as events;
ghost use Rattle.wasm_interp.specs.declared.machine.Pending.{Pending};
ghost use Rattle.wasm_interp.specs.declared.machine.Stage.TheVariants as stages;
ghost use Rattle.wasm_interp.specs.Rooms.{SameRooms};

use crate::machine::{Event, Machine, Stage};
use crate::thread::Thread;
use crate::words::behind;
use faaslet_meaning::{Instr, Linear, Outcome, Trap};
use wasm_validate::Jump;

impl<'m> Thread<'m> {
    // The instruction at the frame's place.
    #[inline(always)]
    fn instr(&self) -> &'m Instr
        requires { (memory : Memory) × (c : Configuration) × Stands memory self.now c }
        ensures at { InstrAt self.now.here result.now }
        ensures near { self.now.here.pc + 1 < 2 ^ 64 }
    {
        let code = self.here.code;
        &code[self.here.pc]
    }

    // Where it leads.
    #[inline(always)]
    fn jump(&self) -> Jump
        requires { (memory : Memory) × (c : Configuration) × Stands memory self.now c }
        ensures { JumpAt self.now.here result }
    {
        self.here.jumps[self.here.pc]
    }

    // An instruction without blocks that needs neither the module nor the memory, once it is paid for and passed.
    #[inline(always)]
    fn own(&mut self, instr: &Instr) -> Option<Outcome>
        requires can { Can self.old instr.now }
        requires own { IsOwn instr.now }
        ensures done { Does self.old instr.now self.new result }
        ensures rooms { SameRooms self.old self.new }
    {
        match instr {
            Instr::Unreachable => Some(Outcome::Trap(Trap::Unreachable)),
            Instr::Nop => None,
            Instr::Br(n) => self.br(*n),
            Instr::BrIf(n) => self.br_if(*n),
            Instr::BrTable(targets, last) => self.br_table(targets, *last),
            Instr::Return => self.leave_frame(),
            Instr::Drop => self.drop_top(),
            Instr::Select => self.select(),
            Instr::LocalGet(k) => self.local_get(*k),
            Instr::LocalSet(k) => self.local_set(*k),
            Instr::LocalTee(k) => self.local_tee(*k),
            Instr::GlobalGet(k) => self.global_get(*k),
            Instr::GlobalSet(k) => self.global_set(*k),
            Instr::I32Const(n) => self.i32_const(n),
            Instr::I64Const(n) => self.i64_const(n),
            Instr::Num(op) => self.numeric(*op),
            _ => unreachable!(),
        }
    }
}

impl<'m, M: Linear> Machine<'m, M> {
    // Apart from the rules, so that those that go on spend nothing on it.
    #[inline(never)]
    fn stop(&mut self, outcome: Outcome)
        ensures { self.new ≡ record self.old { stage = stages.Over outcome } }
    {
        self.stage = Stage::Over(outcome);
    }

    // What a rule of the thread has left is what the machine stands for.
    #[inline(always)]
    fn settle(&mut self, left: Option<Outcome>)
        ensures { self.new ≡ record self.old { stage = settled left self.old.stage } }
    {
        if let Some(outcome) = left {
            self.stop(outcome);
        }
    }

    // An instruction without blocks, once it is paid for and passed.
    #[inline(always)]
    fn plain(&mut self, instr: &Instr)
        requires able { Able M.memory self.old (instruction instr.now) }
        requires plain { IsPlain instr.now }
        ensures done { Done M.memory self.old self.new (instruction instr.now) }
        ensures same { SameRun M.backing self.old self.new }
    {
        match instr {
            Instr::Call(f) => self.call(*f),
            Instr::CallIndirect(t) => self.call_indirect(*t),
            Instr::Load(op, align, offset) => self.load(*op, *align, *offset),
            Instr::Store(op, align, offset) => self.store(*op, *align, *offset),
            Instr::MemorySize => self.memory_size(),
            Instr::MemoryGrow => self.memory_grow(),
            _ => {
                let result = self.thread.own(instr);
                self.settle(result);
            }
        }
    }

    // An instruction that was paid for.
    #[inline(always)]
    fn perform(&mut self, instr: &Instr)
        requires able { Able M.memory self.old beginning }
        requires at { InstrAt self.old.thread.here instr.now }
        requires near { self.old.thread.here.pc + 1 < 2 ^ 64 }
        requires begun { IsBegun instr.now }
        ensures done { Done M.memory self.old self.new beginning }
        ensures same { SameRun M.backing self.old self.new }
    {
        match instr {
            Instr::Block(_) | Instr::Loop(_) | Instr::If(_) => {
                let jump = self.thread.jump();
                let result = self.thread.open(instr, jump);
                self.settle(result);
            }
            _ => {
                self.thread.here.pc += 1;
                self.plain(instr);
            }
        }
    }

    // One step.
    #[inline(always)]
    fn step(&mut self)
        requires { Able M.memory self.old step }
        ensures done { Done M.memory self.old self.new step }
        ensures same { SameRun M.backing self.old self.new }
    {
        let instr = self.thread.instr();
        match instr {
            Instr::End => {
                let result = self.thread.end();
                self.settle(result);
            }
            Instr::Else => {
                let result = self.thread.other_end();
                self.settle(result);
            }
            _ => {
                if self.thread.fuel == 0 {
                    self.stage = Stage::Over(Outcome::FuelOut);
                } else {
                    self.thread.fuel -= 1;
                    self.perform(instr);
                }
            }
        }
    }

    #[inline(always)]
    fn runs(&self) -> bool
        ensures { result ≡ does_run self.now.stage }
    {
        matches!(self.stage, Stage::Runs)
    }

    // What is told where the machine stands still.
    fn told(&self) -> Event
        requires { does_run self.now.stage ≡ false }
        ensures { event_of self.now.stage ≡ Some result }
    {
        match self.stage {
            Stage::Piece(pending) => Event::Piece(pending.ask),
            Stage::Host(ask) => Event::Host(ask),
            Stage::Over(outcome) => Event::Ended(outcome),
            Stage::Runs => unreachable!(),
        }
    }

    // At a piece to write its bytes are put into the scratch.
    fn show(&mut self)
        requires { (memory : Memory) × (n : Next) × StageStands memory self.old.thread self.old.stage n }
        ensures same { self.new ≡ record self.old { scratch = self.new.scratch } }
        ensures shown { (memory : Memory) (q : Pending) (values : List ℕ) (b : Begun) → self.old.stage ≡ stages.Piece q
            → PendingStands memory q values b → Shown self.new.scratch b }
    {
        if let Stage::Piece(q) = self.stage {
            if q.ask.write {
                self.scratch
                    .put_front(q.ask.len as usize, behind(q.value, q.done));
            }
        }
    }

    /// Runs to the next shared piece or host call, or to the end. Where the machine stands at one already
    /// it is told again.
    pub fn run(&mut self) -> Event
        requires { (code : Module) × (grants : List Grant) × (given : ℕ) × (n : Next) × StandsFor M.memory self.old code grants given n }
        ensures ran { (code : Module) (grants : List Grant) (given : ℕ) (n : Next) → StandsFor M.memory self.old code grants given n
            → Ran M.memory self.new code grants given n result }
        ensures end { (outcome : Outcome) → result ≡ events.Ended outcome → EndsRun outcome }
        ensures same { SameRun M.backing self.old self.new }
    {
        'turns: while self.runs() {
            self.step();
        }
        self.show();
        self.told()
    }
}
