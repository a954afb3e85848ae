//! Calls: frames are entered and left. W3C WebAssembly Core Specification 1.0, section 4.4.7.

ghost use Rattle.std.specs.Prelude.{◌≡◌, ◌≢◌, ◌+◌, ◌<◌, ◌≤◌, ◌↔◌, IsTrue, [], ◌∷◌, ◌++◌, None, length, option_map, replicate, take};
ghost use Rattle.std.specs.Int.{cast_signed, w32};
ghost use Rattle.faaslet_meaning.specs.declared.module.FuncType.{FuncType};
ghost use Rattle.faaslet_meaning.specs.Configuration.{Configuration, defined, hosted, stuck};
ghost use Rattle.faaslet_meaning.specs.ControlRules.{leave_frame, result_of, call, host_by};
ghost use Rattle.faaslet_meaning.specs.HostCalls.{HostCall, buffer_of};
ghost use Rattle.faaslet_meaning.specs.Integers.{low};
ghost use Rattle.faaslet_meaning.specs.Memory.{Memory};
ghost use Rattle.faaslet_meaning.specs.Parse.{part, parts};
ghost use Rattle.faaslet_meaning.specs.Tree.{Tree};
ghost use Rattle.wasm_interp.specs.HostStops.{Asked, Pays};
ghost use Rattle.wasm_validate.specs.Jumps.{JumpsFit};
ghost use Rattle.wasm_interp.specs.Stands.{Stands, Follows, Ready};
ghost use Rattle.wasm_interp.specs.Rooms.{SameRooms};

use crate::buffer::BUFFER;
use crate::host_calls::{buffer_length, take_args};
use crate::machine::HostAsk;
use crate::thread::{FRAMES, Frame, LABELS, Thread, VALUES};
use faaslet_meaning::{Instr, Outcome, Trap};
use wasm_validate::Jump;

impl<'m> Thread<'m> {
    /// Leaves the frame with its results; that of the entry ends the run.
    pub fn leave_frame(&mut self) -> Option<Outcome>
        requires { Ready self.old (λ d. leave_frame d) }
        ensures done { (memory : Memory) (d : Configuration) → Stands memory self.old d → leave_frame d ≢ stuck → Follows memory self.new (leave_frame d) result }
        ensures rooms { SameRooms self.old self.new }
    {
        if self.frames.len() == 0 {
            return Some(self.outcome(self.here.arity));
        }
        self.values.unwind(self.here.arity, self.here.base);
        self.labels.cut(self.here.depth);
        self.here = self.frames.pop();
        None
    }

    // What the run comes to where so many values are the results of its first frame.
    fn outcome(&self, results: u32) -> Outcome
        requires few { results ≤ 1 }
        requires there { results ≤ length self.now.values }
        ensures { result ≡ Outcome.Done (cast_signed w32 (low w32 (result_of (take results self.now.values)))) }
    {
        if results == 0 {
            Outcome::Done(0)
        } else {
            let value = self.values.get(0) % 0x1_0000_0000;
            Outcome::Done((value as u32).cast_signed())
        }
    }

    // Whether one more frame with so many locals beside its arguments has room.
    fn has_room(&self, extra: u64) -> bool
        ensures { IsTrue result ↔ (length self.now.frames < 1023 × length self.now.frames + length self.now.labels < 65535 × length self.now.values + extra ≤ 65536) }
    {
        let frames = self.frames.len();
        let values = self.values.len();
        frames < FRAMES - 1
            && self.labels.len() < LABELS - 1 - frames
            && values <= VALUES
            && extra <= (VALUES - values) as u64
    }

    /// Enters a body, whose arguments are the topmost values and become its first locals.
    pub fn enter_body(
        &mut self,
        code: &'m [Instr],
        jumps: &'m [Jump],
        params: usize,
        extra: u64,
        arity: u32,
    ) -> Option<Outcome>
        requires { (t : FuncType) × (body : Tree) × (length t.params ≡ params) × Ready self.old (λ d. call d (defined t extra body)) }
        ensures done { (memory : Memory) (d : Configuration) (t : FuncType) (body : Tree) → Stands memory self.old d
            → length t.params ≡ params → length t.results ≡ arity → arity ≤ 1
            → parts code.now ≡ part body None ∷ [] → JumpsFit code.now jumps.now
            → call d (defined t extra body) ≢ stuck
            → Follows memory self.new (call d (defined t extra body)) result }
        ensures rooms { SameRooms self.old self.new }
    {
        if !self.has_room(extra) {
            return Some(Outcome::Trap(Trap::StackExhausted));
        }
        let base = self.values.len() - params;
        self.frames.push(self.here);
        self.values.put_zeros(extra);
        let height = self.values.len();
        self.here = Frame {
            code,
            jumps,
            pc: 0,
            base,
            height,
            depth: 0,
            arity,
        };
        None
    }

    // Pays for the buffer of a host call, where it has one.
    fn pay_buffer(&mut self, length: Option<u64>) -> Option<Outcome>
        ensures done { (memory : Memory) (d : Configuration) (h : HostCall) → Stands memory self.old d → length ≡ option_map (λ b. b.len) (buffer_of h)
            → Pays memory self.new h (host_by d h (buffer_of h)) result }
        ensures rooms { SameRooms self.old self.new }
    {
        let Some(length) = length else {
            return None;
        };
        if length > BUFFER as u64 {
            return Some(Outcome::Trap(Trap::BufferTooLong));
        }
        let cost = length / 64;
        if cost > self.fuel {
            return Some(Outcome::FuelOut);
        }
        self.fuel -= cost;
        None
    }

    /// A host call, before it is told: its arguments are taken, and its buffer is paid for.
    pub fn host_call(&mut self, number: usize, params: usize) -> Result<HostAsk, Outcome>
        requires { (t : FuncType) × (length t.params ≡ params) × Ready self.old (λ d. call d (hosted number t)) }
        ensures done { (memory : Memory) (d : Configuration) (t : FuncType) → Stands memory self.old d → length t.params ≡ params
            → call d (hosted number t) ≢ stuck → Asked memory self.new (call d (hosted number t)) result }
        ensures rooms { SameRooms self.old self.new }
    {
        let args = take_args(&mut self.values, params);
        let length = buffer_length(number, &args);
        match self.pay_buffer(length) {
            None => Ok(HostAsk {
                call: number as u32,
                args,
            }),
            Some(outcome) => Err(outcome),
        }
    }
}
