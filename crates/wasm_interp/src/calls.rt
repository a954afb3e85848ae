//! Calls of the machine: of a function, and through the table. W3C WebAssembly Core Specification 1.0,
//! section 4.4.7.

ghost use Rattle.std.specs.Prelude.{◌≡◌, ◌≢◌, List, Some, slice_get};
ghost use Rattle.faaslet_meaning.specs.declared.grant.Grant.{Grant};
ghost use Rattle.faaslet_meaning.specs.declared.module.FuncType.{FuncType};
ghost use Rattle.faaslet_meaning.specs.Configuration.{Configuration, stuck};
ghost use Rattle.faaslet_meaning.specs.ControlRules.{call_at, call_element};
ghost use Rattle.faaslet_meaning.specs.Memory.{Memory};
ghost use Rattle.faaslet_meaning.specs.Program.{program_of};
ghost use Rattle.faaslet_meaning.specs.Runnable.{HostImports};
ghost use Rattle.wasm_interp.specs.Goes.{SameRun, Able, Done, instruction};
ghost use Rattle.wasm_interp.specs.Stands.{Stands, Ready};
ghost use Rattle.wasm_interp.specs.StandsFor.{StageStands};
ghost use Rattle.wasm_interp.specs.Rooms.{SameRooms};

use crate::functions::{Callee, find_function, function_type, have_same_type};
use crate::machine::{Machine, Stage};
use crate::thread::Thread;
use faaslet_meaning::{Instr, Linear, Outcome, Trap};
use wasm_validate::ValidModule;

impl<'m> Thread<'m> {
    /// Calls a function of the module.
    pub fn invoke(&mut self, code: &'m ValidModule, f: u32) -> Stage
        requires imports { HostImports code.now }
        requires ready { (grants : List Grant) × Ready self.old (λ d. call_at (program_of code.now grants) d f) }
        ensures done { (grants : List Grant) (memory : Memory) (d : Configuration) → Stands memory self.old d
            → call_at (program_of code.now grants) d f ≢ stuck → StageStands memory self.new result (call_at (program_of code.now grants) d f) }
        ensures rooms { SameRooms self.old self.new }
    {
        match find_function(code, f as usize) {
            Callee::Host(number, params) => match self.host_call(number, params) {
                Ok(ask) => Stage::Host(ask),
                Err(outcome) => Stage::Over(outcome),
            },
            Callee::Own(own) => {
                match self.enter_body(own.code, own.jumps, own.params, own.locals, own.results) {
                    None => Stage::Runs,
                    Some(outcome) => Stage::Over(outcome),
                }
            }
        }
    }

    // Calls a function of the module where it has the type of this number.
    fn invoke_typed(&mut self, code: &'m ValidModule, t: u32, f: u32) -> Stage
        requires imports { HostImports code.now }
        requires ready { (grants : List Grant) × (type : FuncType) × (slice_get code.now.types t ≡ Some type) × Ready self.old (λ d. call_element (program_of code.now grants) d type (Some (Some f))) }
        ensures done { (grants : List Grant) (memory : Memory) (d : Configuration) (type : FuncType) → Stands memory self.old d → slice_get code.now.types t ≡ Some type
            → call_element (program_of code.now grants) d type (Some (Some f)) ≢ stuck
            → StageStands memory self.new result (call_element (program_of code.now grants) d type (Some (Some f))) }
        ensures rooms { SameRooms self.old self.new }
    {
        let module = code.module();
        let types = module.types.as_slice();
        let wanted = &types[t as usize];
        if have_same_type(function_type(module, f as usize), wanted) {
            self.invoke(code, f)
        } else {
            Stage::Over(Outcome::Trap(Trap::TypeMismatch))
        }
    }

    /// Calls the function at the index on top of the values in the table.
    pub fn invoke_indirect(&mut self, code: &'m ValidModule, t: u32) -> Stage
        requires imports { HostImports code.now }
        requires ready { (grants : List Grant) × Ready self.old (λ d. instruction (Instr.CallIndirect t) (program_of code.now grants) d) }
        ensures done { (grants : List Grant) (memory : Memory) (d : Configuration) → Stands memory self.old d
            → instruction (Instr.CallIndirect t) (program_of code.now grants) d ≢ stuck
            → StageStands memory self.new result (instruction (Instr.CallIndirect t) (program_of code.now grants) d) }
        ensures rooms { SameRooms self.old self.new }
    {
        let x = self.values.pop() % 0x1_0000_0000;
        if x >= self.table.len() as u64 {
            return Stage::Over(Outcome::Trap(Trap::UndefinedElement));
        }
        match self.table.get(x as usize) {
            None => Stage::Over(Outcome::Trap(Trap::UninitializedElement)),
            Some(f) => self.invoke_typed(code, t, f),
        }
    }
}

impl<'m, M: Linear> Machine<'m, M> {
    pub(crate) fn call(&mut self, f: u32)
        requires { Able M.memory self.old (instruction (Instr.Call f)) }
        ensures done { Done M.memory self.old self.new (instruction (Instr.Call f)) }
        ensures same { SameRun M.backing self.old self.new }
    {
        match self.code {
            Some(code) => self.stage = self.thread.invoke(code, f),
            None => unreachable!(),
        }
    }

    pub(crate) fn call_indirect(&mut self, t: u32)
        requires { Able M.memory self.old (instruction (Instr.CallIndirect t)) }
        ensures done { Done M.memory self.old self.new (instruction (Instr.CallIndirect t)) }
        ensures same { SameRun M.backing self.old self.new }
    {
        match self.code {
            Some(code) => self.stage = self.thread.invoke_indirect(code, t),
            None => unreachable!(),
        }
    }
}
