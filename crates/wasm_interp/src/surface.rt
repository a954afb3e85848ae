//! What a machine is made of and begun with, what is read off it, and how it goes on after a host call.

ghost use Rattle.std.specs.Prelude.{◌≡◌, ℕ, ◌+◌, ◌-◌, ◌<◌, ◌≤◌, List, [], Option, Some, Result, Ok, length, is_some, IfOk, IfErr};
ghost use Rattle.faaslet_meaning.specs.declared.grant.Grant.{Grant};
ghost use Rattle.faaslet_meaning.specs.declared.module.FuncType.{FuncType};
ghost use Rattle.faaslet_meaning.specs.declared.module.Module.{Module};
ghost use Rattle.faaslet_meaning.specs.Configuration.{Configuration, Next, goes, calls};
ghost use Rattle.faaslet_meaning.specs.ControlRules.{entered};
ghost use Rattle.faaslet_meaning.specs.Fine.{ground_of, TableOk, has_result};
ghost use Rattle.faaslet_meaning.specs.HostCalls.{HostCall};
ghost use Rattle.faaslet_meaning.specs.IndexSpaces as spaces;
ghost use Rattle.faaslet_meaning.specs.Program.{table_size};
ghost use Rattle.faaslet_meaning.specs.Runnable.{HostImports};
ghost use Rattle.faaslet_meaning.specs.Step.{finished};
ghost use Rattle.faaslet_meaning.specs.Tree.{Tree};
ghost use Rattle.wasm_interp.specs.Goes.{SameRun};
ghost use Rattle.wasm_interp.specs.Rooms.{SameRooms};
ghost use Rattle.wasm_interp.specs.StandsFor.{Agrees, StandsFor, IsEntry, config_of};

use crate::buffer::Buffer;
use crate::functions::{Callee, find_function};
use crate::machine::{Machine, Room, Stage};
use crate::thread::Thread;
use faaslet_meaning::{Linear, Outcome, Trap};
use std::alloc::{AllocError, Global};
use wasm_validate::ValidModule;

fn parts<'m>(alloc: Global, room: Room) -> Result<(Thread<'m>, Buffer, Buffer), AllocError>
    ensures { IfOk result (λ p. (p.0.globals.room ≡ room.globals) × (p.0.table.room ≡ room.table)) }
{
    let thread = Thread::new(alloc, room)?;
    let scratch = Buffer::new(alloc)?;
    let aside = Buffer::new(alloc)?;
    Ok((thread, scratch, aside))
}

impl<'m, M: Linear> Machine<'m, M> {
    /// A machine over this memory that has begun nothing, with all the memory that it ever takes.
    pub fn new(alloc: Global, memory: M, room: Room) -> Result<Machine<'m, M>, (AllocError, M)>
        ensures made { IfOk result (λ m. (m.memory ≡ memory) × (m.thread.globals.room ≡ room.globals) × (m.thread.table.room ≡ room.table)) }
        ensures none { IfOk result (λ m. m.writable ≡ 0) }
        ensures back { IfErr result (λ e. e.1 ≡ memory) }
    {
        match parts(alloc, room) {
            Ok((thread, scratch, aside)) => Ok(Machine {
                code: None,
                thread,
                memory,
                stage: Stage::Over(Outcome::Done(0)),
                given: 0,
                writable: 0,
                scratch,
                aside,
            }),
            Err(error) => Err((error, memory)),
        }
    }

    /// About to run a function that takes nothing.
    pub fn begin(
        &mut self,
        code: &'m ValidModule,
        globals: &[u64],
        table: &[Option<u32>],
        entry: u32,
        fuel: u64,
    )
        requires imports { HostImports code.now }
        requires globals { length globals.now ≡ length (spaces.globals code.now) }
        requires table { length table.now ≡ table_size code.now }
        requires indices { TableOk (ground_of code.now) table.now }
        requires room { (length globals.now ≤ self.old.thread.globals.room) × (length table.now ≤ self.old.thread.table.room) }
        requires entry { (t : FuncType) × (locals : ℕ) × (body : Tree) × IsEntry code.now entry t locals body }
        ensures begun { (grants : List Grant) (t : FuncType) (locals : ℕ) (body : Tree) → Agrees self.old.writable grants → IsEntry code.now entry t locals body
            → StandsFor M.memory self.new code.now grants fuel (goes (record { frame = entered t locals body []; callers = []; globals = globals.now; table = table.now; memory = M.memory self.old.memory; fuel = fuel })) }
        ensures writable { self.new.writable ≡ self.old.writable }
        ensures rooms { SameRooms self.old.thread self.new.thread }
        ensures memory { self.new.memory ≡ self.old.memory }
        ensures scratch { self.new.scratch ≡ self.old.scratch }
        ensures aside { self.new.aside ≡ self.old.aside }
    {
        // It tells that the module is valid.
        let _valid = code.module();
        match find_function(code, entry as usize) {
            Callee::Own(own) => self.thread.begin(own, globals, table, fuel),
            Callee::Host(_, _) => unreachable!(),
        }
        self.code = Some(code);
        self.stage = Stage::Runs;
        self.given = fuel;
    }

    /// Goes on after a host call, with its result where it has one, or with its trap.
    pub fn resume_host(&mut self, answer: Result<Option<u64>, Trap>)
        requires { (code : Module) × (grants : List Grant) × (given : ℕ) × (c : Configuration) × (h : HostCall)
            × StandsFor M.memory self.old code grants given (calls c h)
            × ((o : Option ℕ) → answer ≡ Ok o → is_some o ≡ has_result h) }
        ensures done { (code : Module) (grants : List Grant) (given : ℕ) (c : Configuration) (h : HostCall)
            → StandsFor M.memory self.old code grants given (calls c h)
            → ((o : Option ℕ) → answer ≡ Ok o → is_some o ≡ has_result h)
            → StandsFor M.memory self.new code grants given (finished c answer) }
        ensures same { SameRun M.backing self.old self.new }
    {
        self.stage = self.thread.finish(answer);
    }

    /// The fuel that was spent since `begin`.
    pub fn used(&self) -> u64
        ensures { (code : Module) (grants : List Grant) (given : ℕ) (n : Next) (c : Configuration)
            → StandsFor M.memory self.now code grants given n → config_of n ≡ Some c → result + c.fuel ≡ given }
    {
        self.given.saturating_sub(self.thread.fuel)
    }

    /// Says which mapped pieces may be written: bit k is the replica at place k of the grants.
    pub fn allow(&mut self, writable: u32)
        ensures stands { (code : Module) (grants other : List Grant) (given : ℕ) (n : Next)
            → StandsFor M.memory self.old code other given n → Agrees writable grants
            → StandsFor M.memory self.new code grants given n }
        ensures only { self.new ≡ record self.old { writable = writable } }
    {
        self.writable = writable;
    }

    /// The globals, in the order of their numbers.
    pub fn globals(&self) -> &[u64]
        ensures { (code : Module) (grants : List Grant) (given : ℕ) (n : Next) (c : Configuration)
            → StandsFor M.memory self.now code grants given n → config_of n ≡ Some c → result.now ≡ c.globals }
    {
        self.thread.globals.as_slice()
    }

    /// The elements of the table: the number of a function, or none.
    pub fn table(&self) -> &[Option<u32>]
        ensures { (code : Module) (grants : List Grant) (given : ℕ) (n : Next) (c : Configuration)
            → StandsFor M.memory self.now code grants given n → config_of n ≡ Some c → result.now ≡ c.table }
    {
        self.thread.table.as_slice()
    }
}
