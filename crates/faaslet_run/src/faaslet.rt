//! A call in progress: what it is made of and begun with, and how it goes from question to question.

ghost use Rattle.std.specs.Prelude.{◌≡◌, ℕ, ◌+◌, ◌<◌, ◌≤◌, [], ◌∷◌, ◌++◌, ◌↔◌, Some, None, IfOk, IsTrue, length, take};
ghost use Rattle.std.specs.Borrow.{sem};
ghost use Rattle.faaslet_meaning.specs.Asks.{RepliesAs};
ghost use Rattle.faaslet_meaning.specs.Call.{fits, replied};
ghost use Rattle.faaslet_meaning.specs.CallState.{Invocation, State, Progress, runs, asks, fresh_state};
ghost use Rattle.faaslet_meaning.specs.Channels.{Question, Reply as Answer, Transcript};
ghost use Rattle.faaslet_meaning.specs.Configuration.{Configuration};
ghost use Rattle.faaslet_meaning.specs.Fresh.{Function, entry, makes};
ghost use Rattle.faaslet_meaning.specs.Memory.{IsMemory, grant_limit, page_limit};
ghost use Rattle.faaslet_meaning.specs.Runs.{invocation};
ghost use Rattle.proto_faaslet.specs.Entries.{HasRoom, IsFor};
ghost use Rattle.proto_faaslet.specs.Snapshots.{stored};
ghost use Rattle.faaslet_run.specs.Allowed.{AreGrants};
ghost use Rattle.faaslet_run.specs.Begun.{IsBegun};
ghost use Rattle.faaslet_run.specs.Counted.{counted};
ghost use Rattle.faaslet_run.specs.Lending.{LendsInput, LendsScratch};
ghost use Rattle.faaslet_run.specs.Places.{IsAsking, StandsAt, state_of};
ghost use Rattle.faaslet_run.specs.Turns.{GoesOn, HasRooms, IsReady, IsToldAgain, SameRoom, Tells, runs_left, turn_of};

use crate::buffer::Buffer;
use crate::grants::writable;
use crate::output::Output;
use crate::tally::Tally;
use call_table::Job;
use faaslet_meaning::{Ask, Grant, Grants, Linear, Outcome, Reply};
use host_calls::{CallCall, CallKnown, Known, StateCall};
use proto_faaslet::{Proto, empty_memory};
use region_map::SegmentedMemory;
use std::alloc::{AllocError, Global};
use wasm_interp::{Event, Machine, Room};

/// What a call may do and use: its grants, the functions that it may call, how long its input is, and how long its output
/// may be.
#[derive(Clone, Copy)]
pub struct Called<'s> {
    pub(crate) grants: &'s Grants,
    pub(crate) callees: &'s [u32],
    pub(crate) len: u32,
    pub(crate) room: u32,
}

/// What stands at a question.
#[derive(Clone, Copy)]
pub enum Work {
    /// A host call on calls.
    Call(CallCall),
    /// A host call on state.
    State(StateCall),
    /// A load or a store, at a shared piece.
    Piece,
    /// The release of the lock on the key at a place, of its replica or of its global value, after `main` has ended so.
    Release {
        place: u32,
        local: bool,
        outcome: Outcome,
    },
}

/// Where a call is.
#[derive(Clone, Copy)]
pub enum Stage {
    /// Its machine is to run on.
    Runs,
    /// This stands at a question.
    Asks(Work, Ask),
    Over(Outcome),
}

/// What a call comes to next: a question, or its end.
#[derive(Clone, Copy, Debug, PartialEq, Eq)]
pub enum Turn {
    Asks(Ask),
    Ended(Outcome),
}

/// One call in progress, which goes from question to question. Only `open` takes memory.
#[derive(Drop)]
pub struct Faaslet<'s> {
    pub(crate) machine: Machine<'s, SegmentedMemory<'s>>,
    pub(crate) known: CallKnown,
    pub(crate) keys: Known,
    pub(crate) input: Buffer,
    pub(crate) scratch: Buffer,
    pub(crate) output: Output,
    pub(crate) counts: Tally,
    pub(crate) called: Option<Called<'s>>,
    pub(crate) stage: Stage,
}

// These bytes in place of others.
fn copy_all(to: &mut [u8], from: &[u8])
    requires { length to.old ≡ length from.now }
    ensures { to.new ≡ from.now }
{
    to.copy_from_slice(from);
}

// The bytes of a machine's scratch come to a buffer.
fn take_scratch<'s>(scratch: &mut Buffer, machine: &mut Machine<'s, SegmentedMemory<'s>>)
    ensures scratch { scratch.new ≡ machine.old.scratch }
    ensures machine { machine.new ≡ machine.old }
{
    copy_all(scratch.as_mut_slice(), machine.scratch_mut());
}

// The bytes of a buffer come to a machine's scratch.
fn give_scratch<'s>(scratch: &Buffer, machine: &mut Machine<'s, SegmentedMemory<'s>>)
    ensures { machine.new ≡ record machine.old { scratch = scratch.now } }
{
    copy_all(machine.scratch_mut(), scratch.as_slice());
}

// Changes nothing, and tells that the memory keeps to what every memory does.
fn sound<'s>(machine: &mut Machine<'s, SegmentedMemory<'s>>)
    ensures same { machine.new ≡ machine.old }
    ensures sound { IsMemory machine.old.memory.memory }
{
    let _pages = machine.memory_mut().pages();
}

impl<'s> Faaslet<'s> {
    /// Room for calls whose modules need at most so many globals and elements of a table, and so many private pages.
    pub fn open(alloc: Global, room: Room, pages: u32) -> Result<Faaslet<'s>, AllocError>
        requires { pages ≤ page_limit }
        ensures { IfOk result (λ f. HasRooms f room pages) }
    {
        let known = CallKnown::new(alloc)?;
        let input = Buffer::new(alloc)?;
        let scratch = Buffer::new(alloc)?;
        let output = Output::new(alloc)?;
        let counts = Tally::new(alloc)?;
        let memory = empty_memory(alloc, pages)?;
        match Machine::new(alloc, memory, room) {
            Ok(machine) => Ok(Faaslet {
                machine,
                known,
                keys: Known::new(),
                input,
                scratch,
                output,
                counts,
                called: None,
                stage: Stage::Over(Outcome::Want),
            }),
            Err(_) => Err(AllocError),
        }
    }

    /// The room for an input, 65,536 bytes. What is to be the input of a call is written to its front before `start`.
    pub fn input_mut(&mut self) -> &mut [u8]
        ensures* writes_back { sem 𝓛 (LendsInput self.entry result) }
        ensures bytes { result.now ≡ self.old.input }
        ensures long { length result.now ≡ 65536 }
    {
        self.input.as_mut_slice()
    }

    /// The scratch, 65,536 bytes: the bytes of a question, and those of its reply, are its first.
    pub fn scratch_mut(&mut self) -> &mut [u8]
        ensures* writes_back { sem 𝓛 (LendsScratch self.entry result) }
        ensures bytes { result.now ≡ self.old.scratch }
        ensures long { length result.now ≡ 65536 }
    {
        self.scratch.as_mut_slice()
    }

    // Makes the machine as the snapshot has it, where what is mapped may be written as these grants say.
    fn restore(&mut self, proto: &'s Proto<'s>, grants: &[Grant], fuel: u64)
        requires room { HasRoom self.old.machine proto.now.code }
        requires pages { proto.now.quota ≤ self.old.machine.memory.room }
        requires few { length grants.now ≤ grant_limit }
        ensures only { self.new ≡ record self.old { machine = self.new.machine } }
        ensures stands { IsBegun self.new.machine proto.now grants.now fuel }
        ensures rooms { SameRoom self.old self.new }
    {
        self.machine.allow(writable(grants));
        proto.restore(&mut self.machine, fuel);
        sound(&mut self.machine);
    }

    /// Begins a call of the snapshot's function, in place of the call before. Its input is the first bytes of `input_mut`. It may
    /// have at most 32 grants, of different keys, each of 1 to 16,777,216 bytes.
    pub fn start(&mut self, proto: &'s Proto<'s>, grants: &'s Grants, callees: &'s [u32], job: Job)
        requires room { HasRoom self.old.machine proto.now.code }
        requires pages { proto.now.quota ≤ self.old.machine.memory.room }
        requires input { job.len ≤ 65536 }
        requires output { job.room ≤ 65536 }
        requires callees { length callees.now ≤ 256 }
        requires grants { AreGrants grants.now }
        ensures started { (f : Function) (c : Configuration) → IsFor f proto.now.code proto.now.quota job.fuel
            → f.grants ≡ grants.now → f.callees ≡ callees.now → f.room ≡ job.room
            → entry f (stored proto.now) (Some proto.now.main) ≡ makes c
            → StandsAt self.new (invocation f (take job.len self.old.input)) (fresh_state c) [] (runs (fresh_state c)) }
        ensures rooms { SameRoom self.old self.new }
    {
        let list = grants.as_slice();
        self.restore(proto, list, job.fuel);
        // It tells that there are 65,536 bytes.
        let _input = self.input.as_slice();
        self.known.clear();
        self.keys.clear();
        self.output.clear();
        self.counts.restart(2 * list.len() + 1);
        self.called = Some(Called {
            grants,
            callees,
            len: job.len,
            room: job.room,
        });
        self.stage = Stage::Runs;
    }

    fn runs(&self) -> bool
        ensures { IsTrue result ↔ self.now.stage ≡ Stage.Runs }
    {
        matches!(self.stage, Stage::Runs)
    }

    fn told(&self) -> Turn
        requires { self.now.stage ≡ Stage.Runs → ⊥ }
        ensures { turn_of self.now.stage ≡ Some result }
    {
        match self.stage {
            Stage::Asks(_, ask) => Turn::Asks(ask),
            Stage::Over(outcome) => Turn::Ended(outcome),
            Stage::Runs => unreachable!(),
        }
    }

    // Runs to the next shared piece, to the next host call, and does what this does before its first question, or to the end.
    fn run_on(&mut self)
        requires runs { self.old.stage ≡ Stage.Runs }
        requires at { (j : Invocation) × (start : State) × (transcript : Transcript) × (p : Progress) × StandsAt self.old j start transcript p }
        ensures goes { (j : Invocation) (start : State) (transcript : Transcript) (p : Progress)
            → StandsAt self.old j start transcript p → GoesOn self.new j start transcript }
        ensures less { runs_left self.new < runs_left self.old }
        ensures rooms { SameRoom self.old self.new }
    {
        match self.machine.run() {
            Event::Ended(outcome) => self.end(outcome),
            Event::Host(ask) => self.serve(ask),
            Event::Piece(piece) => self.stop_at(piece),
        }
    }

    /// Goes on to the next question or to the end, and tells it. Where it has told that already it tells it again, as it was
    /// told: whatever was written to the scratch since, the bytes of the question are there again.
    pub fn next(&mut self) -> Turn
        requires { (j : Invocation) × (start : State) × (transcript : Transcript) × (p : Progress) × StandsAt self.old j start transcript p }
        ensures tells { (j : Invocation) (start : State) (transcript : Transcript) (p : Progress)
            → StandsAt self.old j start transcript p → IsReady self.old j p → Tells result self.new j start transcript }
        ensures again { (turn : Turn) → turn_of self.old.stage ≡ Some turn → (result ≡ turn) × IsToldAgain self.old self.new }
        ensures rooms { SameRoom self.old self.new }
    {
        'turns: while self.runs() {
            self.run_on();
        }
        take_scratch(&mut self.scratch, &mut self.machine);
        self.told()
    }

    /// Goes on after the reply to the question that `next` told. The bytes of the reply are the first of the scratch.
    pub fn answer(&mut self, reply: Reply)
        requires waits { IsAsking self.old.stage }
        requires at { (j : Invocation) × (start : State) × (transcript : Transcript) × (s : State) × (q : Question) × (r : Answer)
            × StandsAt self.old j start transcript (asks s q) × RepliesAs q reply self.old.scratch r × IsTrue (fits s q r) }
        ensures answered { (j : Invocation) (start : State) (transcript : Transcript) (s : State) (q : Question) (r : Answer)
            → StandsAt self.old j start transcript (asks s q) → RepliesAs q reply self.old.scratch r → IsTrue (fits s q r)
            → StandsAt self.new j start (transcript ++ (q, r) ∷ []) (replied j s r) × IsReady self.new j (replied j s r) }
        ensures rooms { SameRoom self.old self.new }
    {
        let Stage::Asks(work, ask) = self.stage else {
            unreachable!()
        };
        give_scratch(&self.scratch, &mut self.machine);
        self.count(ask, reply);
        self.after(work, reply);
    }

    /// The output so far.
    pub fn output(&self) -> &[u8]
        ensures { (j : Invocation) (start : State) (transcript : Transcript) (p : Progress) (s : State)
            → StandsAt self.now j start transcript p → state_of p ≡ Some s → result.now ≡ s.output }
    {
        self.output.as_slice()
    }

    /// The fuel that was used since `start`.
    pub fn used(&self) -> u64
        ensures { (j : Invocation) (start : State) (transcript : Transcript) (p : Progress) (s : State)
            → StandsAt self.now j start transcript p → state_of p ≡ Some s → result + s.config.fuel ≡ start.config.fuel }
    {
        self.machine.used()
    }

    /// How many entries the call made on each of its channels. A number stands still at its type's end.
    pub fn counts(&self) -> &[u64]
        ensures { (j : Invocation) (start : State) (transcript : Transcript) (p : Progress)
            → StandsAt self.now j start transcript p → result.now ≡ counted j.program.grants transcript }
    {
        self.counts.as_slice()
    }
}
