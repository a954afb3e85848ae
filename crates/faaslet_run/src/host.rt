//! The host calls on calls: each up to its next question, or to its end. What all host calls have in common.

ghost use Rattle.std.specs.Prelude.{◌≡◌, ◌≢◌, ℕ, ◌+◌, ◌<◌, ◌≤◌, ◌^◌, ◌++◌, None, Some, IfErr, IfOk, length, take};
ghost use Rattle.faaslet_meaning.specs.Call.{replied};
ghost use Rattle.faaslet_meaning.specs.CallState.{Invocation, State, Progress};
ghost use Rattle.faaslet_meaning.specs.Channels.{Question, Reply as Answer, Transcript};
ghost use Rattle.faaslet_meaning.specs.Checks.{checks, first_trap};
ghost use Rattle.faaslet_meaning.specs.HostCalls.{HostCall};
ghost use Rattle.host_calls.specs.CallHosts.{AreSmall};
ghost use Rattle.host_calls.specs.Calls.{IsFresh};
ghost use Rattle.wasm_interp.specs.StandsFor.{AsksHost};
ghost use Rattle.faaslet_run.specs.Hosts.{AsksThat, AtHost, HasBegun, HasCome, HasReply, HasResult, HasSmall, IsAmidst};
ghost use Rattle.faaslet_run.specs.Places.{StandsAt};
ghost use Rattle.faaslet_run.specs.Turns.{GoesOn, IsReady, SameRoom};
ghost use Rattle.faaslet_run.specs.declared.faaslet.Work.TheVariants as works;

use crate::faaslet::{Called, Faaslet, Stage, Work};
use crate::output::Output;
use faaslet_meaning::{Outcome, Reply, Trap};
use host_calls::{CallCall, CallStep};
use region_map::SegmentedMemory;
use wasm_interp::{HostAsk, Machine};

/// The host calls before this one are those on state.
const FIRST_ON_CALLS: u32 = 16;

/// The low halves of the arguments. Those that the call has are their own.
pub(crate) fn low_halves(ask: HostAsk) -> HostAsk
    ensures small { AreSmall result.args }
    ensures call { result.call ≡ ask.call }
    ensures same { (h : HostCall) → AsksHost ask h → HasSmall h → AsksHost result h }
{
    let [first, second, third, fourth] = ask.args;
    HostAsk {
        call: ask.call,
        args: [
            first % 0x1_0000_0000,
            second % 0x1_0000_0000,
            third % 0x1_0000_0000,
            fourth % 0x1_0000_0000,
        ],
    }
}

// Appends bytes at the front of others to the output; all of them, where there are no more.
fn append_some(output: &mut Output, bytes: &[u8], len: u32)
    requires { length output.old + length (take len bytes.now) ≤ 65536 }
    ensures { output.new ≡ output.old ++ take len bytes.now }
{
    let len = (len as usize).min(bytes.len());
    output.append(&bytes[..len]);
}

// Appends bytes at the front of the scratch to the output.
fn append_front<'s>(output: &mut Output, machine: &mut Machine<'s, SegmentedMemory<'s>>, len: u32)
    requires { length output.old + length (take len machine.old.scratch) ≤ 65536 }
    ensures output { output.new ≡ output.old ++ take len machine.old.scratch }
    ensures machine { machine.new ≡ machine.old }
{
    append_some(output, machine.scratch_mut(), len);
}

impl<'s> Faaslet<'s> {
    pub(crate) fn called(&self) -> Called<'s>
        requires { self.now.called ≢ None }
        ensures { self.now.called ≡ Some result }
    {
        match self.called {
            Some(called) => called,
            None => unreachable!(),
        }
    }

    // The host call at which the machine stands, unless a check of places or limits refuses it.
    fn begin(&self, ask: HostAsk) -> Result<CallCall, Trap>
        requires on_calls { 16 ≤ ask.call }
        requires at { (j : Invocation) × (start : State) × (transcript : Transcript) × (s : State) × (h : HostCall)
            × AtHost self.now j start transcript s h × AsksThat ask h }
        ensures trap { IfErr result (λ t. (j : Invocation) (start : State) (transcript : Transcript) (s : State) (h : HostCall)
            → AtHost self.now j start transcript s h → AsksThat ask h → first_trap j s (checks h) ≡ Some t) }
        ensures begun { IfOk result (λ call. (j : Invocation) (start : State) (transcript : Transcript) (s : State) (h : HostCall)
            → AtHost self.now j start transcript s h → AsksThat ask h → HasBegun j s h call.stage) }
        ensures fresh { IfOk result (λ call. IsFresh call.stage) }
    {
        let called = self.called();
        CallCall::begin(
            low_halves(ask),
            &self.known,
            called.callees.len() as u32,
            called.len,
            self.output.len(),
            called.room,
        )
    }

    /// A host call is done with this result: the machine goes on with it.
    pub(crate) fn resume(&mut self, value: Option<u64>)
        requires { (j : Invocation) × (start : State) × (transcript : Transcript) × (p : Progress)
            × HasResult self.old j start transcript p value }
        ensures goes { (j : Invocation) (start : State) (transcript : Transcript) (p : Progress)
            → HasResult self.old j start transcript p value
            → StandsAt self.new j start transcript p × IsReady self.new j p }
        ensures fuel { self.new.machine.thread.fuel ≡ self.old.machine.thread.fuel }
        ensures rooms { SameRoom self.old self.new }
    {
        self.machine.resume_host(Ok(value));
        self.stage = Stage::Runs;
    }

    // A host call on calls is done: its output is appended, and the machine goes on with its result.
    fn go_on(&mut self, call: CallCall, value: Option<u64>)
        requires { (j : Invocation) × (start : State) × (transcript : Transcript) × (p : Progress)
            × HasCome self.old j start transcript p (CallStep.Done value) call.stage }
        ensures goes { (j : Invocation) (start : State) (transcript : Transcript) (p : Progress)
            → HasCome self.old j start transcript p (CallStep.Done value) call.stage
            → StandsAt self.new j start transcript p × IsReady self.new j p }
        ensures fuel { self.new.machine.thread.fuel ≡ self.old.machine.thread.fuel }
        ensures rooms { SameRoom self.old self.new }
    {
        append_front(&mut self.output, &mut self.machine, call.added());
        self.resume(value);
    }

    // A step of the host call was done: the call stands at its question, the machine goes on, or the call ends.
    fn take_up(&mut self, call: CallCall, told: CallStep)
        requires { (j : Invocation) × (start : State) × (transcript : Transcript) × (p : Progress)
            × HasCome self.old j start transcript p told call.stage }
        ensures goes { (j : Invocation) (start : State) (transcript : Transcript) (p : Progress)
            → HasCome self.old j start transcript p told call.stage
            → StandsAt self.new j start transcript p × IsReady self.new j p }
        ensures fuel { self.new.stage ≡ Stage.Runs → self.new.machine.thread.fuel ≡ self.old.machine.thread.fuel }
        ensures rooms { SameRoom self.old self.new }
    {
        match told {
            CallStep::Ask(ask) => self.stage = Stage::Asks(Work::Call(call), ask),
            CallStep::Done(value) => self.go_on(call, value),
            CallStep::Trap(trap) => self.end(Outcome::Trap(trap)),
            CallStep::Want => self.end(Outcome::Want),
        }
    }

    // The first step of a host call that has begun.
    fn first(&mut self, mut call: CallCall)
        requires fresh { IsFresh call.stage }
        requires at { (j : Invocation) × (start : State) × (transcript : Transcript) × (s : State) × (h : HostCall)
            × AtHost self.old j start transcript s h × HasBegun j s h call.stage }
        ensures goes { (j : Invocation) (start : State) (transcript : Transcript) (s : State) (h : HostCall)
            → AtHost self.old j start transcript s h → HasBegun j s h call.stage → GoesOn self.new j start transcript }
        ensures fuel { self.new.stage ≡ Stage.Runs → self.new.machine.thread.fuel ≡ self.old.machine.thread.fuel }
        ensures rooms { SameRoom self.old self.new }
    {
        let called = self.called();
        let input = &self.input.as_slice()[..called.len as usize];
        let told = call.step(
            None,
            called.grants,
            &mut self.known,
            input,
            &mut self.machine,
        );
        self.take_up(call, told);
    }

    // A host call on calls, up to its first question or its end.
    fn serve_call(&mut self, ask: HostAsk)
        requires on_calls { 16 ≤ ask.call }
        requires at { (j : Invocation) × (start : State) × (transcript : Transcript) × (s : State) × (h : HostCall)
            × AtHost self.old j start transcript s h × AsksThat ask h }
        ensures goes { (j : Invocation) (start : State) (transcript : Transcript) (s : State) (h : HostCall)
            → AtHost self.old j start transcript s h → AsksThat ask h → GoesOn self.new j start transcript }
        ensures fuel { self.new.stage ≡ Stage.Runs → self.new.machine.thread.fuel ≡ self.old.machine.thread.fuel }
        ensures rooms { SameRoom self.old self.new }
    {
        match self.begin(ask) {
            Ok(call) => self.first(call),
            Err(trap) => self.end(Outcome::Trap(trap)),
        }
    }

    /// Does the host call at which the machine stands, up to its first question or its end.
    pub(crate) fn serve(&mut self, ask: HostAsk)
        requires { (j : Invocation) × (start : State) × (transcript : Transcript) × (s : State) × (h : HostCall)
            × AtHost self.old j start transcript s h × AsksThat ask h }
        ensures goes { (j : Invocation) (start : State) (transcript : Transcript) (s : State) (h : HostCall)
            → AtHost self.old j start transcript s h → AsksThat ask h → GoesOn self.new j start transcript }
        ensures fuel { self.new.stage ≡ Stage.Runs → self.new.machine.thread.fuel ≡ self.old.machine.thread.fuel }
        ensures rooms { SameRoom self.old self.new }
    {
        if ask.call < FIRST_ON_CALLS {
            self.serve_state(ask);
        } else {
            self.serve_call(ask);
        }
    }

    /// A step of a host call on calls after the reply.
    pub(crate) fn after_call(&mut self, mut call: CallCall, reply: Reply)
        requires { (j : Invocation) × (start : State) × (transcript : Transcript) × (s : State) × (q : Question) × (r : Answer)
            × HasReply self.old j start transcript s q r (works.Call call) reply }
        ensures goes { (j : Invocation) (start : State) (transcript : Transcript) (s : State) (q : Question) (r : Answer)
            → HasReply self.old j start transcript s q r (works.Call call) reply
            → StandsAt self.new j start transcript (replied j s r) × IsReady self.new j (replied j s r) }
        ensures rooms { SameRoom self.old self.new }
    {
        let called = self.called();
        let input = &self.input.as_slice()[..called.len as usize];
        let told = call.step(
            Some(reply),
            called.grants,
            &mut self.known,
            input,
            &mut self.machine,
        );
        self.take_up(call, told);
    }
}
