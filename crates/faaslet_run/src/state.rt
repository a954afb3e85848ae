//! The host calls on state: each up to its next question, or to its end.

ghost use Rattle.std.specs.Prelude.{◌≡◌, ◌≤◌, Some, IfErr, IfOk};
ghost use Rattle.faaslet_meaning.specs.Call.{replied};
ghost use Rattle.faaslet_meaning.specs.CallState.{Invocation, State, Progress};
ghost use Rattle.faaslet_meaning.specs.Channels.{Question, Reply as Answer, Transcript};
ghost use Rattle.faaslet_meaning.specs.Checks.{checks, first_trap};
ghost use Rattle.faaslet_meaning.specs.HostCalls.{HostCall};
ghost use Rattle.faaslet_run.specs.Hosts.{AsksThat, AtHost, HasReply, StateHasBegun, StateHasCome};
ghost use Rattle.faaslet_run.specs.Places.{StandsAt};
ghost use Rattle.faaslet_run.specs.Turns.{GoesOn, IsReady, SameRoom};
ghost use Rattle.faaslet_run.specs.declared.faaslet.Work.TheVariants as works;

use crate::faaslet::{Faaslet, Stage, Work};
use crate::host::low_halves;
use faaslet_meaning::{Outcome, Reply, Trap};
use host_calls::{StateCall, StateStep};
use wasm_interp::HostAsk;

impl<'s> Faaslet<'s> {
    // The host call at which the machine stands, unless a check of places, modes, ranges or limits refuses it.
    fn begin_state(&self, ask: HostAsk) -> Result<StateCall, Trap>
        requires on_state { ask.call ≤ 15 }
        requires at { (j : Invocation) × (start : State) × (transcript : Transcript) × (s : State) × (h : HostCall)
            × AtHost self.now j start transcript s h × AsksThat ask h }
        ensures trap { IfErr result (λ t. (j : Invocation) (start : State) (transcript : Transcript) (s : State) (h : HostCall)
            → AtHost self.now j start transcript s h → AsksThat ask h → first_trap j s (checks h) ≡ Some t) }
        ensures begun { IfOk result (λ call. (j : Invocation) (start : State) (transcript : Transcript) (s : State) (h : HostCall)
            → AtHost self.now j start transcript s h → AsksThat ask h → StateHasBegun self.now j s h call.stage) }
    {
        let called = self.called();
        StateCall::begin(low_halves(ask), called.grants, &self.keys)
    }

    // A step of the host call was done: the call stands at its question, the machine goes on, or the call ends.
    fn take_up_state(&mut self, call: StateCall, told: StateStep)
        requires { (j : Invocation) × (start : State) × (transcript : Transcript) × (p : Progress)
            × StateHasCome self.old j start transcript p told call.stage }
        ensures goes { (j : Invocation) (start : State) (transcript : Transcript) (p : Progress)
            → StateHasCome self.old j start transcript p told call.stage
            → StandsAt self.new j start transcript p × IsReady self.new j p }
        ensures fuel { self.new.stage ≡ Stage.Runs → self.new.machine.thread.fuel ≡ self.old.machine.thread.fuel }
        ensures rooms { SameRoom self.old self.new }
    {
        match told {
            StateStep::Ask(ask) => self.stage = Stage::Asks(Work::State(call), ask),
            StateStep::Done(value) => self.resume(value),
            StateStep::Trap(trap) => self.end(Outcome::Trap(trap)),
        }
    }

    // The first step of a host call that has begun.
    fn first_state(&mut self, mut call: StateCall)
        requires { (j : Invocation) × (start : State) × (transcript : Transcript) × (s : State) × (h : HostCall)
            × AtHost self.old j start transcript s h × StateHasBegun self.old j s h call.stage }
        ensures goes { (j : Invocation) (start : State) (transcript : Transcript) (s : State) (h : HostCall)
            → AtHost self.old j start transcript s h → StateHasBegun self.old j s h call.stage → GoesOn self.new j start transcript }
        ensures fuel { self.new.stage ≡ Stage.Runs → self.new.machine.thread.fuel ≡ self.old.machine.thread.fuel }
        ensures rooms { SameRoom self.old self.new }
    {
        let called = self.called();
        let told = call.step(None, called.grants, &mut self.keys, &mut self.machine);
        self.take_up_state(call, told);
    }

    /// A host call on state, up to its first question or its end.
    pub(crate) fn serve_state(&mut self, ask: HostAsk)
        requires on_state { ask.call ≤ 15 }
        requires at { (j : Invocation) × (start : State) × (transcript : Transcript) × (s : State) × (h : HostCall)
            × AtHost self.old j start transcript s h × AsksThat ask h }
        ensures goes { (j : Invocation) (start : State) (transcript : Transcript) (s : State) (h : HostCall)
            → AtHost self.old j start transcript s h → AsksThat ask h → GoesOn self.new j start transcript }
        ensures fuel { self.new.stage ≡ Stage.Runs → self.new.machine.thread.fuel ≡ self.old.machine.thread.fuel }
        ensures rooms { SameRoom self.old self.new }
    {
        match self.begin_state(ask) {
            Ok(call) => self.first_state(call),
            Err(trap) => self.end(Outcome::Trap(trap)),
        }
    }

    /// A step of a host call on state after the reply.
    pub(crate) fn after_state(&mut self, mut call: StateCall, reply: Reply)
        requires { (j : Invocation) × (start : State) × (transcript : Transcript) × (s : State) × (q : Question) × (r : Answer)
            × HasReply self.old j start transcript s q r (works.State call) reply }
        ensures goes { (j : Invocation) (start : State) (transcript : Transcript) (s : State) (q : Question) (r : Answer)
            → HasReply self.old j start transcript s q r (works.State call) reply
            → StandsAt self.new j start transcript (replied j s r) × IsReady self.new j (replied j s r) }
        ensures rooms { SameRoom self.old self.new }
    {
        let called = self.called();
        let told = call.step(
            Some(reply),
            called.grants,
            &mut self.keys,
            &mut self.machine,
        );
        self.take_up_state(call, told);
    }
}
