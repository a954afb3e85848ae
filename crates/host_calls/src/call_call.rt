//! A host call on calls as it goes on, from question to question.

ghost use Rattle.std.specs.Prelude.{◌≡◌, ℕ, ◌+◌, ◌<◌, ◌≤◌, List, Option, Some, None, IfErr, IfOk, drop, false, length, slice_range, take, true};
ghost use Rattle.faaslet_meaning.specs.Asks.{reply_of};
ghost use Rattle.faaslet_meaning.specs.Call.{replied, serve};
ghost use Rattle.faaslet_meaning.specs.CallState.{Invocation, State};
ghost use Rattle.faaslet_meaning.specs.Channels.{Reply as Answer};
ghost use Rattle.faaslet_meaning.specs.Checks.{checks, first_trap};
ghost use Rattle.faaslet_meaning.specs.Fine.{has_result};
ghost use Rattle.faaslet_meaning.specs.HostCalls.{HostCall};
ghost use Rattle.wasm_interp.specs.StandsFor.{AsksHost};
ghost use Rattle.host_calls.specs.Buffers.{IsWithin};
ghost use Rattle.host_calls.specs.CallHosts.{AreSmall, HasShort, Knows};
ghost use Rattle.host_calls.specs.Calls.{here, IsOf, stage_of, trap_at, added_by, HasInput, IsFresh, AtQuestion, IsAllowed, IsBegun, IsAmid, Belongs, Shows, Comes, GivesSo, gives_result, sends, writes, chains};
ghost use Rattle.host_calls.specs.declared.call_call.CallStage.TheVariants as stages;

use crate::buffer::{fetch, send, sized};
use crate::call_host::{CallHost, CallLimits};
use crate::call_known::CallKnown;
use crate::call_parts::{await_answer, read_ask, take_input, take_output, write_ask};
use crate::modes::check_buffer;
use crate::span::Span;
use faaslet_meaning::{Ask, Grant, Grants, Linear, Mode, Reply, Trap};
use wasm_interp::{HostAsk, Machine};

/// What a host call comes to: a question, its end with a result or a trap, or a child for which there was no memory.
#[derive(Clone, Copy, Debug, PartialEq, Eq)]
pub enum CallStep {
    Ask(Ask),
    Done(Option<u64>),
    Trap(Trap),
    Want,
}

/// What is left of a host call on calls.
#[derive(Clone, Copy)]
pub enum CallStage {
    /// It gives this number.
    Gives(u32),
    /// It takes bytes of the input from a place on, and writes them to a buffer.
    TakesInput { off: u32, span: Span },
    /// It writes the bytes that it holds to a buffer.
    SendsOut { span: Span },
    /// It reads a buffer, whose bytes are output.
    Writes { span: Span },
    /// It reads a buffer, and submits a call of the function at a place with it.
    Chains { function: u32, span: Span },
    /// It submits a call of the function at a place, with so many bytes that it holds.
    Submits { function: u32, len: u32 },
    /// It awaits a child.
    Awaits { child: u32 },
    /// It looks at a child, and writes bytes of its output, from a place on, to a buffer.
    Looks { child: u32, off: u32, span: Span },
}

/// A host call on calls in progress.
#[derive(Clone, Copy)]
pub struct CallCall {
    stage: CallStage,
}

impl CallStage {
    fn of(host: CallHost, known: &CallKnown, input: u32) -> CallStage
        ensures { result ≡ stage_of known.now input host }
    {
        match host {
            CallHost::InputSize => CallStage::Gives(input),
            CallHost::ReadInput { off, ptr, len } => CallStage::TakesInput {
                off,
                span: Span::of(ptr, len),
            },
            CallHost::WriteOutput { ptr, len } => CallStage::Writes {
                span: Span::of(ptr, len),
            },
            CallHost::ChainCall { function, ptr, len } => CallStage::Chains {
                function,
                span: Span::of(ptr, len),
            },
            CallHost::AwaitCall { child } => CallStage::Awaits { child },
            CallHost::OutputSize { child } => CallStage::Gives(known.noted(child).unwrap_or(0)),
            CallHost::ReadOutput {
                child,
                off,
                ptr,
                len,
            } => CallStage::Looks {
                child,
                off,
                span: Span::of(ptr, len),
            },
        }
    }

    // The check of the buffer, where there is one.
    fn refusal<'m, M: Linear>(self, grants: &[Grant], machine: &mut Machine<'m, M>) -> Option<Trap>
        requires { IsFresh self }
        ensures same { machine.new ≡ machine.old }
        ensures trap { result ≡ trap_at self grants.now (M.memory machine.old.memory) }
    {
        match self {
            CallStage::TakesInput { span, .. } | CallStage::Looks { span, .. } => {
                check_buffer(machine, grants, Mode::Write, span)
            }
            CallStage::Writes { span } | CallStage::Chains { span, .. } => {
                check_buffer(machine, grants, Mode::Read, span)
            }
            _ => None,
        }
    }
}

impl CallCall {
    /// The host call at which the machine stands, once its checks of places and limits have passed.
    pub fn begin(
        ask: HostAsk,
        known: &CallKnown,
        callees: u32,
        input_len: u32,
        out_len: u32,
        room: u32,
    ) -> Result<CallCall, Trap>
        requires low { 16 ≤ ask.call }
        requires high { ask.call ≤ 22 }
        requires small { AreSmall ask.args }
        requires asked { (h : HostCall) × AsksHost ask h × HasShort h }
        ensures trap { IfErr result (λ t. (j : Invocation) (s : State) (h : HostCall) → AsksHost ask h
            → Knows j s known.now (record { callees = callees; input = input_len; output = out_len; room = room })
            → first_trap j s (checks h) ≡ Some t) }
        ensures begun { IfOk result (λ call. (j : Invocation) (s : State) (h : HostCall) → AsksHost ask h
            → Knows j s known.now (record { callees = callees; input = input_len; output = out_len; room = room })
            → IsBegun call.stage j s h) }
        ensures fresh { IfOk result (λ call. IsFresh call.stage) }
        ensures input { IfOk result (λ call. (input : List ℕ) → length input ≡ input_len → HasInput call.stage input) }
        ensures gives { IfOk result (λ call. (h : HostCall) → AsksHost ask h → gives_result call.stage ≡ has_result h) }
    {
        let host = CallHost::of(ask);
        let limits = CallLimits {
            callees,
            input: input_len,
            output: out_len,
            room,
        };
        match host.refusal(known, limits) {
            Some(trap) => Err(trap),
            None => Ok(CallCall {
                stage: CallStage::of(host, known, input_len),
            }),
        }
    }

    /// How many bytes a call that is done adds to the output; they are the first of the scratch.
    pub fn added(&self) -> u32
        ensures { result ≡ added_by self.now.stage }
    {
        match self.stage {
            CallStage::Writes { span } => span.len,
            _ => 0,
        }
    }

    fn send_on<'m, M: Linear>(
        &mut self,
        span: Span,
        grants: &[Grant],
        machine: &mut Machine<'m, M>,
    ) -> CallStep
        requires within { IsWithin (M.memory machine.old.memory) span }
        ensures only { machine.new ≡ record machine.old { memory = machine.new.memory; scratch = machine.new.scratch } }
        ensures backing { M.backing machine.new.memory ≡ M.backing machine.old.memory }
        ensures shows { (j : Invocation) (s : State) (children : List (Option ℕ)) → j.program.grants ≡ grants.now
            → Shows j s (sends j s (here M.memory machine.old children) span) result self.new.stage (here M.memory machine.new children) }
        ensures no_want { result ≡ CallStep.Want → ⊥ }
        ensures gives { GivesSo false result self.new.stage }
        ensures sends { (span : Span) × (self.new.stage ≡ stages.SendsOut span) }
    {
        let reached = send(machine, span);
        self.stage = CallStage::SendsOut { span: reached.span };
        match reached.piece {
            Some(piece) => CallStep::Ask(write_ask(grants, piece)),
            None => CallStep::Done(None),
        }
    }

    fn write_on<'m, M: Linear>(
        &mut self,
        span: Span,
        grants: &[Grant],
        machine: &mut Machine<'m, M>,
    ) -> CallStep
        requires within { IsWithin (M.memory machine.old.memory) span }
        ensures only { machine.new ≡ record machine.old { aside = machine.new.aside; scratch = machine.new.scratch } }
        ensures shows { (j : Invocation) (s : State) (children : List (Option ℕ)) → j.program.grants ≡ grants.now
            → Shows j s (writes j s (here M.memory machine.old children) span) result self.new.stage (here M.memory machine.new children) }
        ensures no_want { result ≡ CallStep.Want → ⊥ }
        ensures gives { GivesSo false result self.new.stage }
        ensures writes { (span : Span) × (self.new.stage ≡ stages.Writes span) }
    {
        let reached = fetch(machine, span);
        self.stage = CallStage::Writes { span: reached.span };
        match reached.piece {
            Some(piece) => CallStep::Ask(read_ask(grants, piece)),
            None => {
                machine.bring_back(0, span.len);
                CallStep::Done(None)
            }
        }
    }

    fn chain_on<'m, M: Linear>(
        &mut self,
        function: u32,
        span: Span,
        grants: &[Grant],
        machine: &mut Machine<'m, M>,
    ) -> CallStep
        requires within { IsWithin (M.memory machine.old.memory) span }
        ensures only { machine.new ≡ record machine.old { aside = machine.new.aside; scratch = machine.new.scratch } }
        ensures shows { (j : Invocation) (s : State) (children : List (Option ℕ)) → j.program.grants ≡ grants.now → function < length j.callees
            → Shows j s (chains j s (here M.memory machine.old children) function span) result self.new.stage (here M.memory machine.new children)
            × IsAllowed j children self.new.stage }
        ensures no_want { result ≡ CallStep.Want → ⊥ }
        ensures gives { GivesSo true result self.new.stage }
    {
        let reached = fetch(machine, span);
        match reached.piece {
            Some(piece) => {
                self.stage = CallStage::Chains {
                    function,
                    span: reached.span,
                };
                CallStep::Ask(read_ask(grants, piece))
            }
            None => {
                let len = span.len;
                self.stage = CallStage::Submits { function, len };
                machine.bring_back(0, len);
                CallStep::Ask(Ask::Submit { function, len })
            }
        }
    }

    fn first<'m, M: Linear>(
        &mut self,
        grants: &[Grant],
        input: &[u8],
        machine: &mut Machine<'m, M>,
    ) -> CallStep
        requires fresh { IsFresh self.old.stage }
        requires input { HasInput self.old.stage input.now }
        ensures only { machine.new ≡ record machine.old { memory = machine.new.memory; aside = machine.new.aside; scratch = machine.new.scratch } }
        ensures backing { M.backing machine.new.memory ≡ M.backing machine.old.memory }
        ensures comes { (j : Invocation) (s : State) (h : HostCall) (children : List (Option ℕ)) → j.program.grants ≡ grants.now → j.input ≡ input.now
            → IsOf (here M.memory machine.old children) s → IsBegun self.old.stage j s h
            → Comes j s (serve j s h) result self.new.stage (here M.memory machine.new children) }
        ensures no_want { result ≡ CallStep.Want → ⊥ }
        ensures gives { GivesSo (gives_result self.old.stage) result self.new.stage }
    {
        if let Some(trap) = self.stage.refusal(grants, machine) {
            return CallStep::Trap(trap);
        }
        sized(machine);
        match self.stage {
            CallStage::Gives(number) => CallStep::Done(Some(u64::from(number))),
            CallStage::TakesInput { off, span } => {
                take_input(machine, input, off, span.len);
                self.send_on(span, grants, machine)
            }
            CallStage::Writes { span } => self.write_on(span, grants, machine),
            CallStage::Chains { function, span } => self.chain_on(function, span, grants, machine),
            CallStage::Awaits { child } => CallStep::Ask(Ask::Look { child }),
            CallStage::Looks { child, .. } => CallStep::Ask(Ask::Look { child }),
            CallStage::SendsOut { .. } | CallStage::Submits { .. } => unreachable!(),
        }
    }

    fn after<'m, M: Linear>(
        &mut self,
        reply: Reply,
        grants: &[Grant],
        known: &mut CallKnown,
        machine: &mut Machine<'m, M>,
    ) -> CallStep
        requires at { AtQuestion self.old.stage (M.memory machine.old.memory) }
        requires reply { Belongs self.old.stage known.old reply }
        ensures only { machine.new ≡ record machine.old { memory = machine.new.memory; aside = machine.new.aside; scratch = machine.new.scratch } }
        ensures backing { M.backing machine.new.memory ≡ M.backing machine.old.memory }
        ensures comes { (j : Invocation) (s : State) (answer : Answer) → j.program.grants ≡ grants.now
            → IsOf (here M.memory machine.old known.old) s → IsAmid self.old.stage (here M.memory machine.old known.old) j s
            → reply_of reply machine.old.scratch ≡ Some answer
            → Comes j s (replied j s answer) result self.new.stage (here M.memory machine.new known.new) }
        ensures want { result ≡ CallStep.Want → reply ≡ Reply.Want }
        ensures gives { GivesSo (gives_result self.old.stage) result self.new.stage }
    {
        sized(machine);
        match (self.stage, reply) {
            (CallStage::SendsOut { span }, Reply::Done) => {
                self.send_on(span.passed(), grants, machine)
            }
            (CallStage::Writes { span }, Reply::Bytes(len)) => {
                machine.put_aside(span.done, len);
                self.write_on(span.passed(), grants, machine)
            }
            (CallStage::Chains { function, span }, Reply::Bytes(len)) => {
                machine.put_aside(span.done, len);
                self.chain_on(function, span.passed(), grants, machine)
            }
            (CallStage::Submits { .. }, Reply::Child(child)) => {
                known.add();
                CallStep::Done(Some(u64::from(child)))
            }
            (CallStage::Submits { .. }, Reply::ChainFull) => CallStep::Trap(Trap::ChainFull),
            (CallStage::Submits { .. }, Reply::Want) => CallStep::Want,
            (CallStage::Awaits { child }, Reply::Finished { outcome, len }) => {
                known.note(child, len);
                CallStep::Done(Some(await_answer(outcome)))
            }
            (CallStage::Looks { child, off, span }, Reply::Finished { len, .. }) => {
                known.note(child, len);
                take_output(machine, off, span.len);
                self.send_on(span, grants, machine)
            }
            _ => unreachable!(),
        }
    }

    /// Goes on: at first without a reply, and then after each question with its reply. Each shared piece of a buffer is a
    /// question. When `write_output` is done, its bytes are the first `added` of the scratch, for the caller to append.
    pub fn step<'m, M: Linear>(
        &mut self,
        last: Option<Reply>,
        grants: &Grants,
        known: &mut CallKnown,
        input: &[u8],
        machine: &mut Machine<'m, M>,
    ) -> CallStep
        requires first { last ≡ None → IsFresh self.old.stage × HasInput self.old.stage input.now }
        requires after { (r : Reply) → last ≡ Some r → AtQuestion self.old.stage (M.memory machine.old.memory) × Belongs self.old.stage known.old r }
        ensures only { machine.new ≡ record machine.old { memory = machine.new.memory; aside = machine.new.aside; scratch = machine.new.scratch } }
        ensures backing { M.backing machine.new.memory ≡ M.backing machine.old.memory }
        ensures first { (j : Invocation) (s : State) (h : HostCall) → last ≡ None → j.program.grants ≡ grants.now → j.input ≡ input.now
            → IsOf (here M.memory machine.old known.old) s → IsBegun self.old.stage j s h
            → Comes j s (serve j s h) result self.new.stage (here M.memory machine.new known.new) }
        ensures after { (j : Invocation) (s : State) (r : Reply) (answer : Answer) → last ≡ Some r → j.program.grants ≡ grants.now
            → IsOf (here M.memory machine.old known.old) s → IsAmid self.old.stage (here M.memory machine.old known.old) j s
            → reply_of r machine.old.scratch ≡ Some answer
            → Comes j s (replied j s answer) result self.new.stage (here M.memory machine.new known.new) }
        ensures want { result ≡ CallStep.Want → last ≡ Some Reply.Want }
        ensures gives { GivesSo (gives_result self.old.stage) result self.new.stage }
    {
        match last {
            None => self.first(grants.as_slice(), input, machine),
            Some(reply) => self.after(reply, grants.as_slice(), known, machine),
        }
    }
}
