//! A host call on state as it goes on, from question to question.

ghost use Rattle.std.specs.Prelude.{◌≡◌, ℕ, ◌+◌, ◌*◌, ◌<◌, ◌≤◌, All, List, Option, Some, None, IfErr, IfOk, IsTrue, false, length, true};
ghost use Rattle.faaslet_meaning.specs.Asks.{RepliesAs};
ghost use Rattle.faaslet_meaning.specs.Asked.{question_at};
ghost use Rattle.faaslet_meaning.specs.Call.{replied, serve};
ghost use Rattle.faaslet_meaning.specs.CallState.{Invocation, State};
ghost use Rattle.faaslet_meaning.specs.Channels.{Question, Reply as Answer};
ghost use Rattle.faaslet_meaning.specs.Checks.{checks, first_trap};
ghost use Rattle.faaslet_meaning.specs.Fine.{has_result};
ghost use Rattle.faaslet_meaning.specs.Formed.{KeysDiffer};
ghost use Rattle.faaslet_meaning.specs.HostCalls.{HostCall};
ghost use Rattle.faaslet_meaning.specs.Memory.{grant_limit, mappings};
ghost use Rattle.wasm_interp.specs.StandsFor.{AsksHost};
ghost use Rattle.host_calls.specs.Acts.{acts_of, whole_acts, needs_presence, IsShortAct};
ghost use Rattle.host_calls.specs.Buffers.{IsWithin};
ghost use Rattle.host_calls.specs.CallHosts.{AreSmall, HasShort};
ghost use Rattle.host_calls.specs.Known.{KeepsOf};
ghost use Rattle.host_calls.specs.Calls.{fresh_span};
ghost use Rattle.host_calls.specs.States.{here, IsOf, IsAct, stage_by, act_trap, stage_of, trap_at, IsShortStage, IsFresh, maps, AtQuestion, ActBelongs, IsBegun, IsAmid, Belongs, Shows, Comes, goes, sends, collecting, sees, probed, act_question, acted, act_gives, put_gives, gives_result, GivesSo};
ghost use Rattle.host_calls.specs.declared.state_call.StateStage.TheVariants as stages;
ghost use Rattle.host_calls.specs.declared.state_known.Known.{Known as Keeping};

use crate::buffer::{fetch, send, sized};
use crate::call_parts::{read_ask, write_ask};
use crate::modes::{check_buffer, key_at};
use crate::span::Span;
use crate::state_act::{Put, StateAct};
use crate::state_host::{StateHost, StateKind};
use crate::state_known::Known;
use crate::state_parts::{fill_ask, is_sought, map_key, map_refusal, probe_ask, size_at};
use faaslet_meaning::{Ask, Grant, Grants, Linear, Mode, Reply, Trap};
use wasm_interp::{HostAsk, Machine};

/// What a host call comes to: a question, or its end with a result or a trap.
#[derive(Clone, Copy, Debug, PartialEq, Eq)]
pub enum StateStep {
    Ask(Ask),
    Done(Option<u64>),
    Trap(Trap),
}

/// What is left of a host call on state.
#[derive(Clone, Copy)]
pub enum StateStage {
    /// It gives this number.
    Gives(u32),
    /// It reads a buffer, whose bytes go to the key at a place.
    Collects { place: u32, put: Put, span: Span },
    /// It asks whether the key at a place is present, and then does this.
    Probes { place: u32, act: StateAct },
    /// It fills the replica of the key at a place, and then does this.
    Fills { place: u32, act: StateAct },
    /// It does this with the key at a place; before its first step the key may not have been seen present yet.
    Acts { place: u32, act: StateAct },
    /// It writes the bytes that it holds to a buffer.
    Sends { span: Span },
}

/// A host call on state in progress.
#[derive(Clone, Copy)]
pub struct StateCall {
    stage: StateStage,
}

fn acts(place: u32, act: StateAct) -> StateStage
    ensures { result ≡ stages.Acts place act }
{
    StateStage::Acts { place, act }
}

fn collects(place: u32, put: Put, ptr: u32, len: u32) -> StateStage
    ensures { result ≡ stages.Collects place put (fresh_span ptr len) }
{
    let span = Span::of(ptr, len);
    StateStage::Collects { place, put, span }
}

impl StateStage {
    fn of(place: u32, size: u32, address: Option<u32>, kind: StateKind) -> StateStage
        ensures { result ≡ stage_by place size address kind }
    {
        match kind {
            StateKind::Size => StateStage::Gives(size),
            StateKind::Used => acts(place, StateAct::Used),
            StateKind::Get => match address {
                Some(address) => StateStage::Gives(address),
                None => acts(place, StateAct::Map),
            },
            StateKind::Read { off, ptr, len } => {
                let span = Span::of(ptr, len);
                acts(place, StateAct::Read { off, span })
            }
            StateKind::Set { off, ptr, len } => collects(place, Put::At(off), ptr, len),
            StateKind::Push => acts(place, StateAct::Push { off: 0, len: size }),
            StateKind::Pull => acts(place, StateAct::Pull { off: 0, len: size }),
            StateKind::PushPart { off, len } => acts(place, StateAct::Push { off, len }),
            StateKind::PullPart { off, len } => acts(place, StateAct::Pull { off, len }),
            StateKind::Append { ptr, len } => collects(place, Put::Behind, ptr, len),
            StateKind::Lock { tier, mode } => acts(place, StateAct::Lock { tier, mode }),
            StateKind::Unlock { tier } => acts(place, StateAct::Unlock { tier }),
        }
    }

    fn at(host: StateHost, grants: &[Grant], known: &Known) -> StateStage
        ensures { result ≡ stage_of grants.now known.now host }
    {
        let size = size_at(grants, host.place);
        let address = known.at(host.place).address;
        StateStage::of(host.place, size, address, host.kind)
    }

    // The check of what is looked up in memory: the pages that a mapping takes, or the buffer.
    fn refusal<'m, M: Linear>(self, grants: &[Grant], machine: &mut Machine<'m, M>) -> Option<Trap>
        requires { IsShortStage self }
        ensures same { machine.new ≡ machine.old }
        ensures trap { result ≡ trap_at self grants.now (M.memory machine.old.memory) }
    {
        match self {
            StateStage::Collects { span, .. } => check_buffer(machine, grants, Mode::Read, span),
            StateStage::Acts { place, act } => act_refusal(place, act, grants, machine),
            _ => None,
        }
    }
}

// The same of what is done with a key.
fn act_refusal<'m, M: Linear>(
    place: u32,
    act: StateAct,
    grants: &[Grant],
    machine: &mut Machine<'m, M>,
) -> Option<Trap>
    requires { IsShortAct act }
    ensures same { machine.new ≡ machine.old }
    ensures trap { result ≡ act_trap place act grants.now (M.memory machine.old.memory) }
{
    match act {
        StateAct::Map => map_refusal(machine, size_at(grants, place)),
        StateAct::Read { span, .. } => check_buffer(machine, grants, Mode::Write, span),
        _ => None,
    }
}

impl StateCall {
    /// The host call at which the machine stands, once its checks of places, modes, ranges and limits have passed. The check of
    /// the pages that a mapping takes, and that of a buffer, are made by the first `step`.
    pub fn begin(ask: HostAsk, grants: &Grants, known: &Known) -> Result<StateCall, Trap>
        requires high { ask.call ≤ 15 }
        requires small { AreSmall ask.args }
        requires asked { (h : HostCall) × AsksHost ask h × HasShort h }
        requires few { length grants.now ≤ grant_limit }
        ensures trap { IfErr result (λ t. (j : Invocation) (s : State) (h : HostCall) → AsksHost ask h
            → j.program.grants ≡ grants.now → KeepsOf known.now s
            → first_trap j s (checks h) ≡ Some t) }
        ensures begun { IfOk result (λ call. (j : Invocation) (s : State) (h : HostCall) → AsksHost ask h
            → j.program.grants ≡ grants.now → KeepsOf known.now s
            → IsBegun call.stage j s h) }
        ensures fresh { IfOk result (λ call. IsFresh call.stage (length grants.now) known.now) }
        ensures gives { IfOk result (λ call. (h : HostCall) → AsksHost ask h → gives_result call.stage ≡ has_result h) }
    {
        let host = StateHost::of(ask);
        let list = grants.as_slice();
        match host.refusal(list, known) {
            Some(trap) => Err(trap),
            None => {
                let stage = StateStage::at(host, list, known);
                Ok(StateCall { stage })
            }
        }
    }

    fn send_on<'m, M: Linear>(
        &mut self,
        span: Span,
        grants: &[Grant],
        machine: &mut Machine<'m, M>,
    ) -> StateStep
        requires within { IsWithin (M.memory machine.old.memory) span }
        ensures only { machine.new ≡ record machine.old { memory = machine.new.memory; scratch = machine.new.scratch } }
        ensures backing { M.backing machine.new.memory ≡ M.backing machine.old.memory }
        ensures shows { (j : Invocation) (s : State) (known : Keeping) → j.program.grants ≡ grants.now
            → IsOf (here M.memory machine.old known) s
            → Shows j s (sends j s (here M.memory machine.old known) span) result self.new.stage (here M.memory machine.new known) }
        ensures gives { GivesSo false result self.new.stage }
    {
        let reached = send(machine, span);
        self.stage = StateStage::Sends { span: reached.span };
        match reached.piece {
            Some(piece) => StateStep::Ask(write_ask(grants, piece)),
            None => StateStep::Done(None),
        }
    }

    // It does this with a key that is present, where it must be.
    fn act<'m, M: Linear>(
        &mut self,
        place: u32,
        act: StateAct,
        grants: &[Grant],
        known: &mut Known,
        machine: &mut Machine<'m, M>,
    ) -> StateStep
        requires act { IsAct act place grants.now known.old (M.memory machine.old.memory) }
        requires few { length grants.now ≤ grant_limit }
        ensures only { machine.new ≡ record machine.old { memory = machine.new.memory; scratch = machine.new.scratch } }
        ensures backing { M.backing machine.new.memory ≡ M.backing machine.old.memory }
        ensures shows { (j : Invocation) (s : State) → j.program.grants ≡ grants.now
            → IsOf (here M.memory machine.old known.old) s
            → Shows j s (goes j s (here M.memory machine.old known.old) (acts_of place act) act) result self.new.stage (here M.memory machine.new known.new) }
        ensures gives { GivesSo (act_gives act) result self.new.stage }
    {
        sized(machine);
        match act.ask(key_at(grants, place)) {
            Some(ask) => {
                machine.bring_back(0, act.carried());
                self.stage = acts(place, act);
                StateStep::Ask(ask)
            }
            None => StateStep::Done(Some(u64::from(map_key(place, grants, known, machine)))),
        }
    }

    // The same, where the key may not have been seen present yet.
    fn set_out<'m, M: Linear>(
        &mut self,
        place: u32,
        act: StateAct,
        grants: &[Grant],
        known: &mut Known,
        machine: &mut Machine<'m, M>,
    ) -> StateStep
        requires act { IsAct act place grants.now known.old (M.memory machine.old.memory) }
        requires few { length grants.now ≤ grant_limit }
        ensures only { machine.new ≡ record machine.old { memory = machine.new.memory; scratch = machine.new.scratch } }
        ensures backing { M.backing machine.new.memory ≡ M.backing machine.old.memory }
        ensures shows { (j : Invocation) (s : State) → j.program.grants ≡ grants.now
            → IsOf (here M.memory machine.old known.old) s
            → Shows j s (goes j s (here M.memory machine.old known.old) (whole_acts place act) act) result self.new.stage (here M.memory machine.new known.new) }
        ensures gives { GivesSo (act_gives act) result self.new.stage }
    {
        if is_sought(known, place, act) {
            self.stage = StateStage::Probes { place, act };
            return StateStep::Ask(probe_ask(grants, place));
        }
        self.act(place, act, grants, known, machine)
    }

    // The key was seen present, and it does this with it.
    fn saw<'m, M: Linear>(
        &mut self,
        place: u32,
        act: StateAct,
        grants: &[Grant],
        known: &mut Known,
        machine: &mut Machine<'m, M>,
    ) -> StateStep
        requires act { IsAct act place grants.now known.old (M.memory machine.old.memory) }
        requires needs { needs_presence act ≡ true }
        requires few { length grants.now ≤ grant_limit }
        ensures only { machine.new ≡ record machine.old { memory = machine.new.memory; scratch = machine.new.scratch } }
        ensures backing { M.backing machine.new.memory ≡ M.backing machine.old.memory }
        ensures shows { (j : Invocation) (s : State) → j.program.grants ≡ grants.now
            → IsOf (here M.memory machine.old known.old) s
            → Shows j s (sees j s (here M.memory machine.old known.old) place act) result self.new.stage (here M.memory machine.new known.new) }
        ensures gives { GivesSo (act_gives act) result self.new.stage }
    {
        known.saw(place);
        self.act(place, act, grants, known, machine)
    }

    // The key is present in the replica, or has to be brought there.
    fn probed<'m, M: Linear>(
        &mut self,
        place: u32,
        act: StateAct,
        is_present: bool,
        grants: &[Grant],
        known: &mut Known,
        machine: &mut Machine<'m, M>,
    ) -> StateStep
        requires act { IsAct act place grants.now known.old (M.memory machine.old.memory) }
        requires needs { needs_presence act ≡ true }
        requires few { length grants.now ≤ grant_limit }
        ensures only { machine.new ≡ record machine.old { memory = machine.new.memory; scratch = machine.new.scratch } }
        ensures backing { M.backing machine.new.memory ≡ M.backing machine.old.memory }
        ensures shows { (j : Invocation) (s : State) → j.program.grants ≡ grants.now → KeysDiffer j
            → IsOf (here M.memory machine.old known.old) s
            → Shows j s (probed j s (here M.memory machine.old known.old) place act is_present) result self.new.stage (here M.memory machine.new known.new) }
        ensures gives { GivesSo (act_gives act) result self.new.stage }
    {
        if is_present {
            return self.saw(place, act, grants, known, machine);
        }
        self.stage = StateStage::Fills { place, act };
        StateStep::Ask(fill_ask(grants, place))
    }

    fn collect_on<'m, M: Linear>(
        &mut self,
        place: u32,
        put: Put,
        span: Span,
        grants: &[Grant],
        known: &mut Known,
        machine: &mut Machine<'m, M>,
    ) -> StateStep
        requires within { IsWithin (M.memory machine.old.memory) span }
        requires place { place < length grants.now }
        requires few { length grants.now ≤ grant_limit }
        ensures only { machine.new ≡ record machine.old { memory = machine.new.memory; aside = machine.new.aside; scratch = machine.new.scratch } }
        ensures backing { M.backing machine.new.memory ≡ M.backing machine.old.memory }
        ensures shows { (j : Invocation) (s : State) → j.program.grants ≡ grants.now
            → IsOf (here M.memory machine.old known.old) s
            → Shows j s (collecting j s (here M.memory machine.old known.old) place put span) result self.new.stage (here M.memory machine.new known.new) }
        ensures gives { GivesSo (put_gives put) result self.new.stage }
    {
        let reached = fetch(machine, span);
        match reached.piece {
            Some(piece) => {
                self.stage = StateStage::Collects {
                    place,
                    put,
                    span: reached.span,
                };
                StateStep::Ask(read_ask(grants, piece))
            }
            None => self.set_out(place, put.act(span.len), grants, known, machine),
        }
    }

    fn first<'m, M: Linear>(
        &mut self,
        grants: &[Grant],
        known: &mut Known,
        machine: &mut Machine<'m, M>,
    ) -> StateStep
        requires fresh { IsFresh self.old.stage (length grants.now) known.old }
        requires few { length grants.now ≤ grant_limit }
        requires sizes { All (λ g. 1 ≤ g.size) grants.now }
        requires tied { maps self.old.stage ≡ true → known.old.mappings ≡ mappings (M.memory machine.old.memory) }
        ensures only { machine.new ≡ record machine.old { memory = machine.new.memory; aside = machine.new.aside; scratch = machine.new.scratch } }
        ensures backing { M.backing machine.new.memory ≡ M.backing machine.old.memory }
        ensures comes { (j : Invocation) (s : State) (h : HostCall) → j.program.grants ≡ grants.now
            → IsOf (here M.memory machine.old known.old) s → IsBegun self.old.stage j s h
            → Comes j s (serve j s h) result self.new.stage (here M.memory machine.new known.new) }
        ensures gives { GivesSo (gives_result self.old.stage) result self.new.stage }
    {
        if let Some(trap) = self.stage.refusal(grants, machine) {
            return StateStep::Trap(trap);
        }
        match self.stage {
            StateStage::Gives(number) => StateStep::Done(Some(u64::from(number))),
            StateStage::Collects { place, put, span } => {
                self.collect_on(place, put, span, grants, known, machine)
            }
            StateStage::Acts { place, act } => self.set_out(place, act, grants, known, machine),
            _ => unreachable!(),
        }
    }

    // The reply to the question of what it does with a key.
    fn acted<'m, M: Linear>(
        &mut self,
        place: u32,
        act: StateAct,
        reply: Reply,
        grants: &[Grant],
        known: &mut Known,
        machine: &mut Machine<'m, M>,
    ) -> StateStep
        requires act { IsAct act place grants.now known.old (M.memory machine.old.memory) }
        requires reply { ActBelongs act reply }
        requires few { length grants.now ≤ grant_limit }
        requires scratch { length machine.old.scratch ≡ 65536 }
        requires aside { length machine.old.aside ≡ 65536 }
        ensures only { machine.new ≡ record machine.old { memory = machine.new.memory; aside = machine.new.aside; scratch = machine.new.scratch } }
        ensures backing { M.backing machine.new.memory ≡ M.backing machine.old.memory }
        ensures shows { (j : Invocation) (s : State) (question : Question) (answer : Answer) → j.program.grants ≡ grants.now
            → IsOf (here M.memory machine.old known.old) s
            → act_question j s place act machine.old.aside ≡ Some question → RepliesAs question reply machine.old.scratch answer
            → Shows j s (acted j s (here M.memory machine.old known.old) place act answer) result self.new.stage (here M.memory machine.new known.new) }
        ensures gives { GivesSo (act_gives act) result self.new.stage }
    {
        match (act, reply) {
            (StateAct::Read { span, .. }, Reply::Bytes(len)) => {
                machine.put_aside(0, len);
                self.send_on(span, grants, machine)
            }
            (StateAct::Write { .. }, Reply::Done) => StateStep::Done(None),
            (StateAct::Push { .. }, Reply::Done) => StateStep::Done(None),
            (StateAct::Pull { .. }, Reply::Done) => StateStep::Done(None),
            (StateAct::Used, Reply::Number(used)) => StateStep::Done(Some(u64::from(used))),
            (StateAct::Append { .. }, Reply::Number(used)) => {
                StateStep::Done(Some(u64::from(used)))
            }
            (StateAct::Append { .. }, Reply::Full) => StateStep::Trap(Trap::AppendFull),
            (StateAct::Lock { tier, .. }, Reply::Done) => {
                known.lock(place, tier);
                StateStep::Done(None)
            }
            (StateAct::Unlock { tier }, Reply::Done) => {
                known.unlock(place, tier);
                StateStep::Done(None)
            }
            _ => unreachable!(),
        }
    }

    fn after<'m, M: Linear>(
        &mut self,
        reply: Reply,
        grants: &[Grant],
        known: &mut Known,
        machine: &mut Machine<'m, M>,
    ) -> StateStep
        requires at { AtQuestion self.old.stage grants.now known.old (M.memory machine.old.memory) }
        requires reply { Belongs self.old.stage reply }
        requires few { length grants.now ≤ grant_limit }
        ensures only { machine.new ≡ record machine.old { memory = machine.new.memory; aside = machine.new.aside; scratch = machine.new.scratch } }
        ensures backing { M.backing machine.new.memory ≡ M.backing machine.old.memory }
        ensures comes { (j : Invocation) (s : State) (question : Question) (answer : Answer) → j.program.grants ≡ grants.now → KeysDiffer j
            → IsOf (here M.memory machine.old known.old) s → IsAmid self.old.stage (here M.memory machine.old known.old) s
            → question_at j s ≡ Some question → RepliesAs question reply machine.old.scratch answer
            → Comes j s (replied j s answer) result self.new.stage (here M.memory machine.new known.new) }
        ensures gives { GivesSo (gives_result self.old.stage) result self.new.stage }
    {
        sized(machine);
        match (self.stage, reply) {
            (StateStage::Collects { place, put, span }, Reply::Bytes(len)) => {
                machine.put_aside(span.done, len);
                self.collect_on(place, put, span.passed(), grants, known, machine)
            }
            (StateStage::Probes { place, act }, Reply::Present(is_so)) => {
                self.probed(place, act, is_so, grants, known, machine)
            }
            (StateStage::Fills { place, act }, Reply::Done) => {
                self.saw(place, act, grants, known, machine)
            }
            (StateStage::Acts { place, act }, _) => {
                self.acted(place, act, reply, grants, known, machine)
            }
            (StateStage::Sends { span }, Reply::Done) => {
                self.send_on(span.passed(), grants, machine)
            }
            _ => unreachable!(),
        }
    }

    /// Goes on: at first without a reply, and then after each question with its reply. A key that was not seen present is
    /// looked for, and filled where it is absent, before what needs it; each shared piece of a buffer is a question.
    pub fn step<'m, M: Linear>(
        &mut self,
        last: Option<Reply>,
        grants: &Grants,
        known: &mut Known,
        machine: &mut Machine<'m, M>,
    ) -> StateStep
        requires first { last ≡ None → IsFresh self.old.stage (length grants.now) known.old }
        requires after { (r : Reply) → last ≡ Some r → AtQuestion self.old.stage grants.now known.old (M.memory machine.old.memory) × Belongs self.old.stage r }
        requires few { length grants.now ≤ grant_limit }
        requires sizes { All (λ g. 1 ≤ g.size) grants.now }
        requires tied { last ≡ None → maps self.old.stage ≡ true → known.old.mappings ≡ mappings (M.memory machine.old.memory) }
        ensures only { machine.new ≡ record machine.old { memory = machine.new.memory; aside = machine.new.aside; scratch = machine.new.scratch } }
        ensures backing { M.backing machine.new.memory ≡ M.backing machine.old.memory }
        ensures first { (j : Invocation) (s : State) (h : HostCall) → last ≡ None → j.program.grants ≡ grants.now
            → IsOf (here M.memory machine.old known.old) s → IsBegun self.old.stage j s h
            → Comes j s (serve j s h) result self.new.stage (here M.memory machine.new known.new) }
        ensures after { (j : Invocation) (s : State) (r : Reply) (question : Question) (answer : Answer) → last ≡ Some r → j.program.grants ≡ grants.now
            → KeysDiffer j → IsOf (here M.memory machine.old known.old) s → IsAmid self.old.stage (here M.memory machine.old known.old) s
            → question_at j s ≡ Some question → RepliesAs question r machine.old.scratch answer
            → Comes j s (replied j s answer) result self.new.stage (here M.memory machine.new known.new) }
        ensures gives { GivesSo (gives_result self.old.stage) result self.new.stage }
    {
        match last {
            None => self.first(grants.as_slice(), known, machine),
            Some(reply) => self.after(reply, grants.as_slice(), known, machine),
        }
    }
}
