//! A session under the schedule of a seed: it runs, and its report is written.

ghost use Rattle.std.specs.Prelude.{◌≡◌, ◌≢◌, ◌≤◌, ◌⊎◌, ◌↔◌, Err, IfErr, IfOk, IsTrue};
ghost use Rattle.fa_outside.specs.Faults.{Rose};
ghost use Rattle.session_meaning.specs.SessionReport as report;
ghost use Rattle.faasm_top.specs.Answers.{code_of};
ghost use Rattle.faasm_top.specs.Traced.{is_done_at, EachDone, IsEndStatus, WritesTrace, WritesTracePart};
ghost use Rattle.session_report.specs.declared.fault.WriteFault.TheVariants as fault;

use crate::due::WholeSession;
use crate::report::Status;
use fa_outside::Sink;
use faaslet_meaning::{CallState, Outcome};
use protos::Protos;
use session_report::{Reported, WriteFault, write_report};
use std::alloc::Global;
use world_core::trace_session;

/// How a call ended, where it is finished.
fn outcome_of(state: &CallState) -> Option<Outcome>
    ensures { result ≡ report.outcome_of state.now }
{
    match state {
        CallState::Finished { outcome, .. } => Some(*outcome),
        CallState::Queued | CallState::Taken { .. } => None,
    }
}

/// Whether the call of a request is done.
fn is_done<S: Reported>(session: &S, request: u32) -> bool
    ensures { result ≡ is_done_at (S.records session.now) request }
{
    if session.calls() <= request {
        return false;
    }
    match outcome_of(&session.record(request).state) {
        Some(Outcome::Done(_)) => true,
        _ => false,
    }
}

/// Whether the call of each request is done.
fn all_done<S: Reported>(session: &S) -> bool
    ensures { IsTrue result ↔ EachDone (S.plan session.now) (S.records session.now) }
{
    for request in 0..session.requests() {
        if !is_done(session, request) {
            return false;
        }
    }
    true
}

/// The status of a session that is stuck or not.
fn end_status<S: Reported>(session: &S, stuck: bool) -> Status
    ensures { IsEndStatus (code_of result) (S.plan session.now) (S.records session.now) stuck }
{
    if !stuck && all_done(session) {
        Status::Done
    } else {
        Status::NotDone
    }
}

/// The same snapshots, lent for as long as their registry is.
fn shorter<'s, 'r: 's>(protos: &'s Protos<'r>) -> &'s Protos<'s>
    ensures { result.now ≡ protos.now }
{
    protos
}

/// Runs a session under the schedule of a seed, and writes its report. It holds the report line by line.
pub fn run_trace<O: Sink>(
    alloc: Global,
    session: &WholeSession,
    seed: u64,
    out: &mut O,
) -> Result<Status, WriteFault>
    ensures whole { IfOk result (λ s.
        WritesTrace session.now seed (code_of s) (O.written out.old) (O.written out.new)) }
    ensures ended { IfOk result (λ s. code_of s ≤ 1) }
    ensures failed { result ≡ Err fault.Failed →
        WritesTracePart session.now seed (O.written out.old) (O.written out.new) }
    ensures cause { result ≡ Err fault.Failed → Rose (O.faults out.old) (O.faults out.new) }
    ensures want { result ≡ Err fault.Want → (out.new ≡ out.old)
        ⊎ WritesTracePart session.now seed (O.written out.old) (O.written out.new) }
    ensures quiet { result ≢ Err fault.Failed → O.faults out.new ≡ O.faults out.old }
    ensures counted { O.faults out.old ≤ O.faults out.new }
{
    let protos = Protos::build(alloc, session.registry())?;
    let traced = trace_session(alloc, shorter(&protos), seed)?;
    let blocked = traced.world.blocked()?;
    let status = end_status(&traced.world, traced.stuck);
    write_report(alloc, &traced.world, &blocked, out)?;
    Ok(status)
}
