//! What `trace` reads: a session file and the modules of its functions, up to the first refusal.

ghost use Rattle.std.specs.Prelude.{◌≡◌, ◌≢◌, ℕ, ◌≤◌, List, [], Some, Ok, Err, IsSome, IsTrue, false, IfOk, IfErr, OnOk};
ghost use Rattle.std.specs.String.{string_bytes};
ghost use Rattle.faaslet_meaning.specs.Words as commands;
ghost use Rattle.faaslet_meaning.specs.Words.{CommandOf};
ghost use Rattle.session_meaning.specs.RefusalLines as lines;
ghost use Rattle.session_meaning.specs.SessionFile.{FileFits, PlanOf, Refused};
ghost use Rattle.session_file.specs.Told.{planned_of};
ghost use Rattle.faasm_top.specs.Dues.{status_now, DueSo};
ghost use Rattle.faasm_top.specs.Sessions.{IsSession, IsWholeSession, RefusesSession, SessionComes, StopsBy};

use crate::due::{Due, WholeSession};
use crate::report::{Report, Status, read_fault};
use crate::session_lines::refused_line;
use crate::session_modules::take_modules;
use crate::stop::Stop;
use fa_outside::{ReadFault, Shelf, read_file};
use session_file::{SessionPlan, read_session};
use session_meaning::{Kind, SessionFault, SessionList};
use std::alloc::{AllocError, Global};

/// The bytes of a session file.
const SESSION_LIMIT: usize = 8_388_608;

/// The session in these bytes, without its modules, or the line that refuses it.
fn plan_in(alloc: Global, bytes: &[u8]) -> Result<Result<SessionPlan, String>, AllocError>
    ensures read { IfOk result (λ r. IfOk r (λ p. PlanOf bytes.now (Ok (planned_of p)))) }
    ensures fits { IfOk result (λ r. IfOk r (λ p. FileFits (planned_of p))) }
    ensures refused { IfOk result (λ r. IfErr r (λ l.
        (why : Refused) × PlanOf bytes.now (Err why) × (string_bytes l ≡ lines.refused_line why))) }
{
    match read_session(alloc, bytes) {
        Ok(plan) => Ok(Ok(plan)),
        Err(SessionFault::Refused { kind, list, place }) => {
            Ok(Err(refused_line(alloc, kind, list, place)?))
        }
        Err(SessionFault::Want) => Err(AllocError),
    }
}

/// The session in a file, without its modules.
fn read_plan<F: Shelf>(alloc: Global, shelf: &mut F, file: &str) -> Result<SessionPlan, Stop>
    ensures read { IfOk result (λ p. IsSession (F.told shelf.old) file.now (Ok (planned_of p))) }
    ensures fits { IfOk result (λ p. FileFits (planned_of p)) }
    ensures open { OnOk result (IsTrue (F.is_open shelf.new)) }
    ensures ended { OnOk result (IsSome (F.told shelf.old) → F.rest shelf.new ≡ []) }
    ensures stopped { IfErr result (λ e. StopsBy e (F.faults shelf.old) (F.faults shelf.new) (F.is_open shelf.new)
        (λ line. RefusesSession (F.told shelf.old) file.now line)) }
    ensures told { F.told shelf.new ≡ F.told shelf.old }
    ensures counted { F.faults shelf.old ≤ F.faults shelf.new }
{
    let bytes = match read_file(alloc, shelf, file, SESSION_LIMIT) {
        Ok(bytes) => bytes,
        Err(ReadFault::Failed) => return Err(Stop::Unreadable),
        Err(ReadFault::TooLong) => {
            let line = refused_line(alloc, Kind::Long, SessionList::Session, 0)?;
            return Err(Stop::Refused(line));
        }
        Err(ReadFault::Want) => return Err(Stop::Want),
    };
    match plan_in(alloc, &bytes)? {
        Ok(plan) => Ok(plan),
        Err(line) => Err(Stop::Refused(line)),
    }
}

/// The session in a file, with the modules of its functions.
fn read_whole<F: Shelf>(alloc: Global, shelf: &mut F, file: &str) -> Result<WholeSession, Stop>
    ensures accepted { IfOk result (λ s. IsWholeSession (F.told shelf.old) file.now s) }
    ensures open { OnOk result (IsTrue (F.is_open shelf.new)) }
    ensures ended { OnOk result (IsSome (F.told shelf.old) → F.rest shelf.new ≡ []) }
    ensures stopped { IfErr result (λ e. StopsBy e (F.faults shelf.old) (F.faults shelf.new) (F.is_open shelf.new)
        (λ line. SessionComes (F.told shelf.old) file.now (Some line))) }
    ensures told { F.told shelf.new ≡ F.told shelf.old }
    ensures counted { F.faults shelf.old ≤ F.faults shelf.new }
{
    let mut plan = read_plan(alloc, shelf, file)?;
    take_modules(alloc, shelf, &mut plan.registry, plan.paths.as_slice())?;
    Ok(WholeSession::of(plan.registry))
}

/// Reads the session of `trace`: what comes of it is the line of its first refusal, or that it is to run.
pub fn trace<F: Shelf>(
    alloc: Global,
    shelf: &mut F,
    file: &str,
    seed: u64,
) -> Result<Due, AllocError>
    ensures due { IfOk result (λ d. (words : List (List ℕ))
        → CommandOf (commands.trace file.now seed) words
        → DueSo words (F.told shelf.old) (F.faults shelf.old) (F.faults shelf.new) d) }
    ensures closed { IfOk result (λ d. status_now d ≡ 4 → F.is_open shelf.new ≡ false) }
    ensures ended { IfOk result (λ d. status_now d ≤ 1
        → IsSome (F.told shelf.old) → F.rest shelf.new ≡ []) }
    ensures left_open { IfOk result (λ d. status_now d ≢ 4 → IsTrue (F.is_open shelf.new)) }
    ensures told { F.told shelf.new ≡ F.told shelf.old }
    ensures counted { F.faults shelf.old ≤ F.faults shelf.new }
{
    match read_whole(alloc, shelf, file) {
        Ok(session) => Ok(Due::Trace(session, seed)),
        Err(Stop::Refused(line)) => Ok(Due::Line(Report {
            status: Status::Refused,
            line,
        })),
        Err(Stop::Unreadable) => Ok(Due::Line(read_fault(alloc)?)),
        Err(Stop::Want) => Err(AllocError),
    }
}
