//! How calls end.

ghost use Rattle.std.specs.Prelude.{◌≡◌, ◌++◌, codes, IfOk};
ghost use Rattle.std.specs.Fmt.{decimal};
ghost use Rattle.std.specs.String.{string_bytes};
ghost use Rattle.faaslet_meaning.specs.Report as report;
ghost use Rattle.session_meaning.specs.SessionReport.{state_text};
ghost use Rattle.session_report.specs.Told.{Grows};

use faaslet_meaning::{Broken, CallState, Outcome, Trap};
use std::alloc::{AllocError, Global};

fn trap_text(trap: Trap) -> &'static str
    ensures { result.now ≡ report.trap_text trap }
{
    match trap {
        Trap::Unreachable => "unreachable",
        Trap::OutOfBounds => "out of bounds memory access",
        Trap::DivideByZero => "integer divide by zero",
        Trap::IntegerOverflow => "integer overflow",
        Trap::UndefinedElement => "undefined element",
        Trap::UninitializedElement => "uninitialized element",
        Trap::TypeMismatch => "indirect call type mismatch",
        Trap::StackExhausted => "stack exhausted",
        Trap::Denied => "denied",
        Trap::BadKey => "bad key",
        Trap::BadFunction => "bad function",
        Trap::BadChild => "bad child",
        Trap::BufferTooLong => "buffer too long",
        Trap::StateRange => "state range",
        Trap::AppendFull => "append full",
        Trap::LockMisuse => "lock misuse",
        Trap::TooManyLocks => "too many locks",
        Trap::TooManyMappings => "too many mappings",
        Trap::MapFull => "map full",
        Trap::CallRange => "call range",
        Trap::OutputFull => "output full",
        Trap::ChainFull => "chain full",
    }
}

/// Bytes as hex digits.
pub(crate) fn push_hex(alloc: Global, out: &mut String, bytes: &[u8]) -> Result<(), AllocError>
    ensures { Grows result out.old out.new (report.hex bytes.now) }
{
    let digits = hex::encode(alloc, bytes)?;
    out.push_str(digits.as_str())
}

fn push_done(
    alloc: Global,
    out: &mut String,
    code: i32,
    used: u64,
    output: &[u8],
) -> Result<(), AllocError>
    ensures { Grows result out.old out.new (report.outcome_text (Outcome.Done code) output.now used) }
{
    write!(out, "done {code} used {used} output ")?;
    push_hex(alloc, out, output)
}

fn push_trap(out: &mut String, trap: Trap, used: u64) -> Result<(), AllocError>
    ensures { Grows result out.old out.new (codes "trap " ++ report.trap_text trap ++ codes " used " ++ decimal used) }
{
    let text = trap_text(trap);
    write!(out, "trap {text} used {used}")
}

fn push_broken(out: &mut String, kind: Broken) -> Result<(), AllocError>
    ensures { Grows result out.old out.new (codes "broken " ++ report.broken_text kind) }
{
    match kind {
        Broken::Segment => out.push_str("broken segment"),
        Broken::Quota => out.push_str("broken quota"),
        Broken::Trap(trap) => {
            let text = trap_text(trap);
            write!(out, "broken trap {text}")
        }
        Broken::Fuel => out.push_str("broken fuel"),
        Broken::HostCall => out.push_str("broken host call"),
    }
}

/// How a call ended, with the fuel that it used and its output where these are told.
fn push_outcome(
    alloc: Global,
    out: &mut String,
    outcome: Outcome,
    used: u64,
    output: &[u8],
) -> Result<(), AllocError>
    ensures { Grows result out.old out.new (report.outcome_text outcome output.now used) }
{
    match outcome {
        Outcome::Done(code) => push_done(alloc, out, code, used, output),
        Outcome::Trap(trap) => push_trap(out, trap, used),
        Outcome::FuelOut => out.push_str("fuel"),
        Outcome::Broken(kind) => push_broken(out, kind),
        Outcome::Want => out.push_str("want"),
    }
}

/// How far a request is.
pub(crate) fn push_state(
    alloc: Global,
    out: &mut String,
    state: &CallState,
) -> Result<(), AllocError>
    ensures { Grows result out.old out.new (state_text state.now) }
{
    match state {
        CallState::Finished {
            outcome,
            used,
            output,
            ..
        } => push_outcome(alloc, out, *outcome, *used, output.as_slice()),
        CallState::Queued | CallState::Taken { .. } => out.push_str("stuck"),
    }
}

/// The line of a single call that ended so, with the fuel that it used and its output.
pub fn call_line(
    alloc: Global,
    outcome: Outcome,
    used: u64,
    output: &[u8],
) -> Result<String, AllocError>
    ensures { IfOk result (λ text. string_bytes text ≡ report.call_line outcome output.now used) }
{
    let mut text = String::from_str(alloc, "call ")?;
    push_outcome(alloc, &mut text, outcome, used, output)?;
    text.push_str("\n")?;
    Ok(text)
}
