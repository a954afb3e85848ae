//! What is due is written.

ghost use Rattle.std.specs.Prelude.{◌≡◌, ◌≢◌, ◌<◌, ◌≤◌, ◌⊎◌};
ghost use Rattle.std.specs.String.{string_bytes};
ghost use Rattle.fa_outside.specs.Appended.{Appends, AppendsPart};
ghost use Rattle.fa_outside.specs.Faults.{Rose};
ghost use Rattle.faasm_top.specs.Answers.{code_of};
ghost use Rattle.faasm_top.specs.Dues.{status_now, TracesInPart, WritesDue, WritesDuePart};
ghost use Rattle.faasm_top.specs.Traced.{WritesTrace, WritesTracePart};

use crate::due::{Due, WholeSession};
use crate::report::{Report, Status};
use crate::tracing::run_trace;
use fa_outside::{Failed, Sink, write_whole};
use session_report::WriteFault;
use std::alloc::Global;

/// Writes a line, and answers its status.
fn write_line<O: Sink>(report: &Report, out: &mut O) -> Status
    requires { code_of report.now.status ≤ 4 }
    ensures whole { code_of result < 5 → (code_of result ≡ code_of report.now.status)
        × Appends (O.written out.old) (O.written out.new) (string_bytes report.now.line) }
    ensures part { code_of result ≡ 5 →
        AppendsPart (O.written out.old) (O.written out.new) (string_bytes report.now.line) }
    ensures cause { code_of result ≡ 5 → Rose (O.faults out.old) (O.faults out.new) }
    ensures memory { code_of result ≤ 5 }
    ensures quiet { code_of result ≢ 5 → O.faults out.new ≡ O.faults out.old }
    ensures counted { O.faults out.old ≤ O.faults out.new }
{
    match write_whole(out, report.line.as_bytes()) {
        Ok(()) => report.status,
        Err(Failed) => Status::SinkFailed,
    }
}

/// Writes the report of a session under the schedule of a seed, and answers its status.
fn write_trace<O: Sink>(alloc: Global, session: &WholeSession, seed: u64, out: &mut O) -> Status
    ensures whole { code_of result < 5 → (code_of result ≤ 1)
        × WritesTrace session.now seed (code_of result) (O.written out.old) (O.written out.new) }
    ensures part { code_of result ≡ 5 →
        WritesTracePart session.now seed (O.written out.old) (O.written out.new) }
    ensures cause { code_of result ≡ 5 → Rose (O.faults out.old) (O.faults out.new) }
    ensures want { code_of result ≡ 6 → (out.new ≡ out.old)
        ⊎ WritesTracePart session.now seed (O.written out.old) (O.written out.new) }
    ensures quiet { code_of result ≢ 5 → O.faults out.new ≡ O.faults out.old }
    ensures counted { O.faults out.old ≤ O.faults out.new }
{
    match run_trace(alloc, session, seed, out) {
        Ok(status) => status,
        Err(WriteFault::Failed) => Status::SinkFailed,
        Err(WriteFault::Want) => Status::Want,
    }
}

/// Writes what is due, and answers its status.
pub fn write_due<O: Sink>(alloc: Global, due: &Due, out: &mut O) -> Status
    requires { status_now due.now ≤ 4 }
    ensures whole { code_of result < 5 →
        WritesDue due.now (code_of result) (O.written out.old) (O.written out.new) }
    ensures part { code_of result ≡ 5 → WritesDuePart due.now (O.written out.old) (O.written out.new) }
    ensures cause { code_of result ≡ 5 → Rose (O.faults out.old) (O.faults out.new) }
    ensures want { code_of result ≡ 6 → (out.new ≡ out.old)
        ⊎ TracesInPart due.now (O.written out.old) (O.written out.new) }
    ensures quiet { code_of result ≢ 5 → O.faults out.new ≡ O.faults out.old }
    ensures counted { O.faults out.old ≤ O.faults out.new }
{
    match due {
        Due::Line(report) => write_line(report, out),
        Due::Trace(session, seed) => write_trace(alloc, session, *seed, out),
    }
}
