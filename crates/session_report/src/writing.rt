//! A report that is written line by line, so that no more than a line of it is in memory.

ghost use Rattle.std.specs.Prelude.{◌≡◌, ◌≢◌, ◌≤◌, Err, OnErr, OnOk};
ghost use Rattle.fa_outside.specs.Appended.{Appends, AppendsPart};
ghost use Rattle.fa_outside.specs.Faults.{Rose};
ghost use Rattle.session_meaning.specs.SessionReport as report;
ghost use Rattle.session_meaning.specs.SessionReport.{request_lines, state_lines};
ghost use Rattle.session_report.specs.Told.{blocked_lines};
ghost use Rattle.session_report.specs.Written.{Tells, Writes};

use crate::fault::WriteFault;
use crate::lines::{push_blocked, push_request, push_value};
use crate::reported::{Blocked, Reported};
use fa_outside::{Sink, write_whole};
use std::alloc::Global;

fn write_requests<S: Reported, O: Sink>(
    alloc: Global,
    session: &S,
    sink: &mut O,
) -> Result<(), WriteFault>
    ensures written { Writes result (O.written sink.old) (O.written sink.new)
        (request_lines (S.records session.now) 0 (S.plan session.now).requests) }
    ensures faults { Tells result (O.faults sink.old) (O.faults sink.new) }
    ensures counted { O.faults sink.old ≤ O.faults sink.new }
{
    let mut line = String::new(alloc);
    for request in 0..session.requests() {
        line.clear();
        push_request(alloc, &mut line, session, request)?;
        write_whole(sink, line.as_bytes())?;
    }
    Ok(())
}

fn write_all_blocked<S: Reported, O: Sink>(
    alloc: Global,
    session: &S,
    blocked: &[Blocked],
    sink: &mut O,
) -> Result<(), WriteFault>
    ensures written { Writes result (O.written sink.old) (O.written sink.new)
        (blocked_lines (S.plan session.now) (S.records session.now) blocked.now) }
    ensures faults { Tells result (O.faults sink.old) (O.faults sink.new) }
    ensures counted { O.faults sink.old ≤ O.faults sink.new }
{
    let mut line = String::new(alloc);
    for each in blocked {
        line.clear();
        push_blocked(alloc, &mut line, session, *each)?;
        write_whole(sink, line.as_bytes())?;
    }
    Ok(())
}

fn write_values<S: Reported, O: Sink>(
    alloc: Global,
    session: &S,
    sink: &mut O,
) -> Result<(), WriteFault>
    ensures written { Writes result (O.written sink.old) (O.written sink.new)
        (state_lines (S.plan session.now).keys (S.values session.now)) }
    ensures faults { Tells result (O.faults sink.old) (O.faults sink.new) }
    ensures counted { O.faults sink.old ≤ O.faults sink.new }
{
    let mut line = String::new(alloc);
    for key in 0..session.keys() {
        line.clear();
        push_value(alloc, &mut line, session.key_name(key), session.value(key))?;
        write_whole(sink, line.as_bytes())?;
    }
    Ok(())
}

/// Writes the report of a session of which these calls are blocked, each line by itself. Where it fails a front of the
/// report was written, and not all.
pub fn write_report<S: Reported, O: Sink>(
    alloc: Global,
    session: &S,
    blocked: &[Blocked],
    sink: &mut O,
) -> Result<(), WriteFault>
    ensures whole { OnOk result (Appends (O.written sink.old) (O.written sink.new)
        (report.report (S.plan session.now) (S.records session.now) (S.values session.now)
        (blocked_lines (S.plan session.now) (S.records session.now) blocked.now))) }
    ensures part { OnErr result (AppendsPart (O.written sink.old) (O.written sink.new)
        (report.report (S.plan session.now) (S.records session.now) (S.values session.now)
        (blocked_lines (S.plan session.now) (S.records session.now) blocked.now))) }
    ensures cause { result ≡ Err WriteFault.Failed → Rose (O.faults sink.old) (O.faults sink.new) }
    ensures quiet { result ≢ Err WriteFault.Failed → O.faults sink.new ≡ O.faults sink.old }
    ensures counted { O.faults sink.old ≤ O.faults sink.new }
{
    write_requests(alloc, session, sink)?;
    write_all_blocked(alloc, session, blocked, sink)?;
    write_values(alloc, session, sink)
}
