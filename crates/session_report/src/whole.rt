//! A report: the requests in order, the blocked calls, the global values in the order of the keys.

ghost use Rattle.std.specs.Prelude.{◌≡◌, IfOk};
ghost use Rattle.session_meaning.specs.SessionReport as report;
ghost use Rattle.session_meaning.specs.SessionReport.{request_lines, state_lines};
ghost use Rattle.session_report.specs.Told.{blocked_lines, Grows};

use crate::lines::{push_blocked, push_request, push_value};
use crate::reported::{Blocked, Reported};
use faaslet_meaning::{Bytes, Items};
use std::alloc::{AllocError, Global};

fn push_requests<S: Reported>(
    alloc: Global,
    out: &mut String,
    session: &S,
) -> Result<(), AllocError>
    ensures { Grows result out.old out.new
        (request_lines (S.records session.now) 0 (S.plan session.now).requests) }
{
    for request in 0..session.requests() {
        push_request(alloc, out, session, request)?;
    }
    Ok(())
}

fn push_all_blocked<S: Reported>(
    alloc: Global,
    out: &mut String,
    session: &S,
    blocked: &[Blocked],
) -> Result<(), AllocError>
    ensures { Grows result out.old out.new
        (blocked_lines (S.plan session.now) (S.records session.now) blocked.now) }
{
    for each in blocked {
        push_blocked(alloc, out, session, *each)?;
    }
    Ok(())
}

fn push_values<S: Reported>(alloc: Global, out: &mut String, session: &S) -> Result<(), AllocError>
    ensures { Grows result out.old out.new (state_lines (S.plan session.now).keys (S.values session.now)) }
{
    for key in 0..session.keys() {
        push_value(alloc, out, session.key_name(key), session.value(key))?;
    }
    Ok(())
}

/// The report of a session of which these calls are blocked.
pub fn report<S: Reported>(
    alloc: Global,
    session: &S,
    blocked: &[Blocked],
) -> Result<Bytes, AllocError>
    ensures { IfOk result (λ bytes. bytes ≡ report.report (S.plan session.now) (S.records session.now)
        (S.values session.now) (blocked_lines (S.plan session.now) (S.records session.now) blocked.now)) }
{
    let mut out = String::new(alloc);
    push_requests(alloc, &mut out, session)?;
    push_all_blocked(alloc, &mut out, session, blocked)?;
    push_values(alloc, &mut out, session)?;
    Ok(Items::of(out.into_bytes()))
}
