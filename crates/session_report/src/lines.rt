//! One line of each kind.

ghost use Rattle.std.specs.Prelude.{◌≡◌, ◌<◌, Some, length, slice_get};
ghost use Rattle.session_meaning.specs.SessionReport.{channel_text, obstacle_text, request_line, state_line};
ghost use Rattle.session_report.specs.Told.{blocked_line, obstacle_of, request_state, Grows};

use crate::outcomes::{push_hex, push_state};
use crate::paths::{push_key, push_path};
use crate::reported::{Blocked, Obstacle, Reported};
use faaslet_meaning::Channel;
use std::alloc::{AllocError, Global};

fn push_request_state<S: Reported>(
    alloc: Global,
    out: &mut String,
    session: &S,
    request: u32,
) -> Result<(), AllocError>
    ensures { Grows result out.old out.new (request_state (S.records session.now) request) }
{
    if request < session.calls() {
        push_state(alloc, out, &session.record(request).state)
    } else {
        out.push_str("stuck")
    }
}

/// The line of a request.
pub(crate) fn push_request<S: Reported>(
    alloc: Global,
    out: &mut String,
    session: &S,
    request: u32,
) -> Result<(), AllocError>
    requires { request < length (S.plan session.now).requests }
    ensures { (r : _) → slice_get (S.plan session.now).requests request ≡ Some r
        → Grows result out.old out.new (request_line (S.records session.now) request r) }
{
    out.push_str(session.label(request))?;
    out.push_str(" ")?;
    push_request_state(alloc, out, session, request)?;
    out.push_str("\n")
}

fn push_channel<S: Reported>(
    out: &mut String,
    session: &S,
    channel: Channel,
) -> Result<(), AllocError>
    ensures { Grows result out.old out.new (channel_text (S.plan session.now) channel) }
{
    match channel {
        Channel::Local(key) => {
            out.push_str("local ")?;
            push_key(out, session, key)
        }
        Channel::Global(key) => {
            out.push_str("global ")?;
            push_key(out, session, key)
        }
        Channel::Table => Ok(()),
    }
}

fn push_obstacle<S: Reported>(
    alloc: Global,
    out: &mut String,
    session: &S,
    by: Obstacle,
) -> Result<(), AllocError>
    ensures { Grows result out.old out.new
        (obstacle_text (S.plan session.now) (S.records session.now) (obstacle_of by)) }
{
    match by {
        Obstacle::Held { channel, holder } => {
            push_channel(out, session, channel)?;
            out.push_str(" holder ")?;
            push_path(alloc, out, session, holder)
        }
        Obstacle::Unfinished { child } => {
            out.push_str("child ")?;
            push_path(alloc, out, session, child)
        }
    }
}

/// The line of a call that is kept from its next question.
pub(crate) fn push_blocked<S: Reported>(
    alloc: Global,
    out: &mut String,
    session: &S,
    blocked: Blocked,
) -> Result<(), AllocError>
    ensures { Grows result out.old out.new (blocked_line (S.plan session.now) (S.records session.now) blocked) }
{
    out.push_str("blocked ")?;
    push_path(alloc, out, session, blocked.call)?;
    out.push_str(" ")?;
    push_obstacle(alloc, out, session, blocked.by)?;
    out.push_str("\n")
}

/// The line of a global value.
pub(crate) fn push_value(
    alloc: Global,
    out: &mut String,
    name: &str,
    value: &[u8],
) -> Result<(), AllocError>
    ensures { (k : _) → k.name ≡ name.now → Grows result out.old out.new (state_line k value.now) }
{
    out.push_str("state ")?;
    out.push_str(name)?;
    out.push_str(" ")?;
    push_hex(alloc, out, value)?;
    out.push_str("\n")
}
