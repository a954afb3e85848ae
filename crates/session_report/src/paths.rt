//! The paths of calls, and names by number.

ghost use Rattle.std.specs.Prelude.{◌≡◌, ◌++◌, IfOk};
ghost use Rattle.session_meaning.specs.SessionReport.{key_name, label_of, path, path_by};
ghost use Rattle.session_report.specs.Told.{root_text, steps_text, Grows};

use crate::reported::Reported;
use std::alloc::{AllocError, Global};

/// The way from a call up to its request: the numbers of the calls among their parents' children, the lowest call's
/// first, and the request where the way leads to one.
#[derive(Drop)]
struct Way {
    steps: Vec<u32>,
    request: Option<u32>,
}

/// The way up from a call that is so many calls below the session.
fn way_up<S: Reported>(alloc: Global, session: &S, depth: u32, call: u32) -> Result<Way, AllocError>
    ensures { IfOk result (λ way. path_by (S.plan session.now) (S.records session.now) depth call
        ≡ root_text (S.plan session.now) way.request ++ steps_text way.steps.items) }
{
    let mut steps = Vec::new(alloc);
    let mut at = call;
    let mut left = depth;
    'up: while left > 0 && at < session.calls() {
        let record = session.record(at);
        let Some(parent) = record.parent else {
            let request = Some(record.request);
            return Ok(Way { steps, request });
        };
        steps.push(record.child)?;
        at = parent;
        left -= 1;
    }
    Ok(Way {
        steps,
        request: None,
    })
}

fn push_label<S: Reported>(out: &mut String, session: &S, request: u32) -> Result<(), AllocError>
    ensures { Grows result out.old out.new (label_of (S.plan session.now) request) }
{
    if request < session.requests() {
        out.push_str(session.label(request))
    } else {
        Ok(())
    }
}

fn push_root<S: Reported>(
    out: &mut String,
    session: &S,
    request: Option<u32>,
) -> Result<(), AllocError>
    ensures { Grows result out.old out.new (root_text (S.plan session.now) request) }
{
    match request {
        Some(request) => push_label(out, session, request),
        None => Ok(()),
    }
}

/// The steps down a way, from the highest call's on.
fn push_steps(out: &mut String, mut steps: Vec<u32>) -> Result<(), AllocError>
    ensures { Grows result out.old out.new (steps_text steps.items) }
{
    'down: while let Some(step) = steps.pop() {
        write!(out, ".{step}")?;
    }
    Ok(())
}

/// The name of a key, where there is such a key.
pub(crate) fn push_key<S: Reported>(
    out: &mut String,
    session: &S,
    key: u32,
) -> Result<(), AllocError>
    ensures { Grows result out.old out.new (key_name (S.plan session.now) key) }
{
    if key < session.keys() {
        out.push_str(session.key_name(key))
    } else {
        Ok(())
    }
}

/// The path of a call, where there is such a call.
pub(crate) fn push_path<S: Reported>(
    alloc: Global,
    out: &mut String,
    session: &S,
    call: u32,
) -> Result<(), AllocError>
    ensures { Grows result out.old out.new (path (S.plan session.now) (S.records session.now) call) }
{
    if session.calls() <= call {
        return Ok(());
    }
    let way = way_up(alloc, session, session.record(call).depth, call)?;
    push_root(out, session, way.request)?;
    push_steps(out, way.steps)
}
