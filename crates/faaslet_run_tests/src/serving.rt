//! A call goes from question to question, each served as its row says.

ghost use Rattle.std.specs.Prelude.{◌≡◌, ℕ, List, Option, IfOk, length};
ghost use Rattle.faaslet_run_tests.specs.Children.{MayCome, known_then};
ghost use Rattle.faaslet_run_tests.specs.Standing.{IsAsked, IsAt};

use crate::rows::{Off, Served, may_come, note};
use faaslet_meaning::{Ask, Outcome, Reply};
use faaslet_run::{Faaslet, Turn};

/// Bytes over the first of others, as far as these go.
pub fn lay_front(to: &mut [u8], from: &[u8]) {
    let len = from.len().min(to.len());
    to[..len].copy_from_slice(&from[..len]);
}

// The question that comes next.
fn asked(faaslet: &mut Faaslet<'_>) -> Result<Ask, Off>
    requires { (kids : List (Option ℕ)) × IsAt faaslet.old kids }
    ensures { IfOk result (λ a. (kids : List (Option ℕ)) → IsAt faaslet.old kids → IsAsked faaslet.new a kids) }
{
    match faaslet.next() {
        Turn::Asks(ask) => Ok(ask),
        Turn::Ended(outcome) => Err(Off::Ended(outcome)),
    }
}

// Whether the question carries these bytes.
fn carries(faaslet: &mut Faaslet<'_>, bytes: &[u8]) -> bool
    ensures { faaslet.new ≡ record faaslet.old { scratch = faaslet.new.scratch } }
{
    faaslet.scratch_mut().starts_with(bytes)
}

// The bytes of a reply to the front of the scratch.
fn put(faaslet: &mut Faaslet<'_>, bytes: &[u8])
    ensures only { faaslet.new ≡ record faaslet.old { scratch = faaslet.new.scratch } }
    ensures long { length faaslet.new.scratch ≡ 65536 }
{
    lay_front(faaslet.scratch_mut(), bytes);
    // It tells that there are 65,536 bytes.
    let _scratch = faaslet.scratch_mut();
}

// Replies so to the question that was asked.
fn reply_to(faaslet: &mut Faaslet<'_>, ask: Ask, reply: Reply, bytes: &[u8])
    requires { (kids : List (Option ℕ)) × IsAsked faaslet.old ask kids × MayCome ask reply kids }
    ensures { (kids : List (Option ℕ)) → IsAsked faaslet.old ask kids → MayCome ask reply kids
        → IsAt faaslet.new (known_then ask reply kids) }
{
    put(faaslet, bytes);
    faaslet.answer(reply);
}

// Serves the next question, where it is the one that is due.
fn serve(
    faaslet: &mut Faaslet<'_>,
    children: &mut Vec<Option<u32>>,
    row: &Served<'_>,
) -> Result<(), Off>
    requires { IsAt faaslet.old children.old.items }
    ensures { IfOk result (λ u. IsAt faaslet.new children.new.items) }
{
    let ask = asked(faaslet)?;
    let carried = carries(faaslet, row.carried);
    if ask != row.ask || !carried {
        return Err(Off::Asked(ask));
    }
    let fits = may_come(ask, row.reply, children);
    if !fits {
        return Err(Off::Misfit);
    }
    reply_to(faaslet, ask, row.reply, row.bytes);
    note(children, ask, row.reply)?;
    Ok(())
}

/// Serves one question for each row, and tells how the call ends then.
pub fn go_through(
    faaslet: &mut Faaslet<'_>,
    children: &mut Vec<Option<u32>>,
    rows: &[Served<'_>],
) -> Result<Outcome, Off>
    requires { IsAt faaslet.old children.old.items }
{
    'rows: for row in rows {
        serve(faaslet, children, row)?;
    }
    match faaslet.next() {
        Turn::Ended(outcome) => Ok(outcome),
        Turn::Asks(ask) => Err(Off::Asked(ask)),
    }
}
