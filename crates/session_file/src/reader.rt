//! From the bytes of a session file to its plan.

ghost use Rattle.std.specs.Prelude.{◌≡◌, Ok, Err, IfOk, IfErr};
ghost use Rattle.std.specs.Option.{ForSome};
ghost use Rattle.serde_json.specs.View.{view};
ghost use Rattle.session_meaning.specs.SessionFile.{PlanOf, FileFits, plan_of_tree};
ghost use Rattle.session_file.specs.Told.{Tells, planned_of, refusal};

use crate::entries::session_text;
use crate::faults::{of_file, unread};
use crate::plan::{SessionPlan, plan_of};
use serde_json::Value;
use session_meaning::{Kind, SessionFault};
use std::alloc::Global;

fn read_tree(alloc: Global, tree: &Value) -> Result<SessionPlan, SessionFault>
    ensures ok { IfOk result (λ p. plan_of_tree (view tree.now) ≡ Ok (planned_of p)) }
    ensures refused { IfErr result (λ e. Tells e (plan_of_tree (view tree.now))) }
{
    match session_text(alloc, tree) {
        Ok(Some(text)) => plan_of(alloc, &text),
        Ok(None) => Err(of_file(Kind::Shape)),
        Err(_) => Err(SessionFault::Want),
    }
}

/// The registry that a session file describes, without modules, and where each function's module stands. The file
/// is JSON of at most 8,388,608 bytes. Else the first reason why it describes none, or `Want` for want of memory.
pub fn read_session(alloc: Global, bytes: &[u8]) -> Result<SessionPlan, SessionFault>
    ensures ok { IfOk result (λ p. PlanOf bytes.now (Ok (planned_of p))) }
    ensures fits { IfOk result (λ p. FileFits (planned_of p)) }
    ensures refused { IfErr result (λ e. ForSome (refusal e) (λ r. PlanOf bytes.now (Err r))) }
{
    if bytes.len() > 8_388_608 {
        return Err(of_file(Kind::Long));
    }
    match Value::from_slice(alloc, bytes) {
        Ok(tree) => read_tree(alloc, &tree),
        Err(e) => Err(unread(&e)),
    }
}
