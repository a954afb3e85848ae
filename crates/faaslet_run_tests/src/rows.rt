//! Rows of questions and replies, which reply may come to which question, and what a call knows of its children.

ghost use Rattle.std.specs.Prelude.{◌≡◌, IfOk, IsTrue};
ghost use Rattle.faaslet_run_tests.specs.Children.{MayCome, MayReply, known_then};

use faaslet_meaning::{Ask, AskOp, Outcome, Reply};
use std::alloc::AllocError;

/// A question that is due, with the bytes that it carries, and the reply to it, with its bytes.
#[derive(Clone, Copy)]
pub struct Served<'b> {
    pub ask: Ask,
    pub carried: &'b [u8],
    pub reply: Reply,
    pub bytes: &'b [u8],
}

/// How a call went otherwise than was due.
#[derive(Clone, Copy, Debug, PartialEq, Eq)]
pub enum Off {
    /// It asked this, or it carried other bytes.
    Asked(Ask),
    Ended(Outcome),
    /// The reply of a row doesn't belong to the question.
    Misfit,
    /// There is no such module, or no memory.
    Nothing,
}

impl From<AllocError> for Off {
    fn from(_error: AllocError) -> Off {
        Off::Nothing
    }
}

/// How many children a call has at most.
const CHILDREN: usize = 1_023;

/// How long an output and the bytes of a reply may be.
const BYTES: u32 = 65_536;

// Whether this reply may come where this was asked of a region.
fn may_reply(op: AskOp, reply: Reply) -> bool
    ensures { IsTrue result → MayReply op reply }
{
    match (op, reply) {
        (AskOp::Probe, Reply::Present(_)) => true,
        (AskOp::Read { len, .. }, Reply::Bytes(n)) => n == len && n <= BYTES,
        (AskOp::Size | AskOp::Append { .. }, Reply::Number(_)) => true,
        (AskOp::Append { .. }, Reply::Full) => true,
        (AskOp::Write { .. }, Reply::Done) => true,
        (AskOp::LockRead | AskOp::LockWrite | AskOp::Unlock, Reply::Done) => true,
        _ => false,
    }
}

// Whether a child may be finished with an output of so many bytes: as many as were seen of it before.
fn may_finish(child: u32, len: u32, children: &[Option<u32>]) -> bool
    ensures { IsTrue result → MayCome (Ask.Look child) (Reply.Finished Outcome.Want len) children.now }
{
    match children.get(child as usize) {
        Some(Some(seen)) => len <= BYTES && *seen == len,
        Some(None) => len <= BYTES,
        None => false,
    }
}

/// Whether this reply may come to this question of a call that knows these children.
pub fn may_come(ask: Ask, reply: Reply, children: &[Option<u32>]) -> bool
    ensures { IsTrue result → MayCome ask reply children.now }
{
    match (ask, reply) {
        (Ask::Region { op, .. }, reply) => may_reply(op, reply),
        (Ask::Move { .. }, Reply::Done) => true,
        (Ask::Submit { .. }, Reply::Child(_)) => children.len() < CHILDREN,
        (Ask::Submit { .. }, Reply::ChainFull | Reply::Want) => true,
        (Ask::Look { child }, Reply::Finished { len, .. }) => may_finish(child, len, children),
        _ => false,
    }
}

/// The children that a call knows after the reply.
pub fn note(children: &mut Vec<Option<u32>>, ask: Ask, reply: Reply) -> Result<(), AllocError>
    ensures { IfOk result (λ u. children.new.items ≡ known_then ask reply children.old.items) }
{
    match (ask, reply) {
        (_, Reply::Child(_)) => children.push(None)?,
        (Ask::Look { child }, Reply::Finished { len, .. }) => {
            if let Some(seen) = children.get_mut(child as usize) {
                *seen = Some(len);
            }
        }
        _ => {}
    }
    Ok(())
}
