//! Which questions suit the objects of two hosts and one key of 4 bytes.

ghost use Rattle.std.specs.Prelude.{◌≡◌, ◌+◌, ◌&&◌, nat_le, nat_lt};
ghost use Rattle.world_objects_tests.specs.Ready as ready;

use faaslet_meaning::{Ask, AskOp, Channel, Move};

fn leads(channel: Channel) -> bool
    ensures { result ≡ ready.leads channel }
{
    match channel {
        Channel::Local(key) => key == 0,
        Channel::Global(key) => key == 0,
        Channel::Table => false,
    }
}

fn is_within(off: u32, len: u32) -> bool
    ensures { result ≡ nat_le (off + len) 4 }
{
    off as u64 + len as u64 <= 4
}

fn in_range(op: AskOp, scratch: usize) -> bool
    ensures { result ≡ ready.in_range op scratch }
{
    match op {
        AskOp::Read { off, len } => is_within(off, len) && len as usize <= scratch,
        AskOp::Write { off, len } => is_within(off, len) && len as usize <= scratch,
        AskOp::Append { len } => len as usize <= scratch,
        AskOp::Probe | AskOp::Size | AskOp::LockRead | AskOp::LockWrite | AskOp::Unlock => true,
    }
}

fn move_in_range(kind: Move) -> bool
    ensures { result ≡ ready.move_in_range kind }
{
    match kind {
        Move::Fill => true,
        Move::Pull { off, len } => is_within(off, len),
        Move::Push { off, len } => is_within(off, len),
    }
}

/// Whether a question at a host suits them, with a scratch of so many bytes.
pub fn suits(host: u32, ask: &Ask, scratch: usize) -> bool
    ensures { result ≡ ready.suits host ask.now scratch }
{
    match *ask {
        Ask::Region { channel, op } => host < 2 && leads(channel) && in_range(op, scratch),
        Ask::Move { key, kind } => host < 2 && key == 0 && move_in_range(kind),
        Ask::Submit { .. } | Ask::Look { .. } => false,
    }
}

/// Whether there is such an object.
pub fn is_object(host: u32, channel: Channel) -> bool
    ensures { result ≡ (nat_lt host 2 && ready.leads channel) }
{
    host < 2 && leads(channel)
}
