//! What host calls on state do with a key, and the question of each such act.

ghost use Rattle.std.specs.Prelude.{◌≡◌};
ghost use Rattle.host_calls.specs.Acts.{needs_presence, carried_by, channel_of, lock_op, region, ask_of, act_put};

use crate::span::Span;
use crate::state_known::Tier;
use faaslet_meaning::{Ask, AskOp, Channel, Mode, Move};

/// Where the bytes of a buffer go: to a byte of the replica, or behind what was appended to the global value.
#[derive(Clone, Copy)]
pub enum Put {
    At(u32),
    Behind,
}

/// What is done with the key at a place of the grants.
#[derive(Clone, Copy)]
pub enum StateAct {
    /// Its replica is mapped.
    Map,
    /// Bytes of the replica, from a byte on, go to a buffer.
    Read { off: u32, span: Span },
    /// So many bytes that the call holds go to the replica.
    Write { off: u32, len: u32 },
    Push { off: u32, len: u32 },
    Pull { off: u32, len: u32 },
    /// How many bytes were appended is asked.
    Used,
    /// So many bytes that the call holds are appended.
    Append { len: u32 },
    Lock { tier: Tier, mode: Mode },
    Unlock { tier: Tier },
}

impl Put {
    /// What is done with so many bytes of a buffer.
    pub fn act(self, len: u32) -> StateAct
        ensures { result ≡ act_put self len }
    {
        match self {
            Put::At(off) => StateAct::Write { off, len },
            Put::Behind => StateAct::Append { len },
        }
    }
}

fn channel(tier: Tier, key: u32) -> Channel
    ensures { result ≡ channel_of tier key }
{
    match tier {
        Tier::Local => Channel::Local(key),
        Tier::Global => Channel::Global(key),
    }
}

fn lock_op(mode: Mode) -> AskOp
    ensures { result ≡ lock_op mode }
{
    match mode {
        Mode::Read => AskOp::LockRead,
        Mode::Write => AskOp::LockWrite,
    }
}

fn region(channel: Channel, op: AskOp) -> Option<Ask>
    ensures { result ≡ region channel op }
{
    Some(Ask::Region { channel, op })
}

impl StateAct {
    /// The key must be present in the replica first.
    pub fn needs_presence(self) -> bool
        ensures { result ≡ needs_presence self }
    {
        match self {
            StateAct::Map
            | StateAct::Read { .. }
            | StateAct::Write { .. }
            | StateAct::Push { .. }
            | StateAct::Pull { .. } => true,
            _ => false,
        }
    }

    /// How many bytes it carries.
    pub fn carried(self) -> u32
        ensures { result ≡ carried_by self }
    {
        match self {
            StateAct::Write { len, .. } | StateAct::Append { len } => len,
            _ => 0,
        }
    }

    /// Its question, of a key; a mapping has none.
    pub fn ask(self, key: u32) -> Option<Ask>
        ensures { result ≡ ask_of key self }
    {
        match self {
            StateAct::Map => None,
            StateAct::Read { off, span } => {
                region(Channel::Local(key), AskOp::Read { off, len: span.len })
            }
            StateAct::Write { off, len } => region(Channel::Local(key), AskOp::Write { off, len }),
            StateAct::Push { off, len } => Some(Ask::Move {
                key,
                kind: Move::Push { off, len },
            }),
            StateAct::Pull { off, len } => Some(Ask::Move {
                key,
                kind: Move::Pull { off, len },
            }),
            StateAct::Used => region(Channel::Global(key), AskOp::Size),
            StateAct::Append { len } => region(Channel::Global(key), AskOp::Append { len }),
            StateAct::Lock { tier, mode } => region(channel(tier, key), lock_op(mode)),
            StateAct::Unlock { tier } => region(channel(tier, key), AskOp::Unlock),
        }
    }
}
