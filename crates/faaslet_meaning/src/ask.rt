//! What a call asks of the regions and of the call table, and what it is answered.

use crate::grant::Channel;
use crate::outcome::Outcome;

/// An operation on a region, with the bytes that it carries.
#[derive(Clone, Copy, Debug)]
pub enum RegionOp<'b> {
    Probe,
    Read { off: u32, len: u32 },
    Write { off: u32, bytes: &'b [u8] },
    Append { bytes: &'b [u8] },
    Size,
    LockRead,
    LockWrite,
    Unlock,
}

/// A transfer between the replica and the global value of a key.
#[derive(Clone, Copy, Debug, PartialEq, Eq)]
pub enum Move {
    Fill,
    Pull { off: u32, len: u32 },
    Push { off: u32, len: u32 },
}

/// An operation on a region as it is asked. The bytes of a `Write` or an `Append` are the first `len` of
/// the scratch.
#[derive(Clone, Copy, Debug, PartialEq, Eq)]
pub enum AskOp {
    Probe,
    Read { off: u32, len: u32 },
    Write { off: u32, len: u32 },
    Append { len: u32 },
    Size,
    LockRead,
    LockWrite,
    Unlock,
}

/// What a call asks. The function of a `Submit` is its place in the caller's list of callable functions,
/// and its input the first `len` bytes of the scratch. A child is named by its number in the order of
/// its parent.
#[derive(Clone, Copy, Debug, PartialEq, Eq)]
pub enum Ask {
    Region { channel: Channel, op: AskOp },
    Move { key: u32, kind: Move },
    Submit { function: u32, len: u32 },
    Look { child: u32 },
}

/// What a call is answered. Bytes, and the output of a finished call, are the first of the scratch. A
/// move is answered `Done`.
#[derive(Clone, Copy, Debug, PartialEq, Eq)]
pub enum Reply {
    Done,
    Present(bool),
    /// So many bytes.
    Bytes(u32),
    Number(u32),
    Full,
    Child(u32),
    ChainFull,
    Finished { outcome: Outcome, len: u32 },
    /// There was no memory for a call that was submitted.
    Want,
}
