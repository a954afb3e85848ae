//! The machine and what it tells.

use crate::buffer::Buffer;
use crate::thread::Thread;
use faaslet_meaning::{Linear, Outcome};
use wasm_validate::ValidModule;

/// How many globals a module may have, and how many elements its table.
#[derive(Clone, Copy, Debug, PartialEq, Eq)]
pub struct Room {
    pub globals: u32,
    pub table: u32,
}

/// A shared piece of a load or a store: `len` bytes from byte `off` on of the replica at a place of the
/// grants. The bytes to write are the first `len` of the scratch; bytes that were read are put there.
#[derive(Clone, Copy, Debug, PartialEq, Eq)]
pub struct PieceAsk {
    pub place: u32,
    pub off: u64,
    pub len: u32,
    pub write: bool,
}

/// A host call by its number. Its arguments are the first of `args`, in order.
#[derive(Clone, Copy, Debug, PartialEq, Eq)]
pub struct HostAsk {
    pub call: u32,
    pub args: [u64; 4],
}

/// Why a run stands still.
#[derive(Clone, Copy, Debug, PartialEq, Eq)]
pub enum Event {
    Piece(PieceAsk),
    Host(HostAsk),
    Ended(Outcome),
}

/// A load or a store of `size` bytes at `addr` that stands at a shared piece. Of the bytes the first
/// `done` are through; what a load has read of them so far, and what a store writes, is `value`, the
/// lowest byte first.
#[derive(Clone, Copy, Debug)]
pub struct Pending {
    pub op: u8,
    pub addr: u64,
    pub size: u64,
    pub done: u64,
    pub value: u64,
    pub ask: PieceAsk,
}

/// Where a machine is.
#[derive(Clone, Copy, Debug)]
pub enum Stage {
    Runs,
    Piece(Pending),
    Host(HostAsk),
    Over(Outcome),
}

/// A machine over a linear memory, which borrows its module. Only `new` takes memory.
#[derive(Drop)]
pub struct Machine<'m, M: Linear> {
    pub(crate) code: Option<&'m ValidModule>,
    pub(crate) thread: Thread<'m>,
    pub(crate) memory: M,
    pub(crate) stage: Stage,
    pub(crate) given: u64,
    pub(crate) writable: u32,
    pub(crate) scratch: Buffer,
    pub(crate) aside: Buffer,
}
