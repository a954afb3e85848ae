//! The rows of a history without its bytes.

use faaslet_meaning::Items;

/// An entry of a replica or of a global value: who made it, the place of its operation from 0 in the order
/// probe, read, send, size, fill, write, take, put, append, lock_read, lock_write, unlock, and where it
/// begins and how long it is, both 0 where it says none. The length is the one that it names or the number of
/// its bytes.
#[derive(Clone, Copy, Debug, PartialEq, Eq)]
pub struct Mark {
    pub maker: u32,
    pub row: u32,
    pub off: u32,
    pub len: u32,
}

pub type Marks = Items<Mark>;
