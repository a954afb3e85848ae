//! What a function was granted, and the channels of a call.

use crate::items::Items;

/// What a grant allows. `Write` includes `Read`.
#[derive(Clone, Copy, Debug, PartialEq, Eq)]
pub enum Mode {
    Read,
    Write,
}

/// A key that a function may use, by its number, with its size in bytes.
#[derive(Clone, Copy, Debug, PartialEq, Eq)]
pub struct Grant {
    pub key: u32,
    pub size: u32,
    pub mode: Mode,
}

pub type Grants = Items<Grant>;

/// Where an operation goes: to the replica of a key, to its global value, or to the call table.
#[derive(Clone, Copy, Debug, PartialEq, Eq)]
pub enum Channel {
    Local(u32),
    Global(u32),
    Table,
}
