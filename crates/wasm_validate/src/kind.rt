//! An open block.

use faaslet_meaning::ValType;

#[derive(Clone, Copy, Debug, PartialEq, Eq)]
pub enum Kind {
    /// A block, an else side, or the body itself.
    Body,
    /// A loop.
    Again,
    /// The first side of an if.
    Choice,
}

#[derive(Clone, Copy, Debug)]
pub struct Control {
    pub kind: Kind,
    pub ends: Option<ValType>,
    pub height: usize,
    pub unreachable: bool,
}
