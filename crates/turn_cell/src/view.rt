//! What a seat at the table of a cell knows. No code makes a value of these types but of `Opening`.
use std::collections::LinkedList;
use std::snapshot::Snapshot;

/// One change of the value: the number of the pass that made it, and its spelling.
pub struct Entry {
    pub maker: u32,
    pub numbers: LinkedList<u64>,
}

/// What a cell is told when it is made: the value at the start, and how many passes there are.
pub struct Opening<S> {
    pub start: Snapshot<S>,
    pub numbers: u32,
}

/// What a seat is for. The first number is that of its pass; of `Begins` and `Blank` it is the limit on numbers, or 0
/// where the seat does not know it.
pub enum Role<S> {
    // The first seat, in whose turn the passes get their numbers.
    Begins(u32),
    // A seat that waits for its number.
    Blank(u32),
    // A note.
    Noted,
    // A pass with no ticket.
    Idle(u32),
    // A pass with this ticket.
    Waits(u32, u64),
    // A pass that has the turn, with the value as it was taken.
    Has(u32, S),
    // The same, once its entry is counted.
    Counted(u32),
    // The seat that has taken every pass back.
    Sealed,
}

/// A seat's view: of which cell it is, its role, the list that it has seen, the list of a note that it takes in, and
/// the passes that it has taken back with their lists.
pub struct View<S> {
    pub key: Option<Opening<S>>,
    pub role: Role<S>,
    pub seen: LinkedList<Entry>,
    pub heard: LinkedList<Entry>,
    pub retired: LinkedList<(u32, LinkedList<Entry>)>,
}
