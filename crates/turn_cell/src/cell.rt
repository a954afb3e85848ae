//! The cell, and the tokens by which threads use it.
ghost use Rattle.std.specs.Prelude.{◌≡◌, ◌<◌, [], ◌∷◌, None};
ghost use Rattle.turn_cell.specs.declared.view.Role.TheVariants.{Idle, Has, Noted};
ghost use Rattle.turn_cell.specs.History.{MakersBelow};
ghost use Rattle.turn_cell.specs.Views.{view_of, numbers_in};

use crate::kept::Kept;
use crate::plays::{TurnSeat, TurnTable};
use std::snapshot::Snapshot;

/// A value that is taken in turns, in the order in which the tickets were drawn. It can lie in an `Arc` or be lent to
/// threads, and it is not dropped: `close` gives the value.
pub struct Turns<S: Kept> {
    pub(crate) table: TurnTable<S>,
    ghost shape: { (table.shared.table_id.words ≡ 5) × (table.shared.table_id.slots ≡ 1) },
    ghost some: { 0 < table.shared.key.numbers },
}

/// The right to take turns, one at a time. It has the bytes of its number alone.
#[derive(Drop)]
pub struct Pass<S: Kept> {
    pub(crate) seat: TurnSeat<S>,
    pub(crate) number: u32,
    ghost ready: { seat.me ≡ (view_of seat.me.0.key seat.me.0.seen (Idle number), []) },
    ghost makers: { MakersBelow (numbers_in seat.me.0.key) seat.me.0.seen },
}

/// The turn, with the value as it was taken.
pub(crate) struct Turn<S: Kept> {
    pub(crate) seat: TurnSeat<S>,
    pub(crate) number: u32,
    pub(crate) taken: Snapshot<S>,
    ghost ready: { seat.me ≡ (view_of seat.me.0.key seat.me.0.seen (Has number taken.value), (0, None) ∷ []) },
}

/// The value, in a turn. It cannot be dropped: `give` and `give_back` end the turn.
pub struct Held<S: Kept> {
    pub(crate) turn: Turn<S>,
    pub(crate) value: S,
}

/// The list that a pass had seen, to be handed to another pass of the cell. It has no bytes.
#[derive(Drop)]
pub struct Note<S: Kept> {
    pub(crate) seat: TurnSeat<S>,
    ghost ready: { seat.me ≡ (view_of seat.me.0.key seat.me.0.seen Noted, []) },
}

/// The whole list of a cell that is closed, in contracts alone. It has no bytes.
#[derive(Drop)]
pub struct Seen<S: Kept> {
    pub(crate) seat: TurnSeat<S>,
}
