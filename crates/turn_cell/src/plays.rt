//! The words of a cell, its rule, and what each step on it tells.
ghost use Rattle.turn_cell.specs.Steps.{drew, looked, counted, passed, heard, sealed, limited, numbered, begun};

use crate::kept::{Kept, Named};
use crate::view::{Opening, View};
use atomic_table::{Join, Play, Seat, Split, Table, TableRule};
use std::alloc::Global;
use std::marker::PhantomData;

/// How many entries were made, modulo 2^64.
pub const ENTRIES: usize = 0;

/// The next ticket, modulo 2^64.
pub const TICKETS: usize = 1;

/// The ticket whose turn it is, modulo 2^64.
pub const SERVING: usize = 2;

/// How many passes have a number.
pub const NUMBERS: usize = 3;

/// 0, and then for good how many passes there are to be.
pub const LIMIT: usize = 4;

/// The rule that every step keeps.
pub struct Law;

impl<S: Kept> TableRule<Option<S>, View<S>, Opening<S>> for Law {
    ghost use Rattle.std.specs.Prelude.{[], Some};
    ghost use Rattle.turn_cell.specs.declared.view.Role.TheVariants.{Begins};
    ghost use Rattle.turn_cell.specs.Rule.{Ruled};
    ghost use Rattle.turn_cell.specs.Views.{view_of};

    ghost holds = { λ key. Ruled S.makes key };

    ghost first = { λ key. view_of (Some key) [] (Begins 0) };
}

/// Draws a ticket.
pub struct Draw;

impl<S: Kept> Play<Option<S>, View<S>> for Draw {
    ghost then = { drew };
}

/// Looks whose turn it is, and takes the slot where it is this seat's.
pub struct Look;

impl<S: Kept> Play<Option<S>, View<S>> for Look {
    ghost then = { looked S.makes };
}

/// Counts the entry of `E`.
pub struct Count<E> {
    entry: PhantomData<E>,
}

impl<S: Kept, E: Named> Play<Option<S>, View<S>> for Count<E> {
    ghost then = { counted S.makes E.entry };
}

/// Passes the turn on, and gives the slot back.
pub struct PassOn;

impl<S: Kept> Play<Option<S>, View<S>> for PassOn {
    ghost then = { passed };
}

/// Sees the whole list as it is, in place of the list of a note.
pub struct Hear;

impl<S: Kept> Play<Option<S>, View<S>> for Hear {
    ghost then = { heard };
}

/// Sees the whole list, once every pass was taken back.
pub struct Seal;

impl<S: Kept> Play<Option<S>, View<S>> for Seal {
    ghost then = { sealed };
}

/// Makes a seat with no number.
pub struct Blanks;

impl<S: Kept> Split<View<S>> for Blanks {
    ghost use Rattle.turn_cell.specs.declared.view.Role.TheVariants.{Blank};
    ghost use Rattle.turn_cell.specs.Views.{view_of, limit_of};

    ghost left = { λ v. v };

    ghost right = { λ v. view_of v.key v.seen (Blank (limit_of v.role)) };
}

/// Sets the limit, where there is none.
pub struct SetLimit;

impl<S: Kept> Play<Option<S>, View<S>> for SetLimit {
    ghost then = { limited };
}

/// Takes a number, where it is the next.
pub struct TakeNumber;

impl<S: Kept> Play<Option<S>, View<S>> for TakeNumber {
    ghost then = { numbered };
}

/// Ends the first turn.
pub struct Begin;

impl<S: Kept> Play<Option<S>, View<S>> for Begin {
    ghost then = { begun };
}

/// Makes a note of what was seen.
pub struct Write;

impl<S: Kept> Split<View<S>> for Write {
    ghost use Rattle.turn_cell.specs.declared.view.Role.TheVariants.{Noted};
    ghost use Rattle.turn_cell.specs.Views.{view_of};

    ghost left = { λ v. v };

    ghost right = { λ v. view_of v.key v.seen Noted };
}

/// Takes a note in.
pub struct Read;

impl<S: Kept> Join<View<S>> for Read {
    ghost use Rattle.std.specs.Prelude.{[], None};
    ghost use Rattle.turn_cell.specs.declared.view.Role.TheVariants.{Noted};
    ghost use Rattle.turn_cell.specs.Views.{view_of};

    ghost both = { λ v w. record v { heard = w.seen } };

    ghost spent = { view_of None [] Noted };
}

/// Takes a pass back for good.
pub struct Retire;

impl<S: Kept> Join<View<S>> for Retire {
    ghost use Rattle.std.specs.Prelude.{[], None, ◌++◌, ◌∷◌};
    ghost use Rattle.turn_cell.specs.declared.view.Role.TheVariants.{Noted};
    ghost use Rattle.turn_cell.specs.Views.{view_of, number_of};

    ghost both = { λ v w. record v { retired = v.retired ++ (number_of w.role, w.seen) ∷ [] } };

    ghost spent = { view_of None [] Noted };
}

pub type TurnTable<S> = Table<Option<S>, View<S>, Opening<S>, Law, Global>;

pub type TurnSeat<S> = Seat<Option<S>, View<S>>;
