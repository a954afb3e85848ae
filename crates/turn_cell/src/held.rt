//! A pass tells its number, and what is held is lent.
ghost use Rattle.std.specs.Prelude.{◌≡◌};
ghost use types.Logic.{sem};
ghost use denote.Follow.{follows};
ghost use Rattle.turn_cell.specs.contracts.cell.Held.{the_row};
ghost use Rattle.turn_cell.specs.Cell.{pass_number, value_of};
ghost use Rattle.turn_cell.specs.Lent.{held_with};

use crate::cell::{Held, Pass};
use crate::kept::Kept;

impl<S: Kept> Pass<S> {
    /// The place of this pass in the list that `open` gave, and the maker of its entries.
    pub fn number(&self) -> u32
        ensures { result ≡ pass_number self.now }
    {
        self.number
    }
}

impl<S: Kept> Held<S> {
    /// The value as it is now.
    pub fn value(&self) -> &S
        ensures { result.now ≡ value_of self.now }
    {
        &self.value
    }

    /// The value, to be changed in place.
    pub fn value_mut(&mut self) -> &mut S
        ensures* writes_back { sem 𝓛 (follows (the_row S.row S.Kept) S.row self.entry.ghost_name result.ghost_name (held_with self.old)) }
        ensures value { result.now ≡ value_of self.old }
    {
        &mut self.value
    }
}
