//! What one pass has seen is told to another.
ghost use Rattle.std.specs.Prelude.{◌≡◌};
ghost use mathlib.Core.List.{IsPrefix};
ghost use Rattle.turn_cell.specs.History.{Extends, MakersBelow};
ghost use Rattle.turn_cell.specs.Cell.{IsPassOf, IsNoteOf, pass_list, pass_number, note_list, numbers_of};

use crate::cell::{Note, Pass, Turns};
use crate::kept::Kept;
use crate::plays::{ENTRIES, Hear, Read, Write};

impl<S: Kept> Turns<S> {
    /// The pass keeps its list, and the note has it too.
    pub fn split(&self, pass: &mut Pass<S>) -> Note<S>
        requires cell { IsPassOf pass.old self.now }
        ensures cell { IsPassOf pass.new self.now × (pass_number pass.new ≡ pass_number pass.old) }
        ensures note_cell { IsNoteOf result self.now }
        ensures list { (pass_list pass.new ≡ pass_list pass.old) × (note_list result ≡ pass_list pass.old) }
        ensures makers { MakersBelow (numbers_of self.now) (pass_list pass.new) }
    {
        let seat = self.table.shared.split_seat::<Write>(&mut pass.seat);
        Note { seat }
    }

    /// The pass has then seen all that it had seen and all that the note has, and nothing more of its own. Since it
    /// looks at the cell once, it may have seen more entries of others.
    pub fn join(&self, pass: &mut Pass<S>, note: Note<S>)
        requires cell { IsPassOf pass.old self.now }
        requires note_cell { IsNoteOf note self.now }
        ensures cell { IsPassOf pass.new self.now × (pass_number pass.new ≡ pass_number pass.old) }
        ensures note { IsPrefix (note_list note) (pass_list pass.new) }
        ensures list { Extends (pass_number pass.old) (pass_list pass.old) (pass_list pass.new) }
        ensures makers { MakersBelow (numbers_of self.now) (pass_list pass.new) }
    {
        let Note { seat } = note;
        self.table.shared.join_seat::<Read>(&mut pass.seat, seat);
        self.table.shared.load::<Hear>(&mut pass.seat, ENTRIES);
    }
}
