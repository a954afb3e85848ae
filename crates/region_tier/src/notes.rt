//! What one maker has seen of a key is told to another.
ghost use Rattle.std.specs.Prelude.{◌≡◌};
ghost use mathlib.Core.List.{IsPrefix};
ghost use Rattle.turn_cell.specs.Cell.{IsNoteOf, note_list, pass_list, pass_number};
ghost use Rattle.turn_cell.specs.History.{Extends};
ghost use Rattle.region_tier.specs.Tiers.{HasPass, Goes, cells_of, slots_of};

use crate::cells::{Passes, Tier};
use shared_region::Region;
use turn_cell::Note;

impl Tier {
    /// What this maker has seen of a key, to be handed to another maker of the tier. Its pass keeps its list.
    pub fn split(&self, passes: &mut Passes, key: u32) -> Note<Region>
        requires { HasPass (cells_of self.now) (slots_of passes.old) key (λ t p. Unit {0}) }
        ensures { Goes (cells_of self.now) (slots_of passes.old) (slots_of passes.new) key (λ t p q.
            (pass_list q ≡ pass_list p) × IsNoteOf result t × (note_list result ≡ pass_list p)) }
    {
        let mut pass = passes.take_out(key);
        let note = self.cell(key).split(&mut pass);
        passes.put_back(key, pass);
        note
    }

    /// This maker has then seen of a key all that it had seen and all that the note has, and nothing more of its own. It
    /// may have seen more entries of others.
    pub fn join(&self, passes: &mut Passes, key: u32, note: Note<Region>)
        requires { HasPass (cells_of self.now) (slots_of passes.old) key (λ t p. IsNoteOf note t) }
        ensures { Goes (cells_of self.now) (slots_of passes.old) (slots_of passes.new) key (λ t p q.
            IsPrefix (note_list note) (pass_list q) × Extends (pass_number p) (pass_list p) (pass_list q)) }
    {
        let mut pass = passes.take_out(key);
        self.cell(key).join(&mut pass, note);
        passes.put_back(key, pass);
    }
}
