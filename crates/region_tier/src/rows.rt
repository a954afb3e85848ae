//! The passes of one key go to their makers, and come back from them.
ghost use Rattle.std.specs.Prelude.{◌≡◌, ◌<◌, ◌++◌, ◌∷◌, [], Some, length};
ghost use Rattle.std.specs.Vec.{vec_capacity};
ghost use mathlib.Core.Option.{some};
ghost use lib.ListN.{get_elem?};
ghost use Rattle.turn_cell.specs.History.{Each};
ghost use Rattle.region_tier.specs.Tiers.{AreDealt, Changed, EndsWithPass, HasMore, slots_of};

use crate::cells::Passes;
use shared_region::Region;
use turn_cell::Pass;

// Each maker gets its pass behind those that it has. The emptied column comes back.
pub(crate) fn deal(rows: &mut Vec<Passes>, mut column: Vec<Pass<Region>>) -> Vec<Pass<Region>>
    requires count { length column.items ≡ length rows.old.items }
    requires room { Each rows.old.items (λ i r. length (slots_of r) < vec_capacity r.slots) }
    ensures dealt { AreDealt rows.old.items column.items rows.new.items }
    ensures home { (result.items ≡ []) × (vec_capacity result ≡ vec_capacity column) }
{
    while let Some(pass) = column.pop() {
        push_last(rows, column.len(), pass);
    }
    column
}

// The last pass of each maker comes back, in the order of the makers.
pub(crate) fn gather(rows: &mut Vec<Passes>, mut home: Vec<Pass<Region>>) -> Vec<Pass<Region>>
    requires room { vec_capacity home ≡ length rows.old.items }
    requires empty { home.items ≡ [] }
    requires there { Each rows.old.items (λ i r. EndsWithPass (slots_of r)) }
    ensures gathered { AreDealt rows.new.items result.items rows.old.items }
    ensures count { length result.items ≡ length rows.old.items }
{
    for maker in 0..rows.len() {
        let pass = pop_last(rows, maker);
        home.push_reserved(pass);
    }
    home
}

fn push_last(rows: &mut Vec<Passes>, maker: usize, pass: Pass<Region>)
    requires within { maker < length rows.old.items }
    requires room { Each rows.old.items (λ i r. i ≡ maker → length (slots_of r) < vec_capacity r.slots) }
    ensures { Changed rows.old.items rows.new.items maker (λ r d. HasMore r d pass) }
{
    rows[maker].push(pass);
}

fn pop_last(rows: &mut Vec<Passes>, maker: usize) -> Pass<Region>
    requires within { maker < length rows.old.items }
    requires there { Each rows.old.items (λ i r. i ≡ maker → EndsWithPass (slots_of r)) }
    ensures { Changed rows.old.items rows.new.items maker (λ r d. HasMore d r result) }
{
    rows[maker].pop()
}

impl Passes {
    fn push(&mut self, pass: Pass<Region>)
        requires { length (slots_of self.old) < vec_capacity self.old.slots }
        ensures { HasMore self.old self.new pass }
    {
        self.slots.push_reserved(Some(pass));
    }

    fn pop(&mut self) -> Pass<Region>
        requires { EndsWithPass (slots_of self.old) }
        ensures { HasMore self.new self.old result }
    {
        let Some(Some(pass)) = self.slots.pop() else {
            unreachable!()
        };
        pass
    }
}
