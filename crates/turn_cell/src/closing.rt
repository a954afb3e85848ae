//! A cell ends: every pass comes back, and the value with the whole list.
ghost use Rattle.std.specs.Prelude.{◌≡◌, [], ◌∷◌, ◌++◌, length};
ghost use mathlib.Core.Option.{some};
ghost use lib.ListN.{get_elem?};
ghost use Rattle.turn_cell.specs.History.{Stands, Extends, MakersBelow, Each, Lists, Covers};
ghost use Rattle.turn_cell.specs.Cell.{ArePasses, IsKeeper, pass_list, pass_number, whole_list, start_of, numbers_of};

use crate::cell::{Note, Pass, Seen, Turns};
use crate::kept::Kept;
use crate::plays::{ENTRIES, Retire, Seal, TurnSeat, Write};

impl<S: Kept> Turns<S> {
    /// Takes all passes back, in the order of their numbers, and gives the value with the whole list. Notes of the cell
    /// may still be about, and are worth nothing from then on.
    pub fn close(self, mut passes: Vec<Pass<S>>) -> (S, Seen<S>)
        requires count { length passes.items ≡ numbers_of self }
        requires passes { ArePasses passes.items self }
        ensures stands { Stands S.makes (start_of self) (whole_list result.1) result.0 }
        ensures lists { Each passes.items (λ k p. Extends k (pass_list p) (whole_list result.1)) }
        ensures makers { MakersBelow (numbers_of self) (whole_list result.1) }
    {
        let Some(mut pass) = passes.pop() else {
            unreachable!()
        };
        let Note { seat: mut keeper } = self.split(&mut pass);
        self.retire(&mut keeper, pass);
        self.retire_all(&mut keeper, passes);
        self.finish(keeper)
    }

    // The keeper takes a pass back for good.
    fn retire(&self, keeper: &mut TurnSeat<S>, pass: Pass<S>)
        requires keeper { IsKeeper keeper.old keeper.old.me.0.seen keeper.old.me.0.retired self.now }
        requires pass { pass.seat.table_id ≡ self.now.table.shared.table_id }
        ensures { IsKeeper keeper.new keeper.old.me.0.seen (keeper.old.me.0.retired ++ (pass_number pass, pass_list pass) ∷ []) self.now }
    {
        let Pass { seat, number: _ } = pass;
        self.table.shared.join_seat::<Retire>(keeper, seat);
    }

    fn retire_all(&self, keeper: &mut TurnSeat<S>, mut passes: Vec<Pass<S>>)
        requires keeper { IsKeeper keeper.old keeper.old.me.0.seen keeper.old.me.0.retired self.now }
        requires passes { Each passes.items (λ k p. (pass_number p ≡ k) × (p.seat.table_id ≡ self.now.table.shared.table_id)) }
        ensures keeper { IsKeeper keeper.new keeper.old.me.0.seen keeper.new.me.0.retired self.now }
        ensures old { Each keeper.old.me.0.retired (λ i r. get_elem? keeper.new.me.0.retired i ≡ some r) }
        ensures lists { Each passes.items (λ k p. Lists keeper.new.me.0.retired k (pass_list p)) }
    {
        while let Some(pass) = passes.pop() {
            self.retire(keeper, pass);
        }
        passes.destroy_empty();
    }

    // Every pass was taken back, so nobody has the turn.
    fn finish(self, mut keeper: TurnSeat<S>) -> (S, Seen<S>)
        requires keeper { IsKeeper keeper keeper.me.0.seen keeper.me.0.retired self }
        requires all { Covers (numbers_of self) keeper.me.0.retired }
        ensures stands { Stands S.makes (start_of self) (whole_list result.1) result.0 }
        ensures lists { Each keeper.me.0.retired (λ i r. Extends r.0 r.1 (whole_list result.1)) }
        ensures makers { MakersBelow (numbers_of self) (whole_list result.1) }
    {
        self.table.shared.load::<Seal>(&mut keeper, ENTRIES);
        let seat = self.table.shared.split_seat::<Write>(&mut keeper);
        let Turns { table } = self;
        let mut closed = table.close_with(keeper);
        let value = closed.take(0).unwrap();
        closed.free();
        (value, Seen { seat })
    }
}
