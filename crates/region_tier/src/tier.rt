//! Turns of one maker at the region of a key, and accesses.
ghost use Rattle.std.specs.Prelude.{◌≡◌, ◌∷◌, [], length};
ghost use Rattle.shared_region.specs.Operations.{operation_of};
ghost use Rattle.turn_cell.specs.Cell.{pass_list, pass_number, start_of, taken_of, value_of, maker_of};
ghost use Rattle.region_tier.specs.Holding.{has_lock, LocksInTurn};
ghost use Rattle.region_tier.specs.Opened.{InRange};
ghost use Rattle.region_tier.specs.Answered.{Told};
ghost use Rattle.region_tier.specs.Tiers.{HasPass, IsOut, Gave, Goes, Took, cells_of, slots_of};
ghost use Rattle.shared_region.specs.Entries.{MakesShared};
ghost use Rattle.turn_cell.specs.History.{entry};

use crate::attempt::access_cell;
use crate::cells::{Passes, Tier};
use faaslet_meaning::{RegionOp, Reply};
use shared_region::Region;
use std::sync::Wait;
use turn_cell::{Held, Named};

impl Tier {
    /// Waits for the turn of this key, and takes its region. The pass is out until `give` or `give_back`.
    pub fn take<R: Wait>(&self, rt: &R, passes: &mut Passes, key: u32) -> Held<Region>
        requires { HasPass (cells_of self.now) (slots_of passes.old) key (λ t p. Unit {0}) }
        ensures { Took (cells_of self.now) (slots_of passes.old) (slots_of passes.new) key result }
    {
        let pass = passes.take_out(key);
        self.cell(key).take(rt, pass)
    }

    /// Ends the turn with an entry, that of `E`.
    pub fn give<E: Named>(&self, passes: &mut Passes, key: u32, held: Held<Region>)
        requires out { IsOut (cells_of self.now) (slots_of passes.old) key held }
        requires makes { MakesShared (maker_of held) E.entry (taken_of held) (value_of held) }
        ensures { Gave (cells_of self.now) (slots_of passes.old) (slots_of passes.new) key held (entry (maker_of held) E.entry ∷ []) }
    {
        let pass = self.cell(key).give::<E>(held);
        passes.put_back(key, pass);
    }

    /// Ends the turn with no entry.
    pub fn give_back(&self, passes: &mut Passes, key: u32, held: Held<Region>)
        requires out { IsOut (cells_of self.now) (slots_of passes.old) key held }
        requires same { value_of held ≡ taken_of held }
        ensures { Gave (cells_of self.now) (slots_of passes.old) (slots_of passes.new) key held [] }
    {
        let pass = self.cell(key).give_back(held);
        passes.put_back(key, pass);
    }

    /// Makes the operation in a turn of this key, with one entry. Where another maker's lock blocks it, it gives the
    /// turn back and tries again, and does not return while that lock is kept. Takes no memory.
    pub fn access<R: Wait>(
        &self,
        rt: &R,
        passes: &mut Passes,
        key: u32,
        op: &RegionOp,
        scratch: &mut [u8],
    ) -> Reply
        requires { HasPass (cells_of self.now) (slots_of passes.old) key (λ t p. InRange (start_of t) op.now (length scratch.old)
            × LocksInTurn (operation_of op.now) (has_lock (pass_number p) (pass_list p))) }
        ensures { Goes (cells_of self.now) (slots_of passes.old) (slots_of passes.new) key (λ t p q.
            Told (start_of t) (pass_number p) (operation_of op.now) (pass_list p) (pass_list q) result scratch.old scratch.new) }
    {
        let pass = passes.take_out(key);
        let (pass, reply) = access_cell(rt, self.cell(key), pass, op, scratch);
        passes.put_back(key, pass);
        reply
    }
}
