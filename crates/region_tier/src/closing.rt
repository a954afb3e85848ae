//! A tier ends: every pass comes back, and each region with its whole list.
ghost use Rattle.region_tier.specs.Tiers.{AreClosed, AreRows, IsRoomOf, cells_of, numbers_in};

use crate::cells::{Passes, Tier, TierRoom};
use crate::rows::gather;
use shared_region::Region;
use turn_cell::Seen;

impl Tier {
    /// Takes all passes back, in the order in which they were made, and gives for each key in order its region and its
    /// whole list. Takes no memory but what the tier was made with.
    pub fn close(self, room: TierRoom, mut passes: Vec<Passes>) -> Vec<(Region, Seen<Region>)>
        requires room { IsRoomOf room self }
        requires passes { AreRows (cells_of self) (numbers_in self) passes.items }
        ensures { AreClosed (cells_of self) passes.items result.items }
    {
        let Tier {
            mut cells,
            numbers: _,
        } = self;
        let TierRoom {
            mut homes,
            mut ends,
        } = room;
        while let Some(turns) = cells.pop() {
            let Some(home) = homes.pop() else {
                unreachable!()
            };
            let column = gather(&mut passes, home);
            ends.push_reserved(turns.close(column));
        }
        cells.destroy_empty();
        ends.reverse();
        ends
    }
}
