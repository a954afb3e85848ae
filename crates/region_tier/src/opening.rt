//! A tier is made, key by key.
ghost use Rattle.std.specs.Prelude.{◌≡◌, ◌<◌, [], IfOk, IfErr, length};
ghost use Rattle.std.specs.Vec.{vec_capacity};
ghost use Rattle.region_tier.specs.Opened.{IsFree};
ghost use Rattle.region_tier.specs.Tiers.{Adds, AreFreshRows, HaveRoom, IsRoomOf, cells_of, numbers_in, room_of};

use crate::cells::{Passes, Tier, TierRoom};
use crate::rows::deal;
use shared_region::Region;
use std::alloc::{AllocError, Global};
use turn_cell::Turns;

impl Tier {
    /// A tier without keys, with room for so many, the memory with which it closes, and the passes of that many makers.
    pub fn empty(
        alloc: Global,
        keys: usize,
        numbers: u32,
    ) -> Result<(Tier, TierRoom, Vec<Passes>), AllocError>
        ensures tier { IfOk result (λ r. (cells_of r.0 ≡ []) × (numbers_in r.0 ≡ numbers) × (room_of r.0 ≡ keys)) }
        ensures room { IfOk result (λ r. IsRoomOf r.1 r.0) }
        ensures passes { IfOk result (λ r. AreFreshRows [] numbers r.2.items × HaveRoom keys r.2.items) }
    {
        let passes = empty_rows(alloc, keys, numbers)?;
        let homes = Vec::with_capacity(alloc, keys)?;
        let ends = Vec::with_capacity(alloc, keys)?;
        let cells = Vec::with_capacity(alloc, keys)?;
        let tier = Tier { cells, numbers };
        let room = TierRoom { homes, ends };
        Ok((tier, room, passes))
    }

    /// One key more, with this region, and for each maker its pass. Where there is no memory the tier comes back as it
    /// was, and the room and the passes stay.
    pub fn add(
        self,
        alloc: Global,
        room: &mut TierRoom,
        passes: &mut Vec<Passes>,
        region: Region,
    ) -> Result<Tier, Tier>
        requires some { 0 < numbers_in self }
        requires free { IsFree region (numbers_in self) }
        requires room { (length (cells_of self) < room_of self) × HaveRoom (room_of self) passes.old.items }
        requires closing { IsRoomOf room.old self }
        requires passes { AreFreshRows (cells_of self) (numbers_in self) passes.old.items }
        ensures added { IfOk result (λ t. Adds (cells_of self) (cells_of t) region (numbers_in self)) }
        ensures same { IfOk result (λ t. (numbers_in t ≡ numbers_in self) × (room_of t ≡ room_of self) × HaveRoom (room_of self) passes.new.items) }
        ensures passes { IfOk result (λ t. AreFreshRows (cells_of t) (numbers_in self) passes.new.items) }
        ensures closing { IfOk result (λ t. IsRoomOf room.new t) }
        ensures want { IfErr result (λ t. (t ≡ self) × (room.new ≡ room.old) × (passes.new ≡ passes.old)) }
    {
        let Tier { mut cells, numbers } = self;
        let Ok((turns, column)) = Turns::open(alloc, region, numbers) else {
            return Err(Tier { cells, numbers });
        };
        let home = deal(passes, column);
        cells.push_reserved(turns);
        room.homes.push_reserved(home);
        Ok(Tier { cells, numbers })
    }
}

fn empty_rows(alloc: Global, keys: usize, numbers: u32) -> Result<Vec<Passes>, AllocError>
    ensures { IfOk result (λ r. AreFreshRows [] numbers r.items × HaveRoom keys r.items) }
{
    let mut passes = Vec::with_capacity(alloc, numbers as usize)?;
    for _ in 0..numbers {
        let slots = Vec::with_capacity(alloc, keys)?;
        passes.push_reserved(Passes { slots });
    }
    Ok(passes)
}
