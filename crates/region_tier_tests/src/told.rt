//! One maker writes, another reads, and the first is told what the second has seen.
ghost use Rattle.std.specs.Prelude.{◌≡◌, ◌∷◌, [], IfSome};
ghost use Rattle.faaslet_meaning.specs.Channels.RegionOperation.{read, write};
ghost use Rattle.faaslet_meaning.specs.Spelling.{spelled};
ghost use Rattle.turn_cell.specs.History.{entry};
ghost use Rattle.region_tier.specs.Tiers.{AreRows, IsFreshRow, IsRoomOf, IsRow, cells_of, numbers_in, slots_of};
ghost use Rattle.region_tier_tests.specs.Rows.{BeginsWith, FirstOf, IsOneByte};

use crate::makers::two_makers;
use faaslet_meaning::{Items, RegionOp};
use region_tier::{Passes, Tier, TierRoom};
use std::alloc::Global;
use std::sync::Wait;

/// A tier with the memory with which it closes, the passes of its two makers, and the byte that the second one read.
pub struct Told {
    pub tier: Tier,
    pub room: TierRoom,
    pub passes: Vec<Passes>,
    pub read: u8,
}

/// A global value of one byte, and two makers. The first writes a 7 and the second reads. Then the first is told what the
/// second has seen: where that read gave the 7, it has seen its Write and then the Read. `None` is for want of memory.
pub fn write_read_tell<R: Wait>(rt: &R, alloc: Global) -> Option<Told>
    ensures closing { IfSome result (λ t. IsRoomOf t.room t.tier) }
    ensures rows { IfSome result (λ t. AreRows (cells_of t.tier) (numbers_in t.tier) t.passes.items) }
    ensures seen { IfSome result (λ t. t.read ≡ 7 → FirstOf t.passes.items (λ r. BeginsWith (slots_of r) 0
        (entry 0 (spelled (write 0 (7 ∷ []))) ∷ entry 1 (spelled (read 0 1)) ∷ []))) }
{
    let values = [(1, Items::of(Vec::new(alloc)))];
    let Ok((tier, room, passes)) = Tier::global(alloc, &values, 2) else {
        return None;
    };
    let (mut passes, mut first, mut second) = two_makers(passes);
    let read = tell(rt, &tier, &mut first, &mut second);
    passes.push_reserved(first);
    passes.push_reserved(second);
    Some(Told {
        tier,
        room,
        passes,
        read,
    })
}

fn tell<R: Wait>(rt: &R, tier: &Tier, first: &mut Passes, second: &mut Passes) -> u8
    requires cell { IsOneByte (cells_of tier.now) }
    requires first { IsFreshRow (cells_of tier.now) (slots_of first.old) 0 }
    requires second { IsFreshRow (cells_of tier.now) (slots_of second.old) 1 }
    ensures first { IsRow (cells_of tier.now) (slots_of first.new) 0 }
    ensures second { IsRow (cells_of tier.now) (slots_of second.new) 1 }
    ensures seen { result ≡ 7 → BeginsWith (slots_of first.new) 0 (entry 0 (spelled (write 0 (7 ∷ []))) ∷ entry 1 (spelled (read 0 1)) ∷ []) }
{
    let mut scratch = [0];
    let write = RegionOp::Write {
        off: 0,
        bytes: &[7],
    };
    tier.access(rt, first, 0, &write, &mut scratch);
    let read = RegionOp::Read { off: 0, len: 1 };
    tier.access(rt, second, 0, &read, &mut scratch);
    let note = tier.split(second, 0);
    tier.join(first, 0, note);
    scratch[0]
}
