//! A replica and a global value of one key, and two makers.
ghost use Rattle.std.specs.Prelude.{◌≡◌, ◌≤◌, ◌∷◌, [], IfOk, IfSome};
ghost use Rattle.std.specs.Vec.{vec_capacity};
ghost use Rattle.faaslet_meaning.specs.Region.{global_value, replica};
ghost use Rattle.faaslet_meaning.specs.Region.{Region as ARegion};
ghost use Rattle.turn_cell.specs.Cell.{whole_list};
ghost use Rattle.region_tier.specs.Tiers.{IsRoomOf, cells_of, numbers_in, slots_of};
ghost use Rattle.state_service_tests.specs.Makers.{Closes, IsOneKey, Keeps, Sees};

use faaslet_meaning::{Bytes, Items};
use region_tier::{Passes, Tier, TierRoom};
use region_tier_tests::two_makers;
use shared_region::Region;
use state_service::StatePasses;
use std::alloc::{AllocError, Global};
use turn_cell::Seen;

/// The tiers of one key of two bytes with the memory with which they close, the passes of two makers, and the emptied lists
/// in which these came.
pub(crate) struct Pair {
    pub locals: Tier,
    pub globals: Tier,
    pub local_room: TierRoom,
    pub global_room: TierRoom,
    pub local_home: Vec<Passes>,
    pub global_home: Vec<Passes>,
    pub first: StatePasses,
    pub second: StatePasses,
}

/// The global value is 1, 2 at first, and the replica is absent. `None` is for want of memory.
pub(crate) fn open(alloc: Global) -> Option<Pair>
    ensures locals { IfSome result (λ p. IsOneKey (cells_of p.locals) (replica 2) × (numbers_in p.locals ≡ 2)) }
    ensures globals { IfSome result (λ p. IsOneKey (cells_of p.globals) (global_value 2 (1 ∷ 2 ∷ [])) × (numbers_in p.globals ≡ 2)) }
    ensures local_room { IfSome result (λ p. IsRoomOf p.local_room p.locals) }
    ensures global_room { IfSome result (λ p. IsRoomOf p.global_room p.globals) }
    ensures first { IfSome result (λ p. Sees (cells_of p.locals) (slots_of p.first.local) 0 [] × Sees (cells_of p.globals) (slots_of p.first.global) 0 []) }
    ensures second { IfSome result (λ p. Sees (cells_of p.locals) (slots_of p.second.local) 1 [] × Sees (cells_of p.globals) (slots_of p.second.global) 1 []) }
    ensures local_home { IfSome result (λ p. (p.local_home.items ≡ []) × (2 ≤ vec_capacity p.local_home)) }
    ensures global_home { IfSome result (λ p. (p.global_home.items ≡ []) × (2 ≤ vec_capacity p.global_home)) }
{
    let Ok(init) = one_two(alloc) else {
        return None;
    };
    let values = [(2, init)];
    let Ok((globals, global_room, global_rows)) = Tier::global(alloc, &values, 2) else {
        return None;
    };
    let Ok((locals, local_room, local_rows)) = Tier::local(alloc, &[2], 2) else {
        globals.close(global_room, global_rows);
        return None;
    };
    let (local_home, first_local, second_local) = two_makers(local_rows);
    let (global_home, first_global, second_global) = two_makers(global_rows);
    Some(Pair {
        locals,
        globals,
        local_room,
        global_room,
        local_home,
        global_home,
        first: StatePasses {
            local: first_local,
            global: first_global,
        },
        second: StatePasses {
            local: second_local,
            global: second_global,
        },
    })
}

fn one_two(alloc: Global) -> Result<Bytes, AllocError>
    ensures { IfOk result (λ b. b ≡ 1 ∷ 2 ∷ []) }
{
    let mut init = Vec::with_capacity(alloc, 2)?;
    init.push_reserved(1);
    init.push_reserved(2);
    Ok(Items::of(init))
}

/// A tier of one key ends, with the passes of both makers.
pub(crate) fn close(
    tier: Tier,
    room: TierRoom,
    mut home: Vec<Passes>,
    first: Passes,
    second: Passes,
) -> (Region, Seen<Region>)
    requires tier { ((start : ARegion) × IsOneKey (cells_of tier) start) × (numbers_in tier ≡ 2) }
    requires room { IsRoomOf room tier }
    requires home { (home.items ≡ []) × (2 ≤ vec_capacity home) }
    requires first { Keeps (cells_of tier) (slots_of first) 0 }
    requires second { Keeps (cells_of tier) (slots_of second) 1 }
    ensures { Closes (cells_of tier) (slots_of first) (slots_of second) (whole_list result.1) result.0 }
{
    home.push_reserved(first);
    home.push_reserved(second);
    let mut ends = tier.close(room, home);
    let Some(end) = ends.pop() else {
        unreachable!()
    };
    end
}
