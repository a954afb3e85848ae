//! The tier of a host, of replicas, and the tier of all hosts, of global values.
ghost use Rattle.std.specs.Prelude.{◌≡◌, ◌<◌, ◌≤◌, IfOk, IfErr, IsErr, length};
ghost use Rattle.turn_cell.specs.History.{Each};
ghost use Rattle.region_tier.specs.Opened.{IsFree};
ghost use Rattle.region_tier.specs.Tiers.{Adds, AreFreshRows, AreGlobals, AreReplicas, HaveRoom, IsRoomOf, cells_of, numbers_in, room_of};

use crate::cells::{Passes, Tier, TierRoom};
use faaslet_meaning::Bytes;
use shared_region::Region;
use std::alloc::{AllocError, Global};

impl Tier {
    /// The replicas of one host, one for each key, with its size, absent and zero. The passes at place i have the number
    /// i for every key.
    pub fn local(
        alloc: Global,
        sizes: &[u32],
        numbers: u32,
    ) -> Result<(Tier, TierRoom, Vec<Passes>), AllocError>
        requires { 0 < numbers }
        ensures cells { IfOk result (λ r. (length (cells_of r.0) ≡ length sizes.now) × AreReplicas sizes.now numbers (cells_of r.0)) }
        ensures passes { IfOk result (λ r. AreFreshRows (cells_of r.0) numbers r.2.items) }
        ensures makers { IfOk result (λ r. numbers_in r.0 ≡ numbers) }
        ensures closing { IfOk result (λ r. IsRoomOf r.1 r.0) }
    {
        let (mut tier, mut room, mut passes) = Tier::empty(alloc, sizes.len(), numbers)?;
        for size in sizes {
            let region = Region::local(alloc, *size, numbers);
            let grown = grow(alloc, tier, room, passes, region)?;
            tier = grown.0;
            room = grown.1;
            passes = grown.2;
        }
        Ok((tier, room, passes))
    }

    /// The global values, one for each key, with its size and initial bytes. The passes at place i have the number i
    /// for every key.
    pub fn global(
        alloc: Global,
        values: &[(u32, Bytes)],
        numbers: u32,
    ) -> Result<(Tier, TierRoom, Vec<Passes>), AllocError>
        requires some { 0 < numbers }
        requires fit { Each values.now (λ k v. length v.1 ≤ v.0) }
        ensures cells { IfOk result (λ r. (length (cells_of r.0) ≡ length values.now) × AreGlobals values.now numbers (cells_of r.0)) }
        ensures passes { IfOk result (λ r. AreFreshRows (cells_of r.0) numbers r.2.items) }
        ensures makers { IfOk result (λ r. numbers_in r.0 ≡ numbers) }
        ensures closing { IfOk result (λ r. IsRoomOf r.1 r.0) }
    {
        let (mut tier, mut room, mut passes) = Tier::empty(alloc, values.len(), numbers)?;
        for value in values {
            let region = Region::global(alloc, value.0, value.1.as_slice(), numbers);
            let grown = grow(alloc, tier, room, passes, region)?;
            tier = grown.0;
            room = grown.1;
            passes = grown.2;
        }
        Ok((tier, room, passes))
    }
}

// One key more, or the end of the tier where there is no memory.
fn grow(
    alloc: Global,
    tier: Tier,
    mut closing: TierRoom,
    mut passes: Vec<Passes>,
    made: Result<Region, AllocError>,
) -> Result<(Tier, TierRoom, Vec<Passes>), AllocError>
    requires some { 0 < numbers_in tier }
    requires free { IfOk made (λ r. IsFree r (numbers_in tier)) }
    requires room { (length (cells_of tier) < room_of tier) × HaveRoom (room_of tier) passes.items }
    requires passes { AreFreshRows (cells_of tier) (numbers_in tier) passes.items }
    requires closing { IsRoomOf closing tier }
    ensures added { IfOk result (λ r. IfOk made (λ region. Adds (cells_of tier) (cells_of r.0) region (numbers_in tier))) }
    ensures same { IfOk result (λ r. (numbers_in r.0 ≡ numbers_in tier) × (room_of r.0 ≡ room_of tier) × HaveRoom (room_of tier) r.2.items) }
    ensures passes { IfOk result (λ r. AreFreshRows (cells_of r.0) (numbers_in tier) r.2.items) }
    ensures closing { IfOk result (λ r. IsRoomOf r.1 r.0) }
    ensures refused { IfErr made (λ e. IsErr result) }
{
    let Ok(region) = made else {
        tier.close(closing, passes);
        return Err(AllocError);
    };
    match tier.add(alloc, &mut closing, &mut passes, region) {
        Ok(grown) => Ok((grown, closing, passes)),
        Err(same) => {
            same.close(closing, passes);
            Err(AllocError)
        }
    }
}
