//! One maker by itself, call by call.
use faaslet_meaning::{RegionOp, Reply};
use region_tier::Tier;
use shared_region::Region;
use std::alloc::Global;
use std::sync::Wait;

/// A tier with one replica and one maker, which appends. `None` is for want of
/// memory.
pub fn append_alone<R: Wait>(rt: &R, alloc: Global, bytes: &[u8]) -> Option<(Reply, Region)> {
    let Ok((tier, room, mut passes)) = Tier::local(alloc, &[4], 1) else {
        return None;
    };
    let mut scratch = [0; 4];
    let own = &mut passes[0];
    let reply = tier.access(rt, own, 0, &RegionOp::Append { bytes }, &mut scratch);
    let mut ends = tier.close(room, passes);
    let Some((region, _list)) = ends.pop() else {
        unreachable!()
    };
    Some((reply, region))
}

/// A tier with one replica and one maker, which takes a turn, looks, and gives it back. Whether the replica is present in
/// the turn, and the replica at the end. `None` is for want of memory.
pub fn look_alone<R: Wait>(rt: &R, alloc: Global) -> Option<(bool, Region)> {
    let Ok((tier, room, mut passes)) = Tier::local(alloc, &[4], 1) else {
        return None;
    };
    let own = &mut passes[0];
    let held = tier.take(rt, own, 0);
    let present = held.value().present();
    tier.give_back(own, 0, held);
    let mut ends = tier.close(room, passes);
    let Some((region, _list)) = ends.pop() else {
        unreachable!()
    };
    Some((present, region))
}
