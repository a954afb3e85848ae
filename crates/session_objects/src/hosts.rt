//! The replicas of all hosts, and what is kept of each host until its tier closes.
ghost use Rattle.std.specs.Prelude.{◌≡◌, ◌+◌, ◌*◌, ◌<◌, ◌≤◌, ◌++◌, [], IfOk, length, reverse};
ghost use Rattle.std.specs.Vec.{vec_capacity};
ghost use mathlib.Core.Option.{some};
ghost use lib.ListN.{get_elem?};
ghost use Rattle.region_tier.specs.Tiers.{numbers_in};
ghost use Rattle.turn_cell.specs.History.{Each};
ghost use Rattle.session_objects.specs.Rests.{AreDealt, AreWhole, IsDealt, IsLocal, Keeps};

use crate::shift::shift;
use region_tier::{Passes, Tier, TierRoom};
use std::alloc::{AllocError, Global};

/// What the session keeps of a host: the memory with which its tier closes, and the passes of benches of other hosts,
/// those of the hosts before it and, the last first, those of the hosts behind it.
pub struct HostRest {
    pub(crate) room: TierRoom,
    pub(crate) front: Vec<Passes>,
    pub(crate) behind: Vec<Passes>,
}

fn open_host(alloc: Global, sizes: &[u32], numbers: u32) -> Result<(Tier, HostRest), AllocError>
    requires { 0 < numbers }
    ensures tier { IfOk result (λ r. IsLocal sizes.now numbers r.0) }
    ensures rest { IfOk result (λ r. Keeps r.0 numbers numbers r.1) }
{
    let behind = Vec::with_capacity(alloc, numbers as usize)?;
    let (tier, room, front) = Tier::local(alloc, sizes, numbers)?;
    let rest = HostRest {
        room,
        front,
        behind,
    };
    Ok((tier, rest))
}

fn no_hosts(alloc: Global, hosts: u32) -> Result<(Vec<Tier>, Vec<HostRest>), AllocError>
    ensures { IfOk result (λ r. (r.0.items ≡ []) × (r.1.items ≡ []) × (vec_capacity r.0 ≡ hosts) × (vec_capacity r.1 ≡ hosts)) }
{
    let tiers = Vec::with_capacity(alloc, hosts as usize)?;
    let Ok(rests) = Vec::with_capacity(alloc, hosts as usize) else {
        tiers.destroy_empty();
        return Err(AllocError);
    };
    Ok((tiers, rests))
}

// The tiers of all hosts, with all passes.
pub(crate) fn open_hosts(
    alloc: Global,
    sizes: &[u32],
    hosts: u32,
    numbers: u32,
) -> Result<(Vec<Tier>, Vec<HostRest>), AllocError>
    requires { 0 < numbers }
    ensures count { IfOk result (λ r. length r.0.items ≡ hosts) }
    ensures tiers { IfOk result (λ r. Each r.0.items (λ h tier. IsLocal sizes.now numbers tier)) }
    ensures rests { IfOk result (λ r. AreWhole r.0.items r.1.items) }
{
    let (mut tiers, mut rests) = no_hosts(alloc, hosts)?;
    for _ in 0..hosts {
        let Ok((tier, rest)) = open_host(alloc, sizes, numbers) else {
            end_hosts(tiers, rests);
            return Err(AllocError);
        };
        tiers.push_reserved(tier);
        rests.push_reserved(rest);
    }
    Ok((tiers, rests))
}

// Where there is no memory for what else the session opens.
pub(crate) fn end_hosts(mut tiers: Vec<Tier>, mut rests: Vec<HostRest>)
    requires { AreWhole tiers.items rests.items }
{
    while let Some(tier) = tiers.pop() {
        let Some(rest) = rests.pop() else {
            unreachable!()
        };
        let HostRest {
            room,
            front,
            behind: _,
        } = rest;
        tier.close(room, front);
    }
    tiers.destroy_empty();
    rests.destroy_empty();
}

// The passes of one host's benches, the last first, and those of the hosts behind it are set aside.
fn deal_host(tier: &Tier, rest: &mut HostRest, locals: &mut Vec<Passes>, before: usize, from: usize)
    requires order { (before ≤ from) × (from ≤ numbers_in tier.now) }
    requires whole { Keeps tier.now (numbers_in tier.now) (numbers_in tier.now) rest.old }
    requires room { length locals.old.items + from ≤ vec_capacity locals.old + before }
    ensures rest { Keeps tier.now before from rest.new }
    ensures locals { (own : _) × (before + length own ≡ from) × (locals.new.items ≡ locals.old.items ++ reverse own)
        × Each own (λ j row. FreshFor tier.now (before + j) row) }
    ensures same { vec_capacity locals.new ≡ vec_capacity locals.old }
{
    shift(&mut rest.front, &mut rest.behind, from);
    shift(&mut rest.front, locals, before);
}

ghost use Rattle.session_objects.specs.Rests.{FreshFor};

// The passes of all benches to the replicas of their hosts, in order.
pub(crate) fn deal_hosts(
    tiers: &[Tier],
    rests: &mut Vec<HostRest>,
    mut locals: Vec<Passes>,
    many: usize,
    numbers: u32,
) -> Vec<Passes>
    requires whole { AreWhole tiers.now rests.old.items }
    requires numbered { Each tiers.now (λ h tier. numbers_in tier ≡ numbers) }
    requires many { length tiers.now * many ≡ numbers }
    requires room { (locals.items ≡ []) × (numbers ≤ vec_capacity locals) }
    ensures rests { AreDealt tiers.now many 0 rests.new.items }
    ensures count { length result.items ≡ numbers }
    ensures dealt { Each result.items (IsDealt tiers.now many) }
    ensures same { vec_capacity result ≡ vec_capacity locals }
{
    let mut host = tiers.len();
    while host > 0 {
        host -= 1;
        let before = host * many;
        deal_host(
            &tiers[host],
            &mut rests[host],
            &mut locals,
            before,
            before + many,
        );
    }
    locals.reverse();
    locals
}
