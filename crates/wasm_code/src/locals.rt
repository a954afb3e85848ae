//! The locals of a body. W3C WebAssembly Core Specification 1.0, section 5.5.13.

ghost use Rattle.std.specs.Prelude.{◌<◌, ◌^◌, IsTrue, ◌↔◌, sum_by};
ghost use Rattle.wasm_code.specs.Reading.{Gives, GivesOrWants};
ghost use Rattle.faaslet_meaning.specs.Reading as reading;
ghost use Rattle.faaslet_meaning.specs.ModuleReading as modules;

use crate::fault::BodyFault;
use crate::instr::val_type_at;
use crate::number::{Malformed, u32_at};
use faaslet_meaning::{Items, LocalGroup, LocalGroups};
use std::alloc::Global;

/// Whether the groups have fewer than 2 ^ 32 locals in all.
pub fn are_few(groups: &[LocalGroup]) -> bool
    ensures { IsTrue result ↔ (sum_by (λ g. g.count) groups.now < 2 ^ 32) }
{
    let mut sum: u64 = 0;
    for group in groups {
        sum += u64::from(group.count);
        if sum > 0xFFFF_FFFF {
            return false;
        }
    }
    true
}

/// A count, and the type of so many locals.
#[tactic(auto, unfolding(faaslet_meaning::specs::ModuleReading::local_group_at))]
fn local_group_at(bytes: &[u8]) -> Result<(LocalGroup, &[u8]), Malformed>
    ensures { Gives (λ x. (x.0, x.1.now)) result (modules.local_group_at bytes.now) }
{
    let (count, rest) = u32_at(bytes)?;
    let (kind, rest) = val_type_at(rest)?;
    Ok((LocalGroup { count, kind }, rest))
}

/// So many groups.
#[tactic(auto, using(crate::proofs::Loop::going))]
fn local_groups(alloc: Global, count: u32, bytes: &[u8]) -> Result<(LocalGroups, &[u8]), BodyFault>
    ensures { GivesOrWants (λ x. (x.0, x.1.now)) result (reading.many_at modules.local_group_at count bytes.now) }
{
    let mut groups = Vec::new(alloc);
    let mut rest = bytes;
    for _ in 0..count {
        let (group, after) = local_group_at(rest)?;
        groups.push(group)?;
        rest = after;
    }
    Ok((Items::of(groups), rest))
}

/// A count, and that many groups.
#[tactic(auto, unfolding(faaslet_meaning::specs::Reading::vec_at))]
pub fn local_groups_at(alloc: Global, bytes: &[u8]) -> Result<(LocalGroups, &[u8]), BodyFault>
    ensures { GivesOrWants (λ x. (x.0, x.1.now)) result (reading.vec_at modules.local_group_at bytes.now) }
{
    let (count, rest) = u32_at(bytes)?;
    local_groups(alloc, count, rest)
}
