//! The locals of a body, found without being written out.

ghost use Rattle.std.specs.Prelude.{◌≡◌, ◌++◌, ◌<◌, ◌^◌, All, IfOk, map, option_map, slice_get, sum_by};
ghost use Rattle.faaslet_meaning.specs.IndexSpaces.{local_count};
ghost use Rattle.wasm_validate.specs.Groups.{in_groups};

use faaslet_meaning::{Body, LocalGroup, ValType};
use std::alloc::{AllocError, Global};
use std::marker::Model;

/// The parameters of a function, and behind them the groups of locals of its body, with the number
/// of the first local behind each group, counted from the first behind the parameters.
#[derive(Debug, Drop)]
pub struct Locals<'m> {
    params: &'m [ValType],
    groups: &'m [LocalGroup],
    ends: Vec<u32>,
}

impl<'m> Model for Locals<'m> {
    ghost use Rattle.std.specs.Prelude.{List};
    ghost use Rattle.faaslet_meaning.specs.declared.instr.ValType.{ValType};

    ghost Value = { List ValType };

    ghost use Rattle.std.specs.Prelude.{◌≡◌, ◌++◌};
    ghost use Rattle.wasm_validate.specs.Groups.{in_groups, ends_from};

    ghost view = { λ l. l.params.now ++ in_groups l.groups.now };

    ghost invariant = { λ l. l.ends.items ≡ ends_from 0 l.groups.now };
}

fn kind_of(groups: &[LocalGroup], place: usize) -> Option<ValType>
    ensures { result ≡ option_map (λ g. g.kind) (slice_get groups.now place) }
{
    match groups.get(place) {
        Some(group) => Some(group.kind),
        None => None,
    }
}

impl<'m> Locals<'m> {
    pub fn of(
        alloc: Global,
        params: &'m [ValType],
        groups: &'m [LocalGroup],
    ) -> Result<Locals<'m>, AllocError>
        requires { sum_by (λ g. g.count) groups.now < 2 ^ 32 }
        ensures { IfOk result (λ locals. locals ≡ params.now ++ in_groups groups.now) }
    {
        let mut ends = Vec::new(alloc);
        let mut end = 0;
        'groups: for group in groups {
            end += group.count;
            ends.push(end)?;
        }
        Ok(Locals {
            params,
            groups,
            ends,
        })
    }

    /// The type of local k, by a binary search over the groups.
    pub fn get(&self, k: u32) -> Option<ValType>
        ensures { result ≡ slice_get self.now k }
    {
        let k = k as usize;
        let params = self.params.len();
        if k < params {
            return Some(self.params[k]);
        }
        let behind = k - params;
        let place = self
            .ends
            .as_slice()
            .partition_point(|end| *end as usize <= behind);
        kind_of(self.groups, place)
    }
}

/// How many locals these groups are.
fn count_in(groups: &[LocalGroup]) -> u64
    requires { sum_by (λ g. g.count) groups.now < 2 ^ 32 }
    ensures { result ≡ sum_by (λ g. g.count) groups.now }
{
    let mut count: u64 = 0;
    for group in groups {
        count += u64::from(group.count);
    }
    count
}

/// How many locals each body has beside its parameters.
pub fn counts_of(alloc: Global, bodies: &[Body]) -> Result<Vec<u64>, AllocError>
    requires { All (λ b. local_count b < 2 ^ 32) bodies.now }
    ensures { IfOk result (λ counts. counts.items ≡ map local_count bodies.now) }
{
    let mut counts = Vec::new(alloc);
    for body in bodies {
        counts.push(count_in(body.locals.as_slice()))?;
    }
    Ok(counts)
}
