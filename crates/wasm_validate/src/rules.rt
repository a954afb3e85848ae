//! The rules of a module, all but its constant expressions, its names and the typing of its bodies.
//! W3C WebAssembly Core Specification 1.0, sections 3.2, Types, and 3.4, Modules.

ghost use Rattle.std.specs.Prelude.{◌≡◌, ◌+◌, ◌^◌, ◌<◌, ◌≤◌, [], ◌↔◌, IsTrue, All, length, sum_by, slice_get, option_copied};
ghost use Rattle.faaslet_meaning.specs.IndexSpaces.{local_count};
ghost use Rattle.faaslet_meaning.specs.Valid.{Rising, WithinPages};
ghost use Rattle.faaslet_meaning.specs.declared.module.FuncType.{FuncType};
ghost use Rattle.wasm_validate.specs.Rules.{StartsIn};
ghost use Rattle.wasm_validate.specs.Scopes.{type_in};

use faaslet_meaning::{Body, FuncType, Limits, LocalGroup};

/// The most pages of a memory.
const PAGES: u32 = 65_536;

/// Function types have at most one result.
pub fn have_one_result(types: &[FuncType]) -> bool
    ensures { IsTrue result ↔ All (λ (t : FuncType). length t.results ≤ 1) types.now }
{
    types.iter().all(|t| t.results.as_slice().len() <= 1)
}

/// Each index is below the count.
pub fn are_below(indices: &[u32], count: usize) -> bool
    ensures { IsTrue result ↔ All (λ t. t < count) indices.now }
{
    indices.iter().all(|t| (*t as usize) < count)
}

/// Imports and bodies together can be numbered.
pub fn are_few(imports: usize, bodies: usize) -> bool
    ensures { IsTrue result ↔ (imports + bodies < 2 ^ 32) }
{
    imports <= u32::MAX as usize && bodies <= u32::MAX as usize - imports
}

/// The locals of a body can be numbered.
fn locals_are_few(groups: &[LocalGroup]) -> bool
    ensures { IsTrue result ↔ (sum_by (λ g. g.count) groups.now < 2 ^ 32) }
{
    let mut sum: u64 = 0;
    for group in groups {
        sum += u64::from(group.count);
        if sum > 0xFFFF_FFFF {
            return false;
        }
    }
    true
}

pub fn have_few_locals(bodies: &[Body]) -> bool
    ensures { IsTrue result ↔ All (λ b. local_count b < 2 ^ 32) bodies.now }
{
    bodies.iter().all(|b| locals_are_few(b.locals.as_slice()))
}

fn rises(limits: &Limits) -> bool
    ensures { IsTrue result ↔ Rising limits.now }
{
    match limits.max {
        Some(max) => limits.min <= max,
        None => true,
    }
}

pub fn rise(limits: &[Limits]) -> bool
    ensures { IsTrue result ↔ All Rising limits.now }
{
    limits.iter().all(|l| rises(l))
}

fn is_within_pages(limits: &Limits) -> bool
    ensures { IsTrue result ↔ WithinPages limits.now }
{
    match limits.max {
        Some(max) => limits.min <= PAGES && max <= PAGES,
        None => limits.min <= PAGES,
    }
}

pub fn are_within_pages(limits: &[Limits]) -> bool
    ensures { IsTrue result ↔ All WithinPages limits.now }
{
    limits.iter().all(|l| is_within_pages(l))
}

fn is_plain(t: &FuncType) -> bool
    ensures { IsTrue result ↔ (t.now ≡ record { params = []; results = [] }) }
{
    t.params.as_slice().is_empty() && t.results.as_slice().is_empty()
}

fn type_at(types: &[FuncType], t: u32) -> Option<&FuncType>
    ensures { option_copied result ≡ slice_get types.now t }
{
    types.get(t as usize)
}

/// A type that does not exist is refused by a rule of its own.
fn is_plain_at(types: &[FuncType], t: u32) -> bool
    ensures { IsTrue result ↔ (type_in types.now t ≡ record { params = []; results = [] }) }
{
    match type_at(types, t) {
        Some(t) => is_plain(t),
        None => true,
    }
}

/// The start function takes nothing and leaves nothing.
pub fn may_start(types: &[FuncType], functions: &[u32], start: Option<u32>) -> bool
    ensures { IsTrue result ↔ StartsIn types.now functions.now start }
{
    match start {
        Some(f) => match functions.get(f as usize) {
            Some(t) => is_plain_at(types, *t),
            None => false,
        },
        None => true,
    }
}
