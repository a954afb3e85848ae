//! The limits of a module.

ghost use Rattle.std.specs.Prelude.{◌≡◌, ◌+◌, ◌++◌, false, nat_lt, length, sum_by, option_map, filter_map};
ghost use Rattle.std.specs.Option.{option_map_or};
ghost use Rattle.std.specs.List.{list_any};
ghost use Rattle.faaslet_meaning.specs.IndexSpaces.{type_at, imported_table};
ghost use Rattle.faaslet_meaning.specs.Decoding as decoding;
ghost use Rattle.wasm_decode.specs.Decoded.{limit_of};

use crate::fault::Which;
use faaslet_meaning::{FuncType, Import, ImportKind, Limits, LocalGroup, Module};

const PARAM_LIMIT: usize = 1024;

const LOCAL_LIMIT: u64 = 50_000;

const TABLE_LIMIT: u32 = 65_536;

const GLOBAL_LIMIT: usize = 65_536;

/// Whether a function type has more parameters than it may.
fn has_many_params(kind: &FuncType) -> bool
    ensures { result ≡ nat_lt decoding.param_limit (length kind.now.params) }
{
    kind.params.as_slice().len() > PARAM_LIMIT
}

/// Whether so many parameters and these groups are more locals than a function may have.
fn are_many(params: usize, groups: &[LocalGroup]) -> bool
    ensures { result ≡ nat_lt decoding.local_limit (params + sum_by (λ g. g.count) groups.now) }
{
    let mut sum = params as u64;
    for group in groups {
        if sum > LOCAL_LIMIT {
            return true;
        }
        sum += u64::from(group.count);
    }
    sum > LOCAL_LIMIT
}

/// How many parameters the type with this index has, 0 where there is no such type.
fn param_count(module: &Module, index: u32) -> usize
    ensures { result ≡ length (type_at «module».now index).params }
{
    match module.types.as_slice().get(index as usize) {
        Some(kind) => kind.params.as_slice().len(),
        None => 0,
    }
}

/// Whether a function has more locals than it may. Types and bodies stand in the same order.
#[tactic(auto, using(crate::proofs::Passed::no_bodies))]
fn some_locals(module: &Module) -> bool
    ensures { result ≡ decoding.some_locals «module».now «module».now.functions «module».now.bodies }
{
    let mut functions = module.functions.as_slice();
    let mut bodies = module.bodies.as_slice();
    while let Some((index, later)) = functions.split_first() {
        let Some((body, others)) = bodies.split_first() else {
            return false;
        };
        if are_many(param_count(module, *index), body.locals.as_slice()) {
            return true;
        }
        functions = later;
        bodies = others;
    }
    false
}

/// Whether a table has more elements at first than it may.
fn is_large(limits: &Limits) -> bool
    ensures { result ≡ decoding.large limits.now }
{
    limits.min > TABLE_LIMIT
}

/// Whether one of the tables has.
fn are_large(tables: &[Limits]) -> bool
    ensures { result ≡ list_any decoding.large tables.now }
{
    tables.iter().any(is_large)
}

/// Whether it is a table, and a large one.
fn is_large_import(import: &Import) -> bool
    ensures { result ≡ option_map_or decoding.large (imported_table import.now.kind) false }
{
    match &import.kind {
        ImportKind::Table(limits) => is_large(limits),
        _ => false,
    }
}

/// Whether one of the imports is a large table.
fn is_one_large(imports: &[Import]) -> bool
    ensures { result ≡ list_any (λ i. option_map_or decoding.large (imported_table i.kind) false) imports.now }
{
    imports.iter().any(is_large_import)
}

/// Whether a table, imported or not, has more elements at first than it may.
#[tactic(auto, using(crate::proofs::Passed::any_table))]
fn some_table(imports: &[Import], tables: &[Limits]) -> bool
    ensures { result ≡ list_any decoding.large (filter_map (λ i. imported_table i.kind) imports.now ++ tables.now) }
{
    is_one_large(imports) || are_large(tables)
}

/// Whether one of the types has more parameters than it may.
fn some_params(types: &[FuncType]) -> bool
    ensures { result ≡ list_any (λ t. nat_lt decoding.param_limit (length t.params)) types.now }
{
    types.iter().any(has_many_params)
}

/// The first limit that the module passes.
pub fn first_passed(module: &Module) -> Option<Which>
    ensures { decoding.first_passed «module».now ≡ option_map limit_of result }
{
    if some_params(module.types.as_slice()) {
        Some(Which::Params)
    } else if some_locals(module) {
        Some(Which::Locals)
    } else if some_table(module.imports.as_slice(), module.tables.as_slice()) {
        Some(Which::Table)
    } else if module.globals.as_slice().len() > GLOBAL_LIMIT {
        Some(Which::Globals)
    } else {
        None
    }
}
