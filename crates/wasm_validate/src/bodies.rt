//! The bodies of a module, in order.

ghost use Rattle.std.specs.Prelude.{◌≡◌, ◌<◌, ◌≤◌, ◌^◌, length, nat_lt, IfOk};
ghost use Rattle.std.specs.Result.{IsErrOf};
ghost use Rattle.faaslet_meaning.specs.IndexSpaces.{local_count};
ghost use Rattle.faaslet_meaning.specs.Valid.{RulesHold};
ghost use Rattle.wasm_validate.specs.Spaces.{AreSpaces};
ghost use Rattle.faaslet_meaning.specs.Tree.{types_of};
ghost use Rattle.wasm_validate.specs.Causes.{context_with, TypedAt, Checks};
ghost use Rattle.wasm_validate.specs.declared.fault.Fault.TheVariants as faults;

use crate::body::validate_body;
use crate::fault::Fault;
use crate::invalid::Invalid;
use crate::locals::Locals;
use crate::scope::Scope;
use crate::spaces::Spaces;
use faaslet_meaning::{Body, FuncType, Limits, Module, ValType};
use std::alloc::Global;

/// The result of functions of this type.
fn result_of(t: &FuncType) -> Option<ValType>
    requires { length t.now.results ≤ 1 }
    ensures { types_of result ≡ t.now.results }
{
    t.results.as_slice().first().copied()
}

fn is_any(limits: &[Limits]) -> bool
    ensures { result ≡ nat_lt 0 (length limits.now) }
{
    !limits.is_empty()
}

/// What a body of this type may name.
fn scope_of<'m>(
    module: &'m Module,
    spaces: &'m Spaces,
    t: &'m FuncType,
    locals: &'m Locals<'m>,
) -> Scope<'m>
    requires spaces_are { AreSpaces «module».now spaces.now }
    requires rules { RulesHold «module».now }
    requires one_result { length t.now.results ≤ 1 }
    ensures { result ≡ context_with «module».now t.now locals.now }
{
    Scope {
        types: module.types.as_slice(),
        functions: spaces.functions.as_slice(),
        globals: spaces.globals.as_slice(),
        has_table: is_any(spaces.tables.as_slice()),
        has_memory: is_any(spaces.memories.as_slice()),
        locals,
        leaves: result_of(t),
    }
}

/// Whether the body is typed as that of function k.
fn check_body(
    alloc: Global,
    module: &Module,
    spaces: &Spaces,
    k: usize,
    body: &Body,
) -> Result<(), Fault>
    requires spaces_are { AreSpaces «module».now spaces.now }
    requires rules { RulesHold «module».now }
    requires is_function { k < length spaces.now.functions.items }
    requires few_locals { local_count body.now < 2 ^ 32 }
    ensures typed { IfOk result (λ _. TypedAt «module».now k body.now) }
    ensures untyped { IsErrOf result faults.Invalid → TypedAt «module».now k body.now → ⊥ }
{
    let types = module.types.as_slice();
    let functions = spaces.functions.as_slice();
    let t = &types[functions[k] as usize];
    let locals = Locals::of(alloc, t.params.as_slice(), body.locals.as_slice())?;
    let scope = scope_of(module, spaces, t, &locals);
    validate_body(alloc, &scope, body.code.as_slice())
}

/// Whether all bodies are typed, or else the first that is not.
#[tactic(auto, using(crate::proofs::Passing::few_imported))]
pub fn check_bodies(alloc: Global, module: &Module, spaces: &Spaces) -> Result<(), Invalid>
    requires spaces_are { AreSpaces «module».now spaces.now }
    requires rules { RulesHold «module».now }
    ensures { Checks result «module».now }
{
    for (i, body) in module.bodies.as_slice().iter().enumerate() {
        let k = spaces.imported_functions + i;
        match check_body(alloc, module, spaces, k, body) {
            Ok(()) => {}
            Err(Fault::Invalid) => return Err(Invalid::Function(k as u32)),
            Err(Fault::Want) => return Err(Invalid::Want),
        }
    }
    Ok(())
}
