//! The rules of a module, all but the typing of its bodies.

ghost use Rattle.std.specs.Prelude.{IfOk, IsTrue, IsFalse};
ghost use Rattle.std.specs.Result.{IsErrOf};
ghost use Rattle.faaslet_meaning.specs.Valid.{RulesHold};
ghost use Rattle.wasm_validate.specs.Rules.{TypesHold, LimitsHold, PartsHold};
ghost use Rattle.wasm_validate.specs.Spaces.{AreSpaces};
ghost use Rattle.wasm_validate.specs.declared.fault.Fault.TheVariants as faults;

use crate::constants::{elements_hold, globals_hold, segments_hold};
use crate::fault::Fault;
use crate::floats::has_float;
use crate::names::{differ, exist};
use crate::rules::{
    are_below, are_few, are_within_pages, have_few_locals, have_one_result, may_start, rise,
};
use crate::spaces::Spaces;
use faaslet_meaning::Module;
use std::alloc::Global;

/// `Invalid` where a rule does not hold.
fn must(holds: bool) -> Result<(), Fault>
    ensures kept { IfOk result (λ _. IsTrue holds) }
    ensures broken { IsErrOf result faults.Invalid → IsFalse holds }
{
    if holds { Ok(()) } else { Err(Fault::Invalid) }
}

fn check_types(module: &Module, spaces: &Spaces) -> Result<(), Fault>
    requires { AreSpaces «module».now spaces.now }
    ensures kept { IfOk result (λ _. TypesHold «module».now) }
    ensures broken { IsErrOf result faults.Invalid → TypesHold «module».now → ⊥ }
{
    let types = module.types.as_slice();
    let bodies = module.bodies.as_slice();
    must(have_one_result(types))?;
    must(are_below(spaces.functions.as_slice(), types.len()))?;
    must(bodies.len() == module.functions.as_slice().len())?;
    must(are_few(module.imports.as_slice().len(), bodies.len()))?;
    must(have_few_locals(bodies))?;
    must(!has_float(module))?;
    Ok(())
}

fn check_limits(module: &Module, spaces: &Spaces) -> Result<(), Fault>
    requires { AreSpaces «module».now spaces.now }
    ensures kept { IfOk result (λ _. LimitsHold «module».now) }
    ensures broken { IsErrOf result faults.Invalid → LimitsHold «module».now → ⊥ }
{
    let tables = spaces.tables.as_slice();
    let memories = spaces.memories.as_slice();
    must(tables.len() <= 1)?;
    must(memories.len() <= 1)?;
    must(rise(tables))?;
    must(rise(memories))?;
    must(are_within_pages(memories))?;
    Ok(())
}

fn check_parts(alloc: Global, module: &Module, spaces: &Spaces) -> Result<(), Fault>
    requires { AreSpaces «module».now spaces.now }
    ensures kept { IfOk result (λ _. PartsHold «module».now) }
    ensures broken { IsErrOf result faults.Invalid → PartsHold «module».now → ⊥ }
{
    let types = module.types.as_slice();
    let functions = spaces.functions.as_slice();
    let exports = module.exports.as_slice();
    must(globals_hold(module, spaces))?;
    must(elements_hold(module, spaces))?;
    must(segments_hold(module, spaces))?;
    must(may_start(types, functions, module.start))?;
    must(exist(spaces, exports))?;
    must(differ(alloc, exports)?)?;
    Ok(())
}

/// All rules but the typing of bodies.
pub fn check_rules(alloc: Global, module: &Module, spaces: &Spaces) -> Result<(), Fault>
    requires { AreSpaces «module».now spaces.now }
    ensures kept { IfOk result (λ _. RulesHold «module».now) }
    ensures broken { IsErrOf result faults.Invalid → RulesHold «module».now → ⊥ }
{
    check_types(module, spaces)?;
    check_limits(module, spaces)?;
    check_parts(alloc, module, spaces)?;
    Ok(())
}
