//! What is read of the registry before anything is opened.
ghost use Rattle.std.specs.Prelude.{◌≡◌, ◌<◌, IfOk, IfSome, length, slice_get};
ghost use Rattle.session_meaning.specs.WellFormed.{KeepsLimits};
ghost use Rattle.session_objects.specs.Shape.{callable_in, callables_in, sizes, values};

use faaslet_meaning::{Bytes, Callable, Items};
use grant_registry::Registry;
use std::alloc::{AllocError, Global};

// The size of each key.
pub(crate) fn key_sizes(alloc: Global, registry: &Registry) -> Result<Vec<u32>, AllocError>
    ensures { IfOk result (λ v. v.items ≡ sizes registry.now) }
{
    let mut all = Vec::new(alloc);
    for k in 0..registry.keys() {
        all.push(registry.key_plan(k).size)?;
    }
    Ok(all)
}

// The size and the initial bytes of a key.
fn key_value(alloc: Global, registry: &Registry, k: u32) -> Result<(u32, Bytes), AllocError>
    requires { k < length registry.now.keys }
    ensures { IfOk result (λ v. IfSome (slice_get registry.now.keys k) (λ y. v ≡ (y.size, y.init))) }
{
    let plan = registry.key_plan(k);
    let mut init = Vec::new(alloc);
    init.extend_from_slice(plan.init)?;
    Ok((plan.size, Items::of(init)))
}

pub(crate) fn key_values(
    alloc: Global,
    registry: &Registry,
) -> Result<Vec<(u32, Bytes)>, AllocError>
    ensures { IfOk result (λ v. v.items ≡ values registry.now) }
{
    let mut all = Vec::new(alloc);
    for k in 0..registry.keys() {
        all.push(key_value(alloc, registry, k)?)?;
    }
    Ok(all)
}

// What the call table knows of a function.
fn callable(registry: &Registry, f: u32) -> Callable
    requires limits { KeepsLimits registry.now }
    requires there { f < length registry.now.functions }
    ensures { IfSome (slice_get registry.now.functions f) (λ g. result ≡ callable_in g) }
{
    let plan = registry.function_plan(f);
    let grants = registry.grants_of(f).as_slice().len() as u32;
    Callable {
        fuel: plan.fuel,
        room: plan.room,
        channels: 2 * grants + 1,
    }
}

pub(crate) fn callables(alloc: Global, registry: &Registry) -> Result<Vec<Callable>, AllocError>
    requires { KeepsLimits registry.now }
    ensures { IfOk result (λ v. v.items ≡ callables_in registry.now) }
{
    let mut all = Vec::new(alloc);
    for f in 0..registry.functions() {
        all.push(callable(registry, f))?;
    }
    Ok(all)
}
