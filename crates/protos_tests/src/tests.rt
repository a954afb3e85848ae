ghost use Rattle.std.specs.Prelude.{◌≡◌, None, IfSome};
ghost use Rattle.faaslet_meaning.specs.Decoding.{first_passed};

use faaslet_meaning::{Broken, Trap};
use grant_registry::Registry;
use protos::{Protos, has_modules};
use std::alloc::Global;
use std::test::Fail;
use wasm_decode::decode;
use wasm_validate::{ValidModule, validate};

/// A module whose function `main` gives 42.
const ANSWER: &[u8] =
    b"\x00asm\x01\x00\x00\x00\x01\x05\x01\x60\x00\x01\x7f\x03\x02\x01\x00\x07\x08\x01\x04main\x00\x00\x0a\x06\x01\x04\x00\x41\x2a\x0b";

/// With a function `init` too, which traps.
const BROKEN: &[u8] =
    b"\x00asm\x01\x00\x00\x00\x01\x08\x02\x60\x00\x01\x7f\x60\x00\x00\x03\x03\x02\x00\x01\x07\x0f\x02\x04main\x00\x00\x04init\x00\x01\x0a\x0a\x02\x04\x00\x41\x2a\x0b\x03\x00\x00\x0b";

fn valid(alloc: Global, bytes: &[u8]) -> Option<ValidModule>
    ensures { IfSome result (λ m. first_passed m ≡ None) }
{
    let Ok(module) = decode(alloc, bytes) else {
        return None;
    };
    match validate(alloc, module) {
        Ok(module) => Some(module),
        Err(_) => None,
    }
}

/// Adds a function with the module in these bytes.
fn add(alloc: Global, registry: &mut Registry, name: &str, bytes: &[u8]) -> bool {
    let Ok(f) = registry.add_function(name, 1, 10, 0) else {
        return false;
    };
    let Some(module) = valid(alloc, bytes) else {
        return false;
    };
    f < registry.functions() && registry.set_module(f, module).is_ok()
}

fn kind_of(protos: &Protos<'_>, f: u32) -> Option<Broken> {
    if protos.registry().functions() <= f {
        return None;
    }
    match protos.proto(f) {
        Ok(_) => None,
        Err(kind) => Some(kind),
    }
}

/// Whether the first function has a snapshot and the second is broken by its `init`.
fn keeps_both(alloc: Global, registry: &Registry) -> bool {
    if registry.check_budget().is_err() || !has_modules(registry) {
        return false;
    }
    match Protos::build(alloc, registry) {
        Ok(protos) => {
            kind_of(&protos, 0).is_none()
                && kind_of(&protos, 1) == Some(Broken::Trap(Trap::Unreachable))
        }
        Err(_) => false,
    }
}

fn builds(alloc: Global) -> bool {
    let Ok(mut registry) = Registry::new(alloc, 1, 1) else {
        return false;
    };
    add(alloc, &mut registry, "f", ANSWER)
        && add(alloc, &mut registry, "g", BROKEN)
        && keeps_both(alloc, &registry)
}

#[test]
fn snapshots_of_a_registry(rt: HostRuntime) -> Result<(), Fail> {
    assert!(rt; builds(rt.alloc()));
    Ok(())
}

/// Whether a function has its module only once it is set.
fn wants_modules(alloc: Global) -> bool {
    let Ok(mut registry) = Registry::new(alloc, 1, 1) else {
        return false;
    };
    let none = has_modules(&registry);
    none && registry.add_function("f", 1, 1, 0) == Ok(0) && !has_modules(&registry)
}

#[test]
fn a_function_without_module(rt: HostRuntime) -> Result<(), Fail> {
    assert!(rt; wants_modules(rt.alloc()));
    Ok(())
}
