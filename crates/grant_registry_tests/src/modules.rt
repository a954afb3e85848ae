ghost use Rattle.std.specs.Prelude.{◌≡◌, None, IfSome};
ghost use Rattle.faaslet_meaning.specs.Decoding.{first_passed};

use grant_registry::Registry;
use session_meaning::RegFault;
use std::alloc::Global;
use std::test::Fail;
use wasm_decode::decode;
use wasm_validate::{ValidModule, validate};

/// A module whose function `main` gives 42.
const ANSWER: &[u8] =
    b"\x00asm\x01\x00\x00\x00\x01\x05\x01\x60\x00\x01\x7f\x03\x02\x01\x00\x07\x08\x01\x04main\x00\x00\x0a\x06\x01\x04\x00\x41\x2a\x0b";

/// The same without exports.
const NO_EXPORT: &[u8] =
    b"\x00asm\x01\x00\x00\x00\x01\x05\x01\x60\x00\x01\x7f\x03\x02\x01\x00\x0a\x06\x01\x04\x00\x41\x2a\x0b";

/// With an import from `env`.
const FROM_ENV: &[u8] =
    b"\x00asm\x01\x00\x00\x00\x01\x05\x01\x60\x00\x01\x7f\x02\x09\x01\x03env\x01f\x00\x00\x03\x02\x01\x00\x07\x08\x01\x04main\x00\x01\x0a\x06\x01\x04\x00\x41\x2a\x0b";

/// With the same function as `init`, which is to give nothing.
const WRONG_INIT: &[u8] =
    b"\x00asm\x01\x00\x00\x00\x01\x05\x01\x60\x00\x01\x7f\x03\x02\x01\x00\x07\x0f\x02\x04main\x00\x00\x04init\x00\x00\x0a\x06\x01\x04\x00\x41\x2a\x0b";

fn valid(alloc: Global, bytes: &[u8]) -> Option<ValidModule>
    ensures { IfSome result (λ m. first_passed m ≡ None) }
{
    let Ok(module) = decode(alloc, bytes) else {
        return None;
    };
    match validate(alloc, module) {
        Ok(module) => Some(module),
        Err(_) => None,
    }
}

/// What is wrong with the module as that of the first function, and whether it has one afterwards.
fn answer(registry: &mut Registry, module: ValidModule) -> Option<(Option<RegFault>, bool)>
    requires { first_passed «module» ≡ None }
{
    if registry.add_function("f", 64, 1, 0) != Ok(0) || registry.functions() < 1 {
        return None;
    }
    let fault = match registry.set_module(0, module) {
        Ok(()) => None,
        Err((fault, _)) => Some(fault),
    };
    if registry.functions() < 1 {
        return None;
    }
    Some((fault, registry.module(0).is_some()))
}

fn answer_to(alloc: Global, bytes: &[u8]) -> Option<(Option<RegFault>, bool)> {
    let module = valid(alloc, bytes)?;
    match Registry::new(alloc, 1, 1) {
        Ok(mut registry) => answer(&mut registry, module),
        Err(_) => None,
    }
}

#[test]
fn modules_of_functions(rt: HostRuntime) -> Result<(), Fail> {
    let alloc = rt.alloc();
    assert!(rt; answer_to(alloc, ANSWER) == Some((None, true)));
    assert!(rt; answer_to(alloc, NO_EXPORT) == Some((Some(RegFault::NoMain), false)));
    assert!(rt; answer_to(alloc, FROM_ENV) == Some((Some(RegFault::BadImport(0)), false)));
    assert!(rt; answer_to(alloc, WRONG_INIT) == Some((Some(RegFault::BadInit), false)));
    Ok(())
}
