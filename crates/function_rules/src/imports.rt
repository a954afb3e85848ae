//! Imports that are host calls.

ghost use Rattle.std.specs.Prelude.{◌≡◌, ◌↔◌, IsTrue, MatchOption};
ghost use Rattle.faaslet_meaning.specs.HostCalls.{host_module};
ghost use Rattle.faaslet_meaning.specs.Runnable.{IsHostCall, HostImports, FirstBadImport};

use crate::host_calls::is_typed_call;
use faaslet_meaning::{Import, ImportKind, Module};

/// The module that host calls are imported from.
const HOST_MODULE: &str = "faasm";

fn is_from_host(import: &Import) -> bool
    ensures { IsTrue result ↔ (import.now.«module» ≡ host_module) }
{
    import.module.as_slice() == HOST_MODULE.as_bytes()
}

fn is_host_call(module: &Module, import: &Import) -> bool
    ensures { IsTrue result ↔ IsHostCall «module».now import.now }
{
    match import.kind {
        ImportKind::Function(t) => is_from_host(import)
            && is_typed_call(module.types.as_slice(), import.name.as_slice(), t),
        _ => false,
    }
}

/// The first import that is no host call.
pub fn first_bad_import(module: &Module) -> Option<usize>
    ensures { MatchOption result (HostImports «module».now) (λ k. FirstBadImport «module».now k) }
{
    for (k, import) in module.imports.as_slice().iter().enumerate() {
        if !is_host_call(module, import) {
            return Some(k);
        }
    }
    None
}
