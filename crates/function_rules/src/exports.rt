//! Exported functions.

ghost use Rattle.std.specs.Prelude.{◌≡◌, ◌↔◌, IsTrue, IfNone, IfSome, slice_get};
ghost use Rattle.faaslet_meaning.specs.declared.module.FuncType.{FuncType};
ghost use Rattle.faaslet_meaning.specs.IndexSpaces.{type_at};
ghost use Rattle.faaslet_meaning.specs.Program.{export_of, is_function};
ghost use Rattle.faaslet_meaning.specs.Runnable.{ExportsOwn, HostImports, Named};
ghost use Rattle.function_rules.specs.Exports.{IsOwn};
ghost use Rattle.function_rules.specs.Signatures.{func_type};

use crate::signature::{Signature, func_type, has_type};
use faaslet_meaning::{ExportKind, Module};

fn is_function(kind: ExportKind) -> bool
    ensures { result ≡ is_function kind }
{
    kind == ExportKind::Function
}

/// The index of the function that is exported under a name.
pub fn export_of(module: &Module, name: &[u8]) -> Option<u32>
    ensures { result ≡ export_of «module».now name.now }
{
    let exports = module.exports.as_slice();
    let found = exports
        .iter()
        .find(|e| is_function(e.kind) && e.name.as_slice() == name);
    found.map(|e| e.index)
}

/// Whether something is exported under a name.
pub fn is_named(module: &Module, name: &[u8]) -> bool
    ensures { IsTrue result ↔ Named name.now «module».now }
{
    module
        .exports
        .as_slice()
        .iter()
        .any(|e| e.name.as_slice() == name)
}

/// Whether type number `t` is of this signature. One that does not exist counts as from nothing to nothing.
fn gives(module: &Module, t: u32, signature: Signature) -> bool
    ensures { IsTrue result ↔ (type_at «module».now t ≡ func_type signature) }
{
    match func_type(module.types.as_slice(), t) {
        Some(t) => has_type(t, signature),
        None => signature.params == 0 && signature.result.is_none(),
    }
}

fn type_number(module: &Module, place: usize) -> Option<u32>
    ensures { result ≡ slice_get «module».now.functions place }
{
    module.functions.as_slice().get(place).copied()
}

/// The number of the type of a function with a body.
fn own_type(module: &Module, index: usize) -> Option<u32>
    requires { HostImports «module».now }
    ensures own { IfSome result (λ t. IsOwn «module».now index (type_at «module».now t)) }
    ensures none { IfNone result ((t : FuncType) → IsOwn «module».now index t → ⊥) }
{
    // All imports are functions.
    let imported = module.imports.as_slice().len();
    if index < imported {
        return None;
    }
    type_number(module, index - imported)
}

/// Whether the function has a body and this signature.
#[tactic(auto, using(crate::proofs::Owns::own_as, crate::proofs::Owns::own_same))]
fn is_own(module: &Module, index: usize, signature: Signature) -> bool
    requires { HostImports «module».now }
    ensures { IsTrue result ↔ IsOwn «module».now index (func_type signature) }
{
    match own_type(module, index) {
        Some(t) => gives(module, t, signature),
        None => false,
    }
}

/// Whether a function with a body and this signature is exported under a name.
pub fn exports_own(module: &Module, name: &[u8], signature: Signature) -> bool
    requires { HostImports «module».now }
    ensures { IsTrue result ↔ ExportsOwn «module».now name.now (func_type signature) }
{
    match export_of(module, name) {
        Some(index) => is_own(module, index as usize, signature),
        None => false,
    }
}
