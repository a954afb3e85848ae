//! Modules, from the bytes of a file.

ghost use Rattle.std.specs.Prelude.{◌≡◌, IfOk, IfErr};
ghost use Rattle.std.specs.String.{string_bytes};
ghost use Rattle.faasm_top.specs.Answers.{code_of};
ghost use Rattle.faasm_top.specs.ModuleFiles.{IsAccepted, IsRefusal};

use crate::refusals::{invalid, undecoded};
use crate::report::Report;
use std::alloc::{AllocError, Global};
use wasm_decode::decode;
use wasm_validate::{ValidModule, validate};

/// The bytes of a module file.
pub const MODULE_LIMIT: usize = 4_194_304;

/// The module in these bytes where it is valid, else the line of the first reason against it.
pub fn read_valid(alloc: Global, bytes: &[u8]) -> Result<Result<ValidModule, Report>, AllocError>
    ensures accepted { IfOk result (λ r. IfOk r (λ code. IsAccepted code bytes.now)) }
    ensures refused { IfOk result (λ r. IfErr r (λ x. IsRefusal bytes.now (string_bytes x.line))) }
    ensures status { IfOk result (λ r. IfErr r (λ x. code_of x.status ≡ 3)) }
{
    let module = match decode(alloc, bytes) {
        Ok(module) => module,
        Err(fault) => return Ok(Err(undecoded(alloc, fault)?)),
    };
    match validate(alloc, module) {
        Ok(module) => Ok(Ok(module)),
        Err(refused) => Ok(Err(invalid(alloc, refused.fault)?)),
    }
}
