//! The module in the bytes of a file.

ghost use Rattle.wasm_decode.specs.Decoded.{IsDecoded};

use crate::fault::DecodeFault;
use crate::floats::has_float;
use crate::limits::first_passed;
use crate::sections::read_module;
use faaslet_meaning::Module;
use std::alloc::Global;

const MODULE_LIMIT: usize = 4_194_304;

/// The module that the bytes spell, without floats and within the limits.
pub fn decode(alloc: Global, bytes: &[u8]) -> Result<Module, DecodeFault>
    ensures { IsDecoded result bytes.now }
{
    if bytes.len() > MODULE_LIMIT {
        return Err(DecodeFault::TooLong);
    }
    let module = read_module(alloc, bytes)?;
    if has_float(&module) {
        return Err(DecodeFault::Float);
    }
    match first_passed(&module) {
        Some(passed) => Err(DecodeFault::Limit(passed)),
        None => Ok(module),
    }
}
