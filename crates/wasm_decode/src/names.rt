//! Sizes with so many bytes, and names. W3C WebAssembly Core Specification 1.0, section 5.2.4.

ghost use Rattle.std.specs.Prelude.{◌≡◌, IfOk};
ghost use Rattle.std.specs.Str.{is_utf8};
ghost use Rattle.wasm_code.specs.Reading.{Gives, GivesOrWants};
ghost use Rattle.faaslet_meaning.specs.ModuleReading as modules;

use faaslet_meaning::{Bytes, Items};
use std::alloc::{AllocError, Global};
use wasm_code::{BodyFault, Malformed, u32_at};

/// As many bytes as the size at the front says, and the bytes behind them.
#[tactic(auto, unfolding(faaslet_meaning::specs::ModuleReading::blob_at))]
pub fn blob_at(bytes: &[u8]) -> Result<(&[u8], &[u8]), Malformed>
    ensures { Gives (λ x. (x.0.now, x.1.now)) result (modules.blob_at bytes.now) }
{
    let (size, rest) = u32_at(bytes)?;
    rest.split_at_checked(size as usize).ok_or(Malformed)
}

/// Whether the bytes are UTF-8.
#[tactic(auto, using(crate::proofs::Texts::text_steps))]
fn is_text(bytes: &[u8]) -> bool
    ensures { result ≡ is_utf8 bytes.now }
{
    str::from_utf8(bytes).is_ok()
}

/// The bytes of the name at the front, and the bytes behind it.
#[tactic(auto, unfolding(faaslet_meaning::specs::ModuleReading::name_at))]
pub fn name_bytes_at(bytes: &[u8]) -> Result<(&[u8], &[u8]), Malformed>
    ensures { Gives (λ x. (x.0.now, x.1.now)) result (modules.name_at bytes.now) }
{
    let (name, rest) = blob_at(bytes)?;
    if !is_text(name) {
        return Err(Malformed);
    }
    Ok((name, rest))
}

/// A copy of the bytes.
pub fn copied(alloc: Global, bytes: &[u8]) -> Result<Bytes, AllocError>
    ensures { IfOk result (λ copy. copy ≡ bytes.now) }
{
    Ok(Items::of(Vec::from_slice(alloc, bytes)?))
}

/// The name at the front, and the bytes behind it.
pub fn name_at(alloc: Global, bytes: &[u8]) -> Result<(Bytes, &[u8]), BodyFault>
    ensures { GivesOrWants (λ x. (x.0, x.1.now)) result (modules.name_at bytes.now) }
{
    let (name, rest) = name_bytes_at(bytes)?;
    Ok((copied(alloc, name)?, rest))
}
