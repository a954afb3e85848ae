//! Vectors of any part. W3C WebAssembly Core Specification 1.0, section 5.1.3.

ghost use Rattle.std.specs.Prelude.{◌≡◌, List};
ghost use Rattle.faaslet_meaning.specs.Reading as reading;
ghost use Rattle.faaslet_meaning.specs.ModuleReading as modules;
ghost use Rattle.wasm_code.specs.Reading.{GivesOrWants};

use faaslet_meaning::Items;
use std::alloc::Global;
use wasm_code::{BodyFault, u32_at};

/// What the grammar has in one place, as it is read from the front of bytes.
pub trait Part {
    ghost use Rattle.std.specs.Prelude.{ℕ, List};
    ghost use Rattle.faaslet_meaning.specs.Reading.{Read};
    ghost use Rattle.wasm_code.specs.Reading.{GivesOrWants};

    type Value: Drop;

    ghost at: { List ℕ → Read Self.Value };

    /// What is read, and the bytes behind it.
    fn read(alloc: Global, bytes: &[u8]) -> Result<(Self::Value, &[u8]), BodyFault>
        ensures { GivesOrWants (λ x. (x.0, x.1.now)) result (at bytes.now) };
}

/// So many of them.
#[tactic(auto, using(wasm_code::proofs::Loop::going))]
fn many_at<P: Part>(
    alloc: Global,
    count: u32,
    bytes: &[u8],
) -> Result<(Items<P::Value>, &[u8]), BodyFault>
    ensures { GivesOrWants (λ x. (x.0, x.1.now)) result (reading.many_at P.at count bytes.now) }
{
    let mut items = Vec::new(alloc);
    let mut rest = bytes;
    for _ in 0..count {
        let (item, after) = P::read(alloc, rest)?;
        items.push(item)?;
        rest = after;
    }
    Ok((Items::of(items), rest))
}

/// A count, and that many of them.
#[tactic(auto, unfolding(faaslet_meaning::specs::Reading::vec_at))]
pub fn vec_at<P: Part>(alloc: Global, bytes: &[u8]) -> Result<(Items<P::Value>, &[u8]), BodyFault>
    ensures { GivesOrWants (λ x. (x.0, x.1.now)) result (reading.vec_at P.at bytes.now) }
{
    let (count, rest) = u32_at(bytes)?;
    many_at::<P>(alloc, count, rest)
}

/// A count, and that many of them, which fill the bytes.
pub fn whole_vec<P: Part>(alloc: Global, bytes: &[u8]) -> Result<Items<P::Value>, BodyFault>
    ensures { GivesOrWants (λ x. x) result (modules.whole (reading.vec_at P.at bytes.now)) }
{
    let (items, rest) = vec_at::<P>(alloc, bytes)?;
    if !rest.is_empty() {
        return Err(BodyFault::Malformed);
    }
    Ok(items)
}
