//! Numbers in LEB128. W3C WebAssembly Core Specification 1.0, section 5.2.2.

ghost use Rattle.std.specs.Prelude.{◌≡◌, ◌^◌, ◌<◌, ◌≤◌, ◌∷◌, [], IfOk, OnErr, MatchResult, IsTrue, ◌↔◌};
ghost use Rattle.faaslet_meaning.specs.Productions.{Front, Prefix, NoFront};
ghost use Rattle.faaslet_meaning.specs.Numbers.{IsU32, IsS32, IsS64};
ghost use Rattle.wasm_code.specs.Reading.{IsWithin, Gives};
ghost use Rattle.faaslet_meaning.specs.Reading as reading;

use thiserror::Error;

/// The bytes begin with nothing that the format has in this place.
#[derive(Clone, Copy, Debug, PartialEq, Eq, Error)]
#[error("malformed")]
pub struct Malformed;

/// The first byte, and the bytes behind it.
pub fn byte_at(bytes: &[u8]) -> Result<(u8, &[u8]), Malformed>
    ensures parts { MatchResult result (λ x. bytes.now ≡ x.0 ∷ x.1.now) (λ _. bytes.now ≡ []) }
    ensures byte { IfOk result (λ x. x.0 < 256) }
{
    match bytes {
        [] => Err(Malformed),
        [b, rest @ ..] => Ok((*b, rest)),
    }
}

/// Whether the low seven bits of a last byte fit in so many.
#[tactic(auto, using(crate::proofs::Leb::last_bytes))]
fn fits(b: u8, bits: u32) -> bool
    requires { b < 128 }
    ensures { IsTrue result ↔ (b < 2 ^ bits) }
{
    if bits >= 7 {
        return true;
    }
    b >> bits == 0
}

/// The number of so many bits at the front, and the bytes behind it.
#[tactic(auto, unfolding(faaslet_meaning::specs::Reading::unsigned_at))]
fn unsigned_at(bytes: &[u8], bits: u32) -> Result<(u64, &[u8]), Malformed>
    requires { bits ≤ 64 }
    ensures exact { Gives (λ x. (x.0, x.1.now)) result (reading.unsigned_at bits bytes.now) }
    ensures bounded { IfOk result (λ x. x.0 < 2 ^ bits) }
{
    let (b, rest) = byte_at(bytes)?;
    if b < 128 {
        if !fits(b, bits) {
            return Err(Malformed);
        }
        return Ok((u64::from(b), rest));
    }
    if bits <= 7 {
        return Err(Malformed);
    }
    let (m, rest) = unsigned_at(rest, bits - 7)?;
    let n = 128 * m + u64::from(b - 128);
    Ok((n, rest))
}

/// The signed number of so many bits at the front, and the bytes behind it.
#[tactic(auto, unfolding(faaslet_meaning::specs::Reading::signed_at))]
fn signed_at(bytes: &[u8], bits: u32) -> Result<(i64, &[u8]), Malformed>
    requires { (0 < bits) × (bits ≤ 64) }
    ensures exact { Gives (λ x. (x.0, x.1.now)) result (reading.signed_at bits bytes.now) }
    ensures bounded { IfOk result (λ x. IsWithin bits x.0) }
{
    let (b, rest) = byte_at(bytes)?;
    if b < 64 {
        if !fits(b, bits - 1) {
            return Err(Malformed);
        }
        return Ok((i64::from(b), rest));
    }
    if b < 128 {
        if !fits(127 - b, bits - 1) {
            return Err(Malformed);
        }
        return Ok((i64::from(b) - 128, rest));
    }
    if bits <= 7 {
        return Err(Malformed);
    }
    let (m, rest) = signed_at(rest, bits - 7)?;
    let low = b - 128;
    let z = 128 * m + i64::from(low);
    Ok((z, rest))
}

/// The u32 at the front, and the bytes behind it.
#[tactic(auto, using(crate::proofs::Ends::u32_steps))]
pub fn u32_at(bytes: &[u8]) -> Result<(u32, &[u8]), Malformed>
    ensures exact { Gives (λ x. (x.0, x.1.now)) result (reading.unsigned_at 32 bytes.now) }
    ensures found { IfOk result (λ x. Front IsU32 bytes.now x.0 x.1.now) }
    ensures none { OnErr result (NoFront IsU32 bytes.now) }
{
    let (n, rest) = unsigned_at(bytes, 32)?;
    Ok((n as u32, rest))
}

/// The s32 at the front, and the bytes behind it.
#[tactic(auto, using(crate::proofs::Ends::s32_steps))]
pub fn s32_at(bytes: &[u8]) -> Result<(i32, &[u8]), Malformed>
    ensures exact { Gives (λ x. (x.0, x.1.now)) result (reading.signed_at 32 bytes.now) }
    ensures found { IfOk result (λ x. Front IsS32 bytes.now x.0 x.1.now) }
    ensures none { OnErr result (NoFront IsS32 bytes.now) }
{
    let (z, rest) = signed_at(bytes, 32)?;
    Ok((z as i32, rest))
}

/// The s64 at the front, and the bytes behind it.
#[tactic(auto, using(crate::proofs::Ends::s64_steps))]
pub fn s64_at(bytes: &[u8]) -> Result<(i64, &[u8]), Malformed>
    ensures exact { Gives (λ x. (x.0, x.1.now)) result (reading.signed_at 64 bytes.now) }
    ensures found { IfOk result (λ x. Front IsS64 bytes.now x.0 x.1.now) }
    ensures none { OnErr result (NoFront IsS64 bytes.now) }
{
    signed_at(bytes, 64)
}

/// The u32 at the front, and how many bytes spell it.
#[tactic(auto, using(crate::proofs::Ends::prefix, crate::proofs::Ends::front_len))]
pub fn read_u32(bytes: &[u8]) -> Result<(u32, usize), Malformed>
    ensures found { IfOk result (λ x. Prefix IsU32 bytes.now x.0 x.1) }
    ensures none { OnErr result (NoFront IsU32 bytes.now) }
{
    let (n, rest) = u32_at(bytes)?;
    Ok((n, bytes.len() - rest.len()))
}

/// The s32 at the front, and how many bytes spell it.
#[tactic(auto, using(crate::proofs::Ends::prefix, crate::proofs::Ends::front_len))]
pub fn read_s32(bytes: &[u8]) -> Result<(i32, usize), Malformed>
    ensures found { IfOk result (λ x. Prefix IsS32 bytes.now x.0 x.1) }
    ensures none { OnErr result (NoFront IsS32 bytes.now) }
{
    let (z, rest) = s32_at(bytes)?;
    Ok((z, bytes.len() - rest.len()))
}

/// The s64 at the front, and how many bytes spell it.
#[tactic(auto, using(crate::proofs::Ends::prefix, crate::proofs::Ends::front_len))]
pub fn read_s64(bytes: &[u8]) -> Result<(i64, usize), Malformed>
    ensures found { IfOk result (λ x. Prefix IsS64 bytes.now x.0 x.1) }
    ensures none { OnErr result (NoFront IsS64 bytes.now) }
{
    let (z, rest) = s64_at(bytes)?;
    Ok((z, bytes.len() - rest.len()))
}
