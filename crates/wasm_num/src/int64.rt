//! The operations on integers of 64 bits. W3C WebAssembly Core Specification 1.0, section 4.3.2.

ghost use Rattle.std.specs.Prelude.{◌≡◌, Ok};
ghost use Rattle.std.specs.Int.{w64};
ghost use Rattle.faaslet_meaning.specs.Integers.{test_row, compare_row, unary_row, binary_row, convert_row, truth};
ghost use Rattle.faaslet_meaning.specs.Integers as rows;

use faaslet_meaning::Trap;

/// The bits of the least signed number.
const LEAST: u64 = 0x8000_0000_0000_0000;

/// Whether the number is 0.
#[inline]
pub fn eqz(a: u64) -> bool
    ensures { test_row w64 a ≡ truth result }
{
    a == 0
}

#[inline]
pub fn eq(a: u64, b: u64) -> bool
    ensures { compare_row rows.eq w64 a b ≡ result }
{
    a == b
}

#[inline]
pub fn ne(a: u64, b: u64) -> bool
    ensures { compare_row rows.ne w64 a b ≡ result }
{
    a != b
}

#[inline]
pub fn lt_s(a: u64, b: u64) -> bool
    ensures { compare_row rows.lt_s w64 a b ≡ result }
{
    a.cast_signed() < b.cast_signed()
}

#[inline]
pub fn lt_u(a: u64, b: u64) -> bool
    ensures { compare_row rows.lt_u w64 a b ≡ result }
{
    a < b
}

#[inline]
pub fn gt_s(a: u64, b: u64) -> bool
    ensures { compare_row rows.gt_s w64 a b ≡ result }
{
    a.cast_signed() > b.cast_signed()
}

#[inline]
pub fn gt_u(a: u64, b: u64) -> bool
    ensures { compare_row rows.gt_u w64 a b ≡ result }
{
    a > b
}

#[inline]
pub fn le_s(a: u64, b: u64) -> bool
    ensures { compare_row rows.le_s w64 a b ≡ result }
{
    a.cast_signed() <= b.cast_signed()
}

#[inline]
pub fn le_u(a: u64, b: u64) -> bool
    ensures { compare_row rows.le_u w64 a b ≡ result }
{
    a <= b
}

#[inline]
pub fn ge_s(a: u64, b: u64) -> bool
    ensures { compare_row rows.ge_s w64 a b ≡ result }
{
    a.cast_signed() >= b.cast_signed()
}

#[inline]
pub fn ge_u(a: u64, b: u64) -> bool
    ensures { compare_row rows.ge_u w64 a b ≡ result }
{
    a >= b
}

/// The zeros before the highest digit that is set.
#[inline]
#[tactic(auto, using(crate::proofs::Digits::leading))]
pub fn clz(a: u64) -> u64
    ensures { unary_row rows.clz w64 a ≡ result }
{
    u64::from(a.leading_zeros())
}

/// The zeros after the lowest digit that is set.
#[inline]
#[tactic(auto, using(crate::proofs::Rows::ctz_64))]
pub fn ctz(a: u64) -> u64
    ensures { unary_row rows.ctz w64 a ≡ result }
{
    u64::from(a.trailing_zeros())
}

/// How many digits are set.
#[inline]
#[tactic(auto, using(crate::proofs::Digits::set))]
pub fn popcnt(a: u64) -> u64
    ensures { unary_row rows.popcnt w64 a ≡ result }
{
    u64::from(a.count_ones())
}

#[inline]
pub fn add(a: u64, b: u64) -> u64
    ensures { binary_row rows.add w64 a b ≡ Ok result }
{
    a.wrapping_add(b)
}

#[inline]
pub fn sub(a: u64, b: u64) -> u64
    ensures { binary_row rows.sub w64 a b ≡ Ok result }
{
    a.wrapping_sub(b)
}

#[inline]
pub fn mul(a: u64, b: u64) -> u64
    ensures { binary_row rows.mul w64 a b ≡ Ok result }
{
    a.wrapping_mul(b)
}

/// Rounded toward zero.
#[inline]
#[tactic(auto, using(crate::proofs::Rows::div_s_64))]
pub fn div_s(a: u64, b: u64) -> Result<u64, Trap>
    ensures { result ≡ binary_row rows.div_s w64 a b }
{
    if b == 0 {
        return Err(Trap::DivideByZero);
    }
    if a == LEAST && b == u64::MAX {
        return Err(Trap::IntegerOverflow);
    }
    Ok((a.cast_signed() / b.cast_signed()).cast_unsigned())
}

#[inline]
pub fn div_u(a: u64, b: u64) -> Result<u64, Trap>
    ensures { result ≡ binary_row rows.div_u w64 a b }
{
    if b == 0 {
        return Err(Trap::DivideByZero);
    }
    Ok(a / b)
}

/// With the sign of the dividend.
#[inline]
pub fn rem_s(a: u64, b: u64) -> Result<u64, Trap>
    ensures { result ≡ binary_row rows.rem_s w64 a b }
{
    if b == 0 {
        return Err(Trap::DivideByZero);
    }
    let remainder = a.cast_signed().wrapping_rem(b.cast_signed());
    Ok(remainder.cast_unsigned())
}

#[inline]
pub fn rem_u(a: u64, b: u64) -> Result<u64, Trap>
    ensures { result ≡ binary_row rows.rem_u w64 a b }
{
    if b == 0 {
        return Err(Trap::DivideByZero);
    }
    Ok(a % b)
}

#[inline]
#[tactic(auto, using(crate::proofs::Rows::and_64))]
pub fn and(a: u64, b: u64) -> u64
    ensures { binary_row rows.and w64 a b ≡ Ok result }
{
    a & b
}

#[inline]
#[tactic(auto, using(crate::proofs::Rows::or_64))]
pub fn or(a: u64, b: u64) -> u64
    ensures { binary_row rows.or w64 a b ≡ Ok result }
{
    a | b
}

#[inline]
#[tactic(auto, using(crate::proofs::Rows::xor_64))]
pub fn xor(a: u64, b: u64) -> u64
    ensures { binary_row rows.xor w64 a b ≡ Ok result }
{
    a ^ b
}

#[inline]
pub fn shl(a: u64, b: u64) -> u64
    ensures { binary_row rows.shl w64 a b ≡ Ok result }
{
    a << (b % 64)
}

/// Copies of the sign move in.
#[inline]
#[tactic(auto, using(crate::proofs::Rows::shr_s_64))]
pub fn shr_s(a: u64, b: u64) -> u64
    ensures { binary_row rows.shr_s w64 a b ≡ Ok result }
{
    (a.cast_signed() >> (b % 64)).cast_unsigned()
}

#[inline]
pub fn shr_u(a: u64, b: u64) -> u64
    ensures { binary_row rows.shr_u w64 a b ≡ Ok result }
{
    a >> (b % 64)
}

#[inline]
#[tactic(auto, using(crate::proofs::Rows::rotl_64))]
pub fn rotl(a: u64, b: u64) -> u64
    ensures { binary_row rows.rotl w64 a b ≡ Ok result }
{
    a.rotate_left((b % 64) as u32)
}

#[inline]
#[tactic(auto, using(crate::proofs::Rows::rotr_64))]
pub fn rotr(a: u64, b: u64) -> u64
    ensures { binary_row rows.rotr w64 a b ≡ Ok result }
{
    a.rotate_right((b % 64) as u32)
}

/// The lower half.
#[inline]
pub fn wrap(a: u64) -> u32
    ensures { convert_row rows.wrap a ≡ result }
{
    (a % 0x1_0000_0000) as u32
}
