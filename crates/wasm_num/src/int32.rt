//! The operations on integers of 32 bits. W3C WebAssembly Core Specification 1.0, section 4.3.2.

ghost use Rattle.std.specs.Prelude.{◌≡◌, Ok};
ghost use Rattle.std.specs.Int.{w32};
ghost use Rattle.faaslet_meaning.specs.Integers.{test_row, compare_row, unary_row, binary_row, convert_row, truth};
ghost use Rattle.faaslet_meaning.specs.Integers as rows;

use faaslet_meaning::Trap;

/// The bits of the least signed number.
const LEAST: u32 = 0x8000_0000;

/// Whether the number is 0.
#[inline]
pub fn eqz(a: u32) -> bool
    ensures { test_row w32 a ≡ truth result }
{
    a == 0
}

#[inline]
pub fn eq(a: u32, b: u32) -> bool
    ensures { compare_row rows.eq w32 a b ≡ result }
{
    a == b
}

#[inline]
pub fn ne(a: u32, b: u32) -> bool
    ensures { compare_row rows.ne w32 a b ≡ result }
{
    a != b
}

#[inline]
pub fn lt_s(a: u32, b: u32) -> bool
    ensures { compare_row rows.lt_s w32 a b ≡ result }
{
    a.cast_signed() < b.cast_signed()
}

#[inline]
pub fn lt_u(a: u32, b: u32) -> bool
    ensures { compare_row rows.lt_u w32 a b ≡ result }
{
    a < b
}

#[inline]
pub fn gt_s(a: u32, b: u32) -> bool
    ensures { compare_row rows.gt_s w32 a b ≡ result }
{
    a.cast_signed() > b.cast_signed()
}

#[inline]
pub fn gt_u(a: u32, b: u32) -> bool
    ensures { compare_row rows.gt_u w32 a b ≡ result }
{
    a > b
}

#[inline]
pub fn le_s(a: u32, b: u32) -> bool
    ensures { compare_row rows.le_s w32 a b ≡ result }
{
    a.cast_signed() <= b.cast_signed()
}

#[inline]
pub fn le_u(a: u32, b: u32) -> bool
    ensures { compare_row rows.le_u w32 a b ≡ result }
{
    a <= b
}

#[inline]
pub fn ge_s(a: u32, b: u32) -> bool
    ensures { compare_row rows.ge_s w32 a b ≡ result }
{
    a.cast_signed() >= b.cast_signed()
}

#[inline]
pub fn ge_u(a: u32, b: u32) -> bool
    ensures { compare_row rows.ge_u w32 a b ≡ result }
{
    a >= b
}

/// The zeros before the highest digit that is set.
#[inline]
#[tactic(auto, using(crate::proofs::Digits::leading))]
pub fn clz(a: u32) -> u32
    ensures { unary_row rows.clz w32 a ≡ result }
{
    a.leading_zeros()
}

/// The zeros after the lowest digit that is set.
#[inline]
#[tactic(auto, using(crate::proofs::Rows::ctz_32))]
pub fn ctz(a: u32) -> u32
    ensures { unary_row rows.ctz w32 a ≡ result }
{
    a.trailing_zeros()
}

/// How many digits are set.
#[inline]
#[tactic(auto, using(crate::proofs::Digits::set))]
pub fn popcnt(a: u32) -> u32
    ensures { unary_row rows.popcnt w32 a ≡ result }
{
    a.count_ones()
}

#[inline]
pub fn add(a: u32, b: u32) -> u32
    ensures { binary_row rows.add w32 a b ≡ Ok result }
{
    a.wrapping_add(b)
}

#[inline]
pub fn sub(a: u32, b: u32) -> u32
    ensures { binary_row rows.sub w32 a b ≡ Ok result }
{
    a.wrapping_sub(b)
}

#[inline]
pub fn mul(a: u32, b: u32) -> u32
    ensures { binary_row rows.mul w32 a b ≡ Ok result }
{
    a.wrapping_mul(b)
}

/// Rounded toward zero.
#[inline]
#[tactic(auto, using(crate::proofs::Rows::div_s_32))]
pub fn div_s(a: u32, b: u32) -> Result<u32, Trap>
    ensures { result ≡ binary_row rows.div_s w32 a b }
{
    if b == 0 {
        return Err(Trap::DivideByZero);
    }
    if a == LEAST && b == u32::MAX {
        return Err(Trap::IntegerOverflow);
    }
    Ok((a.cast_signed() / b.cast_signed()).cast_unsigned())
}

#[inline]
pub fn div_u(a: u32, b: u32) -> Result<u32, Trap>
    ensures { result ≡ binary_row rows.div_u w32 a b }
{
    if b == 0 {
        return Err(Trap::DivideByZero);
    }
    Ok(a / b)
}

/// With the sign of the dividend.
#[inline]
pub fn rem_s(a: u32, b: u32) -> Result<u32, Trap>
    ensures { result ≡ binary_row rows.rem_s w32 a b }
{
    if b == 0 {
        return Err(Trap::DivideByZero);
    }
    let remainder = a.cast_signed().wrapping_rem(b.cast_signed());
    Ok(remainder.cast_unsigned())
}

#[inline]
pub fn rem_u(a: u32, b: u32) -> Result<u32, Trap>
    ensures { result ≡ binary_row rows.rem_u w32 a b }
{
    if b == 0 {
        return Err(Trap::DivideByZero);
    }
    Ok(a % b)
}

#[inline]
#[tactic(auto, using(crate::proofs::Rows::and_32))]
pub fn and(a: u32, b: u32) -> u32
    ensures { binary_row rows.and w32 a b ≡ Ok result }
{
    a & b
}

#[inline]
#[tactic(auto, using(crate::proofs::Rows::or_32))]
pub fn or(a: u32, b: u32) -> u32
    ensures { binary_row rows.or w32 a b ≡ Ok result }
{
    a | b
}

#[inline]
#[tactic(auto, using(crate::proofs::Rows::xor_32))]
pub fn xor(a: u32, b: u32) -> u32
    ensures { binary_row rows.xor w32 a b ≡ Ok result }
{
    a ^ b
}

#[inline]
pub fn shl(a: u32, b: u32) -> u32
    ensures { binary_row rows.shl w32 a b ≡ Ok result }
{
    a << (b % 32)
}

/// Copies of the sign move in.
#[inline]
#[tactic(auto, using(crate::proofs::Rows::shr_s_32))]
pub fn shr_s(a: u32, b: u32) -> u32
    ensures { binary_row rows.shr_s w32 a b ≡ Ok result }
{
    (a.cast_signed() >> (b % 32)).cast_unsigned()
}

#[inline]
pub fn shr_u(a: u32, b: u32) -> u32
    ensures { binary_row rows.shr_u w32 a b ≡ Ok result }
{
    a >> (b % 32)
}

#[inline]
#[tactic(auto, using(crate::proofs::Rows::rotl_32))]
pub fn rotl(a: u32, b: u32) -> u32
    ensures { binary_row rows.rotl w32 a b ≡ Ok result }
{
    a.rotate_left(b)
}

#[inline]
#[tactic(auto, using(crate::proofs::Rows::rotr_32))]
pub fn rotr(a: u32, b: u32) -> u32
    ensures { binary_row rows.rotr w32 a b ≡ Ok result }
{
    a.rotate_right(b)
}

/// The number of 64 bits with the same signed reading.
#[inline]
pub fn extend_s(a: u32) -> u64
    ensures { convert_row rows.extend_s a ≡ result }
{
    i64::from(a.cast_signed()).cast_unsigned()
}

#[inline]
pub fn extend_u(a: u32) -> u64
    ensures { convert_row rows.extend_u a ≡ result }
{
    u64::from(a)
}
