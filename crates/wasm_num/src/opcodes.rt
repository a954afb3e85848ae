//! The operations by their opcodes. W3C WebAssembly Core Specification 1.0, section 5.4.5.

ghost use Rattle.std.specs.Prelude.{◌≡◌, ◌≤◌, Ok, Some, IsSome};
ghost use Rattle.std.specs.Int.{Width, w32, w64};
ghost use Rattle.faaslet_meaning.specs.Integers.{Compare, Unary, Binary, Convert, test_of, test_row, compare_of, compare_row, unary_of, unary_row, binary_of, binary_row, convert_of, convert_row, truth, low};
ghost use Rattle.faaslet_meaning.specs.Integers as rows;

use crate::{int32, int64};
use faaslet_meaning::Trap;

/// The lower half of a number.
fn lower(x: u64) -> u32
    ensures { result ≡ low w32 x }
{
    (x % 0x1_0000_0000) as u32
}

/// The same answer as a number of 64 bits.
fn widened(answer: Result<u32, Trap>) -> Result<u64, Trap>
    ensures { result ≡ answer }
{
    match answer {
        Ok(number) => Ok(u64::from(number)),
        Err(trap) => Err(trap),
    }
}

/// `eqz`, as 1 or 0.
#[inline]
pub fn test(op: u8, a: u64) -> u64
    requires { IsSome (test_of op) }
    ensures { (w : Width) → test_of op ≡ Some w → result ≡ test_row w a }
{
    if op == 0x45 {
        u64::from(int32::eqz(lower(a)))
    } else {
        u64::from(int64::eqz(a))
    }
}

#[inline]
fn compare_32(op: u8, a: u32, b: u32) -> bool
    requires { (0x46 ≤ op) × (op ≤ 0x4F) }
    ensures { (f : Compare) (w : Width) → compare_of op ≡ Some (rows.compare f w) → result ≡ compare_row f w a b }
{
    match op {
        0x46 => int32::eq(a, b),
        0x47 => int32::ne(a, b),
        0x48 => int32::lt_s(a, b),
        0x49 => int32::lt_u(a, b),
        0x4A => int32::gt_s(a, b),
        0x4B => int32::gt_u(a, b),
        0x4C => int32::le_s(a, b),
        0x4D => int32::le_u(a, b),
        0x4E => int32::ge_s(a, b),
        0x4F => int32::ge_u(a, b),
        _ => unreachable!(),
    }
}

#[inline]
fn compare_64(op: u8, a: u64, b: u64) -> bool
    requires { (0x51 ≤ op) × (op ≤ 0x5A) }
    ensures { (f : Compare) (w : Width) → compare_of op ≡ Some (rows.compare f w) → result ≡ compare_row f w a b }
{
    match op {
        0x51 => int64::eq(a, b),
        0x52 => int64::ne(a, b),
        0x53 => int64::lt_s(a, b),
        0x54 => int64::lt_u(a, b),
        0x55 => int64::gt_s(a, b),
        0x56 => int64::gt_u(a, b),
        0x57 => int64::le_s(a, b),
        0x58 => int64::le_u(a, b),
        0x59 => int64::ge_s(a, b),
        0x5A => int64::ge_u(a, b),
        _ => unreachable!(),
    }
}

/// A comparison, as 1 or 0.
#[inline]
pub fn compare(op: u8, a: u64, b: u64) -> u64
    requires { IsSome (compare_of op) }
    ensures { (f : Compare) (w : Width) → compare_of op ≡ Some (rows.compare f w) → result ≡ truth (compare_row f w a b) }
{
    if op < 0x51 {
        u64::from(compare_32(op, lower(a), lower(b)))
    } else {
        u64::from(compare_64(op, a, b))
    }
}

/// A count of digits.
#[inline]
pub fn unary(op: u8, a: u64) -> u64
    requires { IsSome (unary_of op) }
    ensures { (f : Unary) (w : Width) → unary_of op ≡ Some (rows.unary f w) → result ≡ unary_row f w a }
{
    match op {
        0x67 => u64::from(int32::clz(lower(a))),
        0x68 => u64::from(int32::ctz(lower(a))),
        0x69 => u64::from(int32::popcnt(lower(a))),
        0x79 => int64::clz(a),
        0x7A => int64::ctz(a),
        0x7B => int64::popcnt(a),
        _ => unreachable!(),
    }
}

#[inline]
fn binary_32(op: u8, a: u32, b: u32) -> Result<u32, Trap>
    requires { (0x6A ≤ op) × (op ≤ 0x78) }
    ensures { (f : Binary) (w : Width) → binary_of op ≡ Some (rows.binary f w) → result ≡ binary_row f w a b }
{
    match op {
        0x6A => Ok(int32::add(a, b)),
        0x6B => Ok(int32::sub(a, b)),
        0x6C => Ok(int32::mul(a, b)),
        0x6D => int32::div_s(a, b),
        0x6E => int32::div_u(a, b),
        0x6F => int32::rem_s(a, b),
        0x70 => int32::rem_u(a, b),
        0x71 => Ok(int32::and(a, b)),
        0x72 => Ok(int32::or(a, b)),
        0x73 => Ok(int32::xor(a, b)),
        0x74 => Ok(int32::shl(a, b)),
        0x75 => Ok(int32::shr_s(a, b)),
        0x76 => Ok(int32::shr_u(a, b)),
        0x77 => Ok(int32::rotl(a, b)),
        0x78 => Ok(int32::rotr(a, b)),
        _ => unreachable!(),
    }
}

#[inline]
fn binary_64(op: u8, a: u64, b: u64) -> Result<u64, Trap>
    requires { (0x7C ≤ op) × (op ≤ 0x8A) }
    ensures { (f : Binary) (w : Width) → binary_of op ≡ Some (rows.binary f w) → result ≡ binary_row f w a b }
{
    match op {
        0x7C => Ok(int64::add(a, b)),
        0x7D => Ok(int64::sub(a, b)),
        0x7E => Ok(int64::mul(a, b)),
        0x7F => int64::div_s(a, b),
        0x80 => int64::div_u(a, b),
        0x81 => int64::rem_s(a, b),
        0x82 => int64::rem_u(a, b),
        0x83 => Ok(int64::and(a, b)),
        0x84 => Ok(int64::or(a, b)),
        0x85 => Ok(int64::xor(a, b)),
        0x86 => Ok(int64::shl(a, b)),
        0x87 => Ok(int64::shr_s(a, b)),
        0x88 => Ok(int64::shr_u(a, b)),
        0x89 => Ok(int64::rotl(a, b)),
        0x8A => Ok(int64::rotr(a, b)),
        _ => unreachable!(),
    }
}

/// An operation on two numbers.
#[inline]
#[tactic(auto, using(crate::proofs::Ranges::binary_last))]
pub fn binary(op: u8, a: u64, b: u64) -> Result<u64, Trap>
    requires { IsSome (binary_of op) }
    ensures { (f : Binary) (w : Width) → binary_of op ≡ Some (rows.binary f w) → result ≡ binary_row f w a b }
{
    if op < 0x7C {
        widened(binary_32(op, lower(a), lower(b)))
    } else {
        binary_64(op, a, b)
    }
}

/// A conversion between the widths.
#[inline]
pub fn convert(op: u8, a: u64) -> u64
    requires { IsSome (convert_of op) }
    ensures { (f : Convert) → convert_of op ≡ Some (rows.convert f) → result ≡ convert_row f a }
{
    match op {
        0xA7 => u64::from(int64::wrap(a)),
        0xAC => int32::extend_s(lower(a)),
        0xAD => int32::extend_u(lower(a)),
        _ => unreachable!(),
    }
}
