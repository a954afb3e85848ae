//! Each operation at edge operands, with answers that another language's integers gave.

ghost use Rattle.std.specs.Prelude.{IsSome};
ghost use Rattle.faaslet_meaning.specs.Integers.{test_of, compare_of, unary_of, binary_of};

use super::*;
use faaslet_meaning::Trap;
use std::test::Fail;

/// Whether these are the answers, in hexadecimal digits, at the first operands.
fn binary_gives(op: u8, operands: &[(u64, u64); 13], answers: &str) -> bool
    requires { IsSome (binary_of op) }
{
    let mut i = 0;
    for text in answers.split(' ') {
        let (Some((a, b)), Ok(answer)) = (operands.get(i), u64::from_str_radix(text, 16)) else {
            return false;
        };
        if binary(op, *a, *b) != Ok(answer) {
            return false;
        }
        i += 1;
    }
    i >= 12
}

/// The answers are digits.
fn compare_gives(op: u8, operands: &[(u64, u64); 13], answers: &[u8; 13]) -> bool
    requires { IsSome (compare_of op) }
{
    for i in 0..13 {
        let (a, b) = operands[i];
        if compare(op, a, b) != u64::from(answers[i] == b'1') {
            return false;
        }
    }
    true
}

fn test_gives(op: u8, operands: &[u64; 6], answers: &[u8; 6]) -> bool
    requires { IsSome (test_of op) }
{
    for i in 0..6 {
        if test(op, operands[i]) != u64::from(answers[i] == b'1') {
            return false;
        }
    }
    true
}

fn unary_gives(op: u8, operands: &[u64; 6], answers: &[u64; 6]) -> bool
    requires { IsSome (unary_of op) }
{
    for i in 0..6 {
        if unary(op, operands[i]) != answers[i] {
            return false;
        }
    }
    true
}

const PAIRS_32: [(u64, u64); 13] = [
    (0, 1),
    (1, 0xFFFFFFFF),
    (0xFFFFFFFF, 1),
    (0xFFFFFFFF, 0xFFFFFFFF),
    (0x80000000, 1),
    (0x7FFFFFFF, 0x80000000),
    (0x7FFFFFFF, 0x7FFFFFFF),
    (0xFFFFFFF9, 2),
    (7, 0xFFFFFFFE),
    (5, 31),
    (5, 32),
    (5, 33),
    (0x80000000, 0xFFFFFFFF),
];

const NUMBERS_32: [u64; 6] = [0, 1, 0xFFFFFFFF, 0x80000000, 0x7FFFFFFF, 0x000C0000];

const PAIRS_64: [(u64, u64); 13] = [
    (0, 1),
    (1, 0xFFFF_FFFF_FFFF_FFFF),
    (0xFFFF_FFFF_FFFF_FFFF, 1),
    (0xFFFF_FFFF_FFFF_FFFF, 0xFFFF_FFFF_FFFF_FFFF),
    (0x8000_0000_0000_0000, 1),
    (0x7FFF_FFFF_FFFF_FFFF, 0x8000_0000_0000_0000),
    (0x7FFF_FFFF_FFFF_FFFF, 0x7FFF_FFFF_FFFF_FFFF),
    (0xFFFF_FFFF_FFFF_FFF9, 2),
    (7, 0xFFFF_FFFF_FFFF_FFFE),
    (5, 63),
    (5, 64),
    (5, 65),
    (0x8000_0000_0000_0000, 0xFFFF_FFFF_FFFF_FFFF),
];

const NUMBERS_64: [u64; 6] = [
    0,
    1,
    0xFFFF_FFFF_FFFF_FFFF,
    0x8000_0000_0000_0000,
    0x7FFF_FFFF_FFFF_FFFF,
    0x0000_000C_0000_0000,
];

#[test]
fn operations_of_32_bits(rt: HostRuntime) -> Result<(), Fail> {
    let row = "1 0 0 fffffffe 80000001 ffffffff fffffffe fffffffb 5 24 25 26 7fffffff";
    assert!(rt; binary_gives(0x6A, &PAIRS_32, row), "i32.add");
    let row =
        "ffffffff 2 fffffffe 0 7fffffff ffffffff 0 fffffff7 9 ffffffe6 ffffffe5 ffffffe4 80000001";
    assert!(rt; binary_gives(0x6B, &PAIRS_32, row), "i32.sub");
    let row = "0 ffffffff ffffffff 1 80000000 80000000 1 fffffff2 fffffff2 9b a0 a5 80000000";
    assert!(rt; binary_gives(0x6C, &PAIRS_32, row), "i32.mul");
    let row = "0 ffffffff ffffffff 1 80000000 0 1 fffffffd fffffffd 0 0 0";
    assert!(rt; binary_gives(0x6D, &PAIRS_32, row), "i32.div_s");
    let row = "0 0 ffffffff 1 80000000 0 1 7ffffffc 0 0 0 0 0";
    assert!(rt; binary_gives(0x6E, &PAIRS_32, row), "i32.div_u");
    let row = "0 0 0 0 0 7fffffff 0 ffffffff 1 5 5 5 0";
    assert!(rt; binary_gives(0x6F, &PAIRS_32, row), "i32.rem_s");
    let row = "0 1 0 0 0 7fffffff 0 1 7 5 5 5 80000000";
    assert!(rt; binary_gives(0x70, &PAIRS_32, row), "i32.rem_u");
    let row = "0 1 1 ffffffff 0 0 7fffffff 0 6 5 0 1 80000000";
    assert!(rt; binary_gives(0x71, &PAIRS_32, row), "i32.and");
    let row =
        "1 ffffffff ffffffff ffffffff 80000001 ffffffff 7fffffff fffffffb ffffffff 1f 25 25 ffffffff";
    assert!(rt; binary_gives(0x72, &PAIRS_32, row), "i32.or");
    let row = "1 fffffffe fffffffe 0 80000001 ffffffff 0 fffffffb fffffff9 1a 25 24 7fffffff";
    assert!(rt; binary_gives(0x73, &PAIRS_32, row), "i32.xor");
    let row = "0 80000000 fffffffe 80000000 0 7fffffff 80000000 ffffffe4 c0000000 80000000 5 a 0";
    assert!(rt; binary_gives(0x74, &PAIRS_32, row), "i32.shl");
    let row = "0 0 ffffffff ffffffff c0000000 7fffffff 0 fffffffe 0 0 5 2 ffffffff";
    assert!(rt; binary_gives(0x75, &PAIRS_32, row), "i32.shr_s");
    let row = "0 0 7fffffff 1 40000000 7fffffff 0 3ffffffe 0 0 5 2 1";
    assert!(rt; binary_gives(0x76, &PAIRS_32, row), "i32.shr_u");
    let row =
        "0 80000000 ffffffff ffffffff 1 7fffffff bfffffff ffffffe7 c0000001 80000002 5 a 40000000";
    assert!(rt; binary_gives(0x77, &PAIRS_32, row), "i32.rotl");
    let row = "0 2 ffffffff ffffffff 40000000 7fffffff fffffffe 7ffffffe 1c a 5 80000002 1";
    assert!(rt; binary_gives(0x78, &PAIRS_32, row), "i32.rotr");
    Ok(())
}

#[test]
fn comparisons_of_32_bits(rt: HostRuntime) -> Result<(), Fail> {
    assert!(rt; compare_gives(0x46, &PAIRS_32, b"0001001000000"), "i32.eq");
    assert!(rt; compare_gives(0x47, &PAIRS_32, b"1110110111111"), "i32.ne");
    assert!(rt;
        compare_gives(0x48, &PAIRS_32, b"1010100101111"),
        "i32.lt_s"
    );
    assert!(rt;
        compare_gives(0x49, &PAIRS_32, b"1100010011111"),
        "i32.lt_u"
    );
    assert!(rt;
        compare_gives(0x4A, &PAIRS_32, b"0100010010000"),
        "i32.gt_s"
    );
    assert!(rt;
        compare_gives(0x4B, &PAIRS_32, b"0010100100000"),
        "i32.gt_u"
    );
    assert!(rt;
        compare_gives(0x4C, &PAIRS_32, b"1011101101111"),
        "i32.le_s"
    );
    assert!(rt;
        compare_gives(0x4D, &PAIRS_32, b"1101011011111"),
        "i32.le_u"
    );
    assert!(rt;
        compare_gives(0x4E, &PAIRS_32, b"0101011010000"),
        "i32.ge_s"
    );
    assert!(rt;
        compare_gives(0x4F, &PAIRS_32, b"0011101100000"),
        "i32.ge_u"
    );
    Ok(())
}

#[test]
fn counts_of_32_bits(rt: HostRuntime) -> Result<(), Fail> {
    assert!(rt; test_gives(0x45, &NUMBERS_32, b"100000"), "i32.eqz");
    assert!(rt;
        unary_gives(0x67, &NUMBERS_32, &[32, 31, 0, 0, 1, 12]),
        "i32.clz"
    );
    assert!(rt;
        unary_gives(0x68, &NUMBERS_32, &[32, 0, 0, 31, 0, 18]),
        "i32.ctz"
    );
    assert!(rt;
        unary_gives(0x69, &NUMBERS_32, &[0, 1, 32, 1, 31, 2]),
        "i32.popcnt"
    );
    Ok(())
}

#[test]
fn operations_of_64_bits(rt: HostRuntime) -> Result<(), Fail> {
    let row =
        "1 0 0 fffffffffffffffe 8000000000000001 ffffffffffffffff fffffffffffffffe fffffffffffffffb 5 44 45 46 7fffffffffffffff";
    assert!(rt; binary_gives(0x7C, &PAIRS_64, row), "i64.add");
    let row =
        "ffffffffffffffff 2 fffffffffffffffe 0 7fffffffffffffff ffffffffffffffff 0 fffffffffffffff7 9 ffffffffffffffc6 ffffffffffffffc5 ffffffffffffffc4 8000000000000001";
    assert!(rt; binary_gives(0x7D, &PAIRS_64, row), "i64.sub");
    let row =
        "0 ffffffffffffffff ffffffffffffffff 1 8000000000000000 8000000000000000 1 fffffffffffffff2 fffffffffffffff2 13b 140 145 8000000000000000";
    assert!(rt; binary_gives(0x7E, &PAIRS_64, row), "i64.mul");
    let row =
        "0 ffffffffffffffff ffffffffffffffff 1 8000000000000000 0 1 fffffffffffffffd fffffffffffffffd 0 0 0";
    assert!(rt; binary_gives(0x7F, &PAIRS_64, row), "i64.div_s");
    let row = "0 0 ffffffffffffffff 1 8000000000000000 0 1 7ffffffffffffffc 0 0 0 0 0";
    assert!(rt; binary_gives(0x80, &PAIRS_64, row), "i64.div_u");
    let row = "0 0 0 0 0 7fffffffffffffff 0 ffffffffffffffff 1 5 5 5 0";
    assert!(rt; binary_gives(0x81, &PAIRS_64, row), "i64.rem_s");
    let row = "0 1 0 0 0 7fffffffffffffff 0 1 7 5 5 5 8000000000000000";
    assert!(rt; binary_gives(0x82, &PAIRS_64, row), "i64.rem_u");
    let row = "0 1 1 ffffffffffffffff 0 0 7fffffffffffffff 0 6 5 0 1 8000000000000000";
    assert!(rt; binary_gives(0x83, &PAIRS_64, row), "i64.and");
    let row =
        "1 ffffffffffffffff ffffffffffffffff ffffffffffffffff 8000000000000001 ffffffffffffffff 7fffffffffffffff fffffffffffffffb ffffffffffffffff 3f 45 45 ffffffffffffffff";
    assert!(rt; binary_gives(0x84, &PAIRS_64, row), "i64.or");
    let row =
        "1 fffffffffffffffe fffffffffffffffe 0 8000000000000001 ffffffffffffffff 0 fffffffffffffffb fffffffffffffff9 3a 45 44 7fffffffffffffff";
    assert!(rt; binary_gives(0x85, &PAIRS_64, row), "i64.xor");
    let row =
        "0 8000000000000000 fffffffffffffffe 8000000000000000 0 7fffffffffffffff 8000000000000000 ffffffffffffffe4 c000000000000000 8000000000000000 5 a 0";
    assert!(rt; binary_gives(0x86, &PAIRS_64, row), "i64.shl");
    let row =
        "0 0 ffffffffffffffff ffffffffffffffff c000000000000000 7fffffffffffffff 0 fffffffffffffffe 0 0 5 2 ffffffffffffffff";
    assert!(rt; binary_gives(0x87, &PAIRS_64, row), "i64.shr_s");
    let row =
        "0 0 7fffffffffffffff 1 4000000000000000 7fffffffffffffff 0 3ffffffffffffffe 0 0 5 2 1";
    assert!(rt; binary_gives(0x88, &PAIRS_64, row), "i64.shr_u");
    let row =
        "0 8000000000000000 ffffffffffffffff ffffffffffffffff 1 7fffffffffffffff bfffffffffffffff ffffffffffffffe7 c000000000000001 8000000000000002 5 a 4000000000000000";
    assert!(rt; binary_gives(0x89, &PAIRS_64, row), "i64.rotl");
    let row =
        "0 2 ffffffffffffffff ffffffffffffffff 4000000000000000 7fffffffffffffff fffffffffffffffe 7ffffffffffffffe 1c a 5 8000000000000002 1";
    assert!(rt; binary_gives(0x8A, &PAIRS_64, row), "i64.rotr");
    Ok(())
}

#[test]
fn comparisons_of_64_bits(rt: HostRuntime) -> Result<(), Fail> {
    assert!(rt; compare_gives(0x51, &PAIRS_64, b"0001001000000"), "i64.eq");
    assert!(rt; compare_gives(0x52, &PAIRS_64, b"1110110111111"), "i64.ne");
    assert!(rt;
        compare_gives(0x53, &PAIRS_64, b"1010100101111"),
        "i64.lt_s"
    );
    assert!(rt;
        compare_gives(0x54, &PAIRS_64, b"1100010011111"),
        "i64.lt_u"
    );
    assert!(rt;
        compare_gives(0x55, &PAIRS_64, b"0100010010000"),
        "i64.gt_s"
    );
    assert!(rt;
        compare_gives(0x56, &PAIRS_64, b"0010100100000"),
        "i64.gt_u"
    );
    assert!(rt;
        compare_gives(0x57, &PAIRS_64, b"1011101101111"),
        "i64.le_s"
    );
    assert!(rt;
        compare_gives(0x58, &PAIRS_64, b"1101011011111"),
        "i64.le_u"
    );
    assert!(rt;
        compare_gives(0x59, &PAIRS_64, b"0101011010000"),
        "i64.ge_s"
    );
    assert!(rt;
        compare_gives(0x5A, &PAIRS_64, b"0011101100000"),
        "i64.ge_u"
    );
    Ok(())
}

#[test]
fn counts_of_64_bits(rt: HostRuntime) -> Result<(), Fail> {
    assert!(rt; test_gives(0x50, &NUMBERS_64, b"100000"), "i64.eqz");
    assert!(rt;
        unary_gives(0x79, &NUMBERS_64, &[64, 63, 0, 0, 1, 28]),
        "i64.clz"
    );
    assert!(rt;
        unary_gives(0x7A, &NUMBERS_64, &[64, 0, 0, 63, 0, 34]),
        "i64.ctz"
    );
    assert!(rt;
        unary_gives(0x7B, &NUMBERS_64, &[0, 1, 64, 1, 63, 2]),
        "i64.popcnt"
    );
    Ok(())
}

const LEAST_32: u64 = 0x8000_0000;

const LEAST_64: u64 = 0x8000_0000_0000_0000;

#[test]
fn divisions_that_trap(rt: HostRuntime) -> Result<(), Fail> {
    let zero = Err(Trap::DivideByZero);
    let over = Err(Trap::IntegerOverflow);
    assert_eq!(rt; binary(0x6D, 0, 0), zero);
    assert_eq!(rt; binary(0x6D, LEAST_32, 0), zero);
    assert_eq!(rt; binary(0x6E, 0, 0), zero);
    assert_eq!(rt; binary(0x6E, LEAST_32, 0), zero);
    assert_eq!(rt; binary(0x6F, 0, 0), zero);
    assert_eq!(rt; binary(0x6F, LEAST_32, 0), zero);
    assert_eq!(rt; binary(0x70, 0, 0), zero);
    assert_eq!(rt; binary(0x70, LEAST_32, 0), zero);
    assert_eq!(rt; binary(0x6D, LEAST_32, 0xFFFFFFFF), over);
    assert_eq!(rt; binary(0x7F, 0, 0), zero);
    assert_eq!(rt; binary(0x7F, LEAST_64, 0), zero);
    assert_eq!(rt; binary(0x80, 0, 0), zero);
    assert_eq!(rt; binary(0x80, LEAST_64, 0), zero);
    assert_eq!(rt; binary(0x81, 0, 0), zero);
    assert_eq!(rt; binary(0x81, LEAST_64, 0), zero);
    assert_eq!(rt; binary(0x82, 0, 0), zero);
    assert_eq!(rt; binary(0x82, LEAST_64, 0), zero);
    assert_eq!(rt; binary(0x7F, LEAST_64, 0xFFFF_FFFF_FFFF_FFFF), over);
    Ok(())
}

#[test]
fn conversions(rt: HostRuntime) -> Result<(), Fail> {
    let wraps: [(u64, u64); 5] = [
        (0, 0),
        (0xFFFFFFFF, 0xFFFFFFFF),
        (0x0000_0001_0000_0000, 0),
        (0xFFFF_FFFF_FFFF_FFFF, 0xFFFFFFFF),
        (0x0000_0012_3456_7890, 0x34567890),
    ];
    for (a, answer) in wraps {
        assert_eq!(rt; convert(0xA7, a), answer, "i32.wrap_i64 {a}");
    }
    let extended: [(u64, u64, u64); 5] = [
        (0, 0, 0),
        (1, 1, 1),
        (0x7FFFFFFF, 0x7FFFFFFF, 0x7FFFFFFF),
        (0x80000000, 0xFFFF_FFFF_8000_0000, 0x80000000),
        (0xFFFFFFFF, 0xFFFF_FFFF_FFFF_FFFF, 0xFFFFFFFF),
    ];
    for (a, signed, unsigned) in extended {
        assert_eq!(rt; convert(0xAC, a), signed, "i64.extend_i32_s {a}");
        assert_eq!(rt; convert(0xAD, a), unsigned, "i64.extend_i32_u {a}");
    }
    Ok(())
}
