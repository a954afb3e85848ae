//! The line of a single call, by hand from the table of texts.

use faaslet_meaning::{Broken, Outcome, Trap};
use session_report::call_line;
use std::test::Fail;

/// How a call ended, with the fuel that it used and its output, and its line.
const ROWS: [(Outcome, u64, &[u8], &str); 31] = [
    (Outcome::Done(42), 7, &[], "call done 42 used 7 output \n"),
    (
        Outcome::Done(-2_147_483_648),
        18_446_744_073_709_551_615,
        &[0, 9, 10, 15, 16, 171, 255],
        "call done -2147483648 used 18446744073709551615 output 00090a0f10abff\n",
    ),
    (Outcome::FuelOut, 9, &[1], "call fuel\n"),
    (Outcome::Want, 9, &[1], "call want\n"),
    (
        Outcome::Broken(Broken::Segment),
        0,
        &[],
        "call broken segment\n",
    ),
    (
        Outcome::Broken(Broken::Quota),
        0,
        &[],
        "call broken quota\n",
    ),
    (Outcome::Broken(Broken::Fuel), 0, &[], "call broken fuel\n"),
    (
        Outcome::Broken(Broken::HostCall),
        0,
        &[],
        "call broken host call\n",
    ),
    (
        Outcome::Broken(Broken::Trap(Trap::DivideByZero)),
        0,
        &[],
        "call broken trap integer divide by zero\n",
    ),
    (
        Outcome::Trap(Trap::Unreachable),
        1,
        &[1],
        "call trap unreachable used 1\n",
    ),
    (
        Outcome::Trap(Trap::OutOfBounds),
        2,
        &[],
        "call trap out of bounds memory access used 2\n",
    ),
    (
        Outcome::Trap(Trap::DivideByZero),
        3,
        &[],
        "call trap integer divide by zero used 3\n",
    ),
    (
        Outcome::Trap(Trap::IntegerOverflow),
        4,
        &[],
        "call trap integer overflow used 4\n",
    ),
    (
        Outcome::Trap(Trap::UndefinedElement),
        5,
        &[],
        "call trap undefined element used 5\n",
    ),
    (
        Outcome::Trap(Trap::UninitializedElement),
        6,
        &[],
        "call trap uninitialized element used 6\n",
    ),
    (
        Outcome::Trap(Trap::TypeMismatch),
        7,
        &[],
        "call trap indirect call type mismatch used 7\n",
    ),
    (
        Outcome::Trap(Trap::StackExhausted),
        8,
        &[],
        "call trap stack exhausted used 8\n",
    ),
    (
        Outcome::Trap(Trap::Denied),
        9,
        &[],
        "call trap denied used 9\n",
    ),
    (
        Outcome::Trap(Trap::BadKey),
        10,
        &[],
        "call trap bad key used 10\n",
    ),
    (
        Outcome::Trap(Trap::BadFunction),
        11,
        &[],
        "call trap bad function used 11\n",
    ),
    (
        Outcome::Trap(Trap::BadChild),
        12,
        &[],
        "call trap bad child used 12\n",
    ),
    (
        Outcome::Trap(Trap::BufferTooLong),
        13,
        &[],
        "call trap buffer too long used 13\n",
    ),
    (
        Outcome::Trap(Trap::StateRange),
        14,
        &[],
        "call trap state range used 14\n",
    ),
    (
        Outcome::Trap(Trap::AppendFull),
        15,
        &[],
        "call trap append full used 15\n",
    ),
    (
        Outcome::Trap(Trap::LockMisuse),
        16,
        &[],
        "call trap lock misuse used 16\n",
    ),
    (
        Outcome::Trap(Trap::TooManyLocks),
        17,
        &[],
        "call trap too many locks used 17\n",
    ),
    (
        Outcome::Trap(Trap::TooManyMappings),
        18,
        &[],
        "call trap too many mappings used 18\n",
    ),
    (
        Outcome::Trap(Trap::MapFull),
        19,
        &[],
        "call trap map full used 19\n",
    ),
    (
        Outcome::Trap(Trap::CallRange),
        20,
        &[],
        "call trap call range used 20\n",
    ),
    (
        Outcome::Trap(Trap::OutputFull),
        21,
        &[],
        "call trap output full used 21\n",
    ),
    (
        Outcome::Trap(Trap::ChainFull),
        22,
        &[],
        "call trap chain full used 22\n",
    ),
];

#[test]
fn each_end_has_its_line(rt: HostRuntime) -> Result<(), Fail> {
    for (outcome, used, output, line) in ROWS {
        let told = call_line(rt.alloc(), outcome, used, output)?;
        assert_eq!(rt; told.as_str(), line);
    }
    Ok(())
}
