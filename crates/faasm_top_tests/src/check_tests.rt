//! Files that `check` answers, and the same refusals by `call`.

use crate::tests::{ANSWER, CODE, FUNCTIONS, MALFORMED, TYPES, UNTYPED, answered, replaced};
use std::alloc::{AllocError, Global};
use std::test::Fail;

const VALID: &str = "valid\n";

const FLOAT: &str = "float\n";

const LOCALS: &str = "limit locals\n";

const INVALID: &str = "invalid module\n";

/// The place of the section of exports in the module that returns 42.
const EXPORTS: usize = 19;

/// Other bytes in the place of those from a start to an end of that module, and the line that is due.
const ROWS: [(&str, usize, usize, &[u8], &str); 28] = [
    ("as it is", 0, 0, &[], VALID),
    ("the header alone", TYPES, 37, &[], VALID),
    (
        "a count in five bytes",
        TYPES,
        37,
        &[0x01, 0x05, 0x80, 0x80, 0x80, 0x80, 0x00],
        VALID,
    ),
    (
        "a count past 32 bits",
        TYPES,
        37,
        &[0x01, 0x05, 0x80, 0x80, 0x80, 0x80, 0x10],
        MALFORMED,
    ),
    (
        "a count in six bytes",
        TYPES,
        37,
        &[0x01, 0x06, 0x80, 0x80, 0x80, 0x80, 0x80, 0x00],
        MALFORMED,
    ),
    (
        "more types than bytes",
        TYPES,
        37,
        &[0x01, 0x05, 0xFF, 0xFF, 0xFF, 0xFF, 0x0F],
        MALFORMED,
    ),
    ("a custom section", TYPES, TYPES, &[0x00, 0x01, 0x00], VALID),
    (
        "a custom section whose name is no text",
        TYPES,
        37,
        &[0x00, 0x02, 0x01, 0xFF],
        MALFORMED,
    ),
    (
        "a local of f32",
        CODE,
        37,
        &[0x0A, 0x08, 0x01, 0x06, 0x01, 0x01, 0x7D, 0x41, 0x2A, 0x0B],
        FLOAT,
    ),
    (
        "the same without its last byte",
        CODE,
        37,
        &[0x0A, 0x08, 0x01, 0x06, 0x01, 0x01, 0x7D, 0x41, 0x2A],
        MALFORMED,
    ),
    (
        "an addition of anything behind `unreachable`",
        CODE,
        37,
        &[0x0A, 0x06, 0x01, 0x04, 0x00, 0x00, 0x6A, 0x0B],
        VALID,
    ),
    (
        "an addition of an i64 behind `unreachable`",
        CODE,
        37,
        &[0x0A, 0x08, 0x01, 0x06, 0x00, 0x00, 0x42, 0x00, 0x6A, 0x0B],
        UNTYPED,
    ),
    ("no exports", EXPORTS, CODE, &[], VALID),
    (
        "two untyped functions",
        FUNCTIONS,
        37,
        &[
            0x03, 0x03, 0x02, 0x00, 0x00, 0x0A, 0x07, 0x02, 0x02, 0x00, 0x0B, 0x02, 0x00, 0x0B,
        ],
        UNTYPED,
    ),
    (
        "the second function untyped",
        FUNCTIONS,
        37,
        &[
            0x03, 0x03, 0x02, 0x00, 0x00, 0x0A, 0x0A, 0x02, 0x04, 0x00, 0x41, 0x2A, 0x0B, 0x03,
            0x00, 0x6A, 0x0B,
        ],
        "invalid function 1\n",
    ),
    (
        "two exports of one name",
        EXPORTS,
        CODE,
        &[
            0x07, 0x0F, 0x02, 0x04, 0x6D, 0x61, 0x69, 0x6E, 0x00, 0x00, 0x04, 0x6D, 0x61, 0x69,
            0x6E, 0x00, 0x00,
        ],
        INVALID,
    ),
    (
        "these, and an untyped function",
        EXPORTS,
        37,
        &[
            0x07, 0x0F, 0x02, 0x04, 0x6D, 0x61, 0x69, 0x6E, 0x00, 0x00, 0x04, 0x6D, 0x61, 0x69,
            0x6E, 0x00, 0x00, 0x0A, 0x05, 0x01, 0x03, 0x00, 0x6A, 0x0B,
        ],
        INVALID,
    ),
    (
        "an export of no function",
        EXPORTS,
        CODE,
        &[0x07, 0x08, 0x01, 0x04, 0x6D, 0x61, 0x69, 0x6E, 0x00, 0x01],
        INVALID,
    ),
    (
        "50,000 locals",
        CODE,
        37,
        &[
            0x0A, 0x0A, 0x01, 0x08, 0x01, 0xD0, 0x86, 0x03, 0x7F, 0x41, 0x2A, 0x0B,
        ],
        VALID,
    ),
    (
        "50,001 locals",
        CODE,
        37,
        &[
            0x0A, 0x0A, 0x01, 0x08, 0x01, 0xD1, 0x86, 0x03, 0x7F, 0x41, 0x2A, 0x0B,
        ],
        LOCALS,
    ),
    (
        "these in an untyped function",
        CODE,
        37,
        &[
            0x0A, 0x09, 0x01, 0x07, 0x01, 0xD1, 0x86, 0x03, 0x7F, 0x6A, 0x0B,
        ],
        LOCALS,
    ),
    (
        "50,001 locals of f32",
        CODE,
        37,
        &[
            0x0A, 0x0A, 0x01, 0x08, 0x01, 0xD1, 0x86, 0x03, 0x7D, 0x41, 0x2A, 0x0B,
        ],
        FLOAT,
    ),
    (
        "65,536 elements",
        EXPORTS,
        EXPORTS,
        &[0x04, 0x06, 0x01, 0x70, 0x00, 0x80, 0x80, 0x04],
        VALID,
    ),
    (
        "65,537 elements",
        EXPORTS,
        EXPORTS,
        &[0x04, 0x06, 0x01, 0x70, 0x00, 0x81, 0x80, 0x04],
        "limit table\n",
    ),
    (
        "too many elements and too many locals",
        EXPORTS,
        37,
        &[
            0x04, 0x06, 0x01, 0x70, 0x00, 0x81, 0x80, 0x04, 0x0A, 0x0A, 0x01, 0x08, 0x01, 0xD1,
            0x86, 0x03, 0x7F, 0x41, 0x2A, 0x0B,
        ],
        LOCALS,
    ),
    (
        "two tables",
        EXPORTS,
        EXPORTS,
        &[0x04, 0x07, 0x02, 0x70, 0x00, 0x00, 0x70, 0x00, 0x00],
        INVALID,
    ),
    (
        "sections out of order",
        CODE,
        CODE,
        &[0x03, 0x02, 0x01, 0x00],
        MALFORMED,
    ),
    ("a byte behind it", 37, 37, &[0x00], MALFORMED),
];

#[test]
fn checks_of_modules(rt: HostRuntime) -> Result<(), Fail> {
    let alloc = rt.alloc();
    for (name, start, end, other, line) in ROWS {
        let file = replaced(alloc, start, end, other)?;
        let (status, written) = answered(alloc, &["check", "m.wasm"], &file, 100)?;
        assert_eq!(rt; written.as_slice(), line.as_bytes(), "{name}");
        assert_eq!(rt; status, if line == VALID { 0 } else { 3 }, "{name}");
        if line != VALID {
            let (status, written) = answered(alloc, &["call", "m.wasm", "", "10"], &file, 100)?;
            assert_eq!(rt; written.as_slice(), line.as_bytes(), "call: {name}");
            assert_eq!(rt; status, 3, "call: {name}");
        }
    }
    for len in 0..ANSWER.len() {
        let (status, written) = answered(alloc, &["check", "m.wasm"], &ANSWER[..len], 100)?;
        // The header alone and the section of types behind it are modules.
        let is_module = len == TYPES || len == FUNCTIONS;
        let line = if is_module { VALID } else { MALFORMED };
        assert_eq!(rt; written.as_slice(), line.as_bytes(), "{len} bytes");
        assert_eq!(rt; status, if is_module { 0 } else { 3 }, "{len} bytes");
    }
    Ok(())
}

/// The header, these bytes, so many times others, and last ones.
fn repeated(
    alloc: Global,
    head: &[u8],
    times: usize,
    item: &[u8],
    tail: &[u8],
) -> Result<Vec<u8>, AllocError> {
    let mut bytes = Vec::from_slice(alloc, &ANSWER[..TYPES])?;
    bytes.extend_from_slice(head)?;
    for _ in 0..times {
        bytes.extend_from_slice(item)?;
    }
    bytes.extend_from_slice(tail)?;
    Ok(bytes)
}

#[test]
fn limits_of_a_module(rt: HostRuntime) -> Result<(), Fail> {
    let alloc = rt.alloc();
    let global = [0x7F, 0x00, 0x41, 0x00, 0x0B];
    let rows: [(Vec<u8>, &str, u8); 6] = [
        (
            repeated(
                alloc,
                &[0x01, 0x85, 0x08, 0x01, 0x60, 0x80, 0x08],
                1_024,
                &[0x7F],
                &[0x00],
            )?,
            VALID,
            0,
        ),
        (
            repeated(
                alloc,
                &[0x01, 0x86, 0x08, 0x01, 0x60, 0x81, 0x08],
                1_025,
                &[0x7F],
                &[0x00],
            )?,
            "limit params\n",
            3,
        ),
        (
            repeated(
                alloc,
                &[0x06, 0x83, 0x80, 0x14, 0x80, 0x80, 0x04],
                65_536,
                &global,
                &[],
            )?,
            VALID,
            0,
        ),
        (
            repeated(
                alloc,
                &[0x06, 0x88, 0x80, 0x14, 0x81, 0x80, 0x04],
                65_537,
                &global,
                &[],
            )?,
            "limit globals\n",
            3,
        ),
        (
            repeated(
                alloc,
                &[0x00, 0xF3, 0xFF, 0xFF, 0x01, 0x00],
                4_194_290,
                &[0x61],
                &[],
            )?,
            VALID,
            0,
        ),
        (
            repeated(
                alloc,
                &[0x00, 0xF4, 0xFF, 0xFF, 0x01, 0x00],
                4_194_291,
                &[0x61],
                &[],
            )?,
            "too long\n",
            3,
        ),
    ];
    for (file, line, status) in &rows {
        let (answer, written) = answered(alloc, &["check", "m.wasm"], file, 100)?;
        assert_eq!(rt; written.as_slice(), line.as_bytes());
        assert_eq!(rt; answer, *status, "{line}");
    }
    Ok(())
}
