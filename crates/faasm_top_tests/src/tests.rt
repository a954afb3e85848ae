use fa_outside::{FailShelf, FailSink, MemShelf, MemSink};
use faasm_top::*;
use std::alloc::{AllocError, Global};
use std::test::Fail;

/// The module whose `main` returns 42.
pub const ANSWER: [u8; 37] = [
    0x00, 0x61, 0x73, 0x6D, 0x01, 0x00, 0x00, 0x00, 0x01, 0x05, 0x01, 0x60, 0x00, 0x01, 0x7F, 0x03,
    0x02, 0x01, 0x00, 0x07, 0x08, 0x01, 0x04, 0x6D, 0x61, 0x69, 0x6E, 0x00, 0x00, 0x0A, 0x06, 0x01,
    0x04, 0x00, 0x41, 0x2A, 0x0B,
];

/// The places in it of three sections.
pub const TYPES: usize = 8;

pub const FUNCTIONS: usize = 15;

pub const CODE: usize = 29;

pub const DONE: &str = "call done 42 used 1 output \n";

pub const NOT_BUILT: &str = "not built\n";

pub const UNTYPED: &str = "invalid function 0\n";

pub const MALFORMED: &str = "malformed\n";

/// Other bytes in the place of those from a start to an end, and the line and the status that are due
/// to a call with this fuel.
const ROWS: [(&str, usize, usize, &[u8], &str, &str, u8); 21] = [
    ("as it is", 0, 0, &[], "10", DONE, 0),
    (
        "42 in three bytes",
        CODE,
        37,
        &[0x0A, 0x08, 0x01, 0x06, 0x00, 0x41, 0xAA, 0x80, 0x00, 0x0B],
        "10",
        DONE,
        0,
    ),
    (
        "42 in five bytes",
        CODE,
        37,
        &[
            0x0A, 0x0A, 0x01, 0x08, 0x00, 0x41, 0xAA, 0x80, 0x80, 0x80, 0x00, 0x0B,
        ],
        "10",
        DONE,
        0,
    ),
    (
        "a size in five bytes",
        TYPES + 1,
        TYPES + 2,
        &[0x85, 0x80, 0x80, 0x80, 0x00],
        "10",
        DONE,
        0,
    ),
    (
        "two sizes and a count in two bytes",
        CODE,
        37,
        &[0x0A, 0x87, 0x00, 0x01, 0x84, 0x00, 0x00, 0x41, 0x2A, 0x0B],
        "10",
        DONE,
        0,
    ),
    (
        "a count in two bytes",
        FUNCTIONS + 1,
        FUNCTIONS + 3,
        &[0x03, 0x81, 0x00],
        "10",
        DONE,
        0,
    ),
    (
        "the smallest",
        CODE,
        37,
        &[
            0x0A, 0x0A, 0x01, 0x08, 0x00, 0x41, 0x80, 0x80, 0x80, 0x80, 0x78, 0x0B,
        ],
        "10",
        "call done -2147483648 used 1 output \n",
        0,
    ),
    (
        "a sum",
        CODE,
        37,
        &[
            0x0A, 0x09, 0x01, 0x07, 0x00, 0x41, 0x28, 0x41, 0x02, 0x6A, 0x0B,
        ],
        "3",
        "call done 42 used 3 output \n",
        0,
    ),
    (
        "sums of sums",
        CODE,
        37,
        &[
            0x0A, 0x0F, 0x01, 0x0D, 0x00, 0x41, 0x01, 0x41, 0x02, 0x41, 0x7B, 0x41, 0x04, 0x6A,
            0x6A, 0x6A, 0x0B,
        ],
        "10",
        "call done 2 used 7 output \n",
        0,
    ),
    (
        "the greatest and one",
        CODE,
        37,
        &[
            0x0A, 0x0D, 0x01, 0x0B, 0x00, 0x41, 0xFF, 0xFF, 0xFF, 0xFF, 0x07, 0x41, 0x01, 0x6A,
            0x0B,
        ],
        "10",
        "call done -2147483648 used 3 output \n",
        0,
    ),
    (
        "a sum, and one unit of fuel too few",
        CODE,
        37,
        &[
            0x0A, 0x09, 0x01, 0x07, 0x00, 0x41, 0x28, 0x41, 0x02, 0x6A, 0x0B,
        ],
        "2",
        "call fuel\n",
        1,
    ),
    (
        "an addition of one value",
        CODE,
        37,
        &[0x0A, 0x05, 0x01, 0x03, 0x00, 0x6A, 0x0B],
        "10",
        UNTYPED,
        3,
    ),
    (
        "two values at the end",
        CODE,
        37,
        &[0x0A, 0x08, 0x01, 0x06, 0x00, 0x41, 0x2A, 0x41, 0x2A, 0x0B],
        "10",
        UNTYPED,
        3,
    ),
    (
        "no value at the end",
        CODE,
        37,
        &[0x0A, 0x04, 0x01, 0x02, 0x00, 0x0B],
        "10",
        UNTYPED,
        3,
    ),
    (
        "unused bits that are no sign",
        CODE,
        37,
        &[
            0x0A, 0x0A, 0x01, 0x08, 0x00, 0x41, 0x80, 0x80, 0x80, 0x80, 0x38, 0x0B,
        ],
        "10",
        MALFORMED,
        3,
    ),
    (
        "a sixth byte",
        CODE,
        37,
        &[
            0x0A, 0x0B, 0x01, 0x09, 0x00, 0x41, 0xAA, 0x80, 0x80, 0x80, 0x80, 0x00, 0x0B,
        ],
        "10",
        MALFORMED,
        3,
    ),
    (
        "a `nop` before it",
        CODE,
        37,
        &[0x0A, 0x07, 0x01, 0x05, 0x00, 0x01, 0x41, 0x2A, 0x0B],
        "10",
        "call done 42 used 2 output \n",
        0,
    ),
    (
        "an end before the end",
        CODE,
        37,
        &[0x0A, 0x07, 0x01, 0x05, 0x00, 0x41, 0x2A, 0x0B, 0x0B],
        "10",
        MALFORMED,
        3,
    ),
    (
        "a size one too large",
        TYPES + 1,
        TYPES + 2,
        &[0x06],
        "10",
        MALFORMED,
        3,
    ),
    (
        "a custom section",
        TYPES,
        TYPES,
        &[0x00, 0x01, 0x00],
        "10",
        DONE,
        0,
    ),
    ("a byte behind it", 37, 37, &[0x00], "10", MALFORMED, 3),
];

/// What the words answer over one file, and what they write where there is so much room.
pub fn answered(
    alloc: Global,
    words: &[&str],
    file: &[u8],
    room: usize,
) -> Result<(u8, Vec<u8>), Fail> {
    let owned = owned(alloc, words)?;
    let mut files = Vec::new(alloc);
    files.push((
        String::from_str(alloc, "m.wasm")?,
        Vec::from_slice(alloc, file)?,
    ))?;
    let mut shelf = MemShelf::new(files);
    let mut out = MemSink::with_room(alloc, room)?;
    let status = answer(alloc, &owned, &mut shelf, &mut out);
    Ok((status, Vec::from_slice(alloc, out.bytes())?))
}

/// The module with other bytes in the place of those from `start` to `end`.
pub fn replaced(
    alloc: Global,
    start: usize,
    end: usize,
    other: &[u8],
) -> Result<Vec<u8>, AllocError> {
    let mut bytes = Vec::new(alloc);
    bytes.extend_from_slice(ANSWER.get(..start).unwrap_or(&[]))?;
    bytes.extend_from_slice(other)?;
    bytes.extend_from_slice(ANSWER.get(end..).unwrap_or(&[]))?;
    Ok(bytes)
}

/// The module whose section of code begins so, and whose body has so many constants 1 and then so many
/// additions.
fn long_module(
    alloc: Global,
    head: &[u8],
    constants: usize,
    additions: usize,
) -> Result<Vec<u8>, AllocError> {
    let mut bytes = Vec::new(alloc);
    bytes.extend_from_slice(&ANSWER[..CODE])?;
    bytes.extend_from_slice(head)?;
    for _ in 0..constants {
        bytes.extend_from_slice(&[0x41, 0x01])?;
    }
    for _ in 0..additions {
        bytes.push(0x6A)?;
    }
    bytes.push(0x0B)?;
    Ok(bytes)
}

#[test]
fn calls_of_modules(rt: HostRuntime) -> Result<(), Fail> {
    let alloc = rt.alloc();
    for (name, start, end, other, fuel, line, status) in ROWS {
        let file = replaced(alloc, start, end, other)?;
        let (answer, written) = answered(alloc, &["call", "m.wasm", "", fuel], &file, 100)?;
        assert_eq!(rt; written.as_slice(), line.as_bytes(), "{name}");
        assert_eq!(rt; answer, status, "{name}");
    }
    for len in 0..ANSWER.len() {
        let (answer, written) = answered(
            alloc,
            &["call", "m.wasm", "", "10"],
            &ANSWER[..len],
            100,
        )?;
        // The header alone and the section of types behind it are modules.
        let line = if len == TYPES || len == FUNCTIONS {
            "no main\n"
        } else {
            MALFORMED
        };
        assert_eq!(rt; written.as_slice(), line.as_bytes(), "{len} bytes");
        assert_eq!(rt; answer, 3, "{len} bytes");
    }
    Ok(())
}

#[test]
fn limits_of_a_call(rt: HostRuntime) -> Result<(), Fail> {
    let alloc = rt.alloc();
    let most = long_module(
        alloc,
        &[
            0x0A, 0x86, 0x80, 0x8C, 0x00, 0x01, 0x81, 0x80, 0x8C, 0x00, 0x00,
        ],
        65_536,
        65_535,
    )?;
    let more = long_module(
        alloc,
        &[
            0x0A, 0x89, 0x80, 0x8C, 0x00, 0x01, 0x84, 0x80, 0x8C, 0x00, 0x00,
        ],
        65_537,
        65_536,
    )?;
    let left = long_module(
        alloc,
        &[
            0x0A, 0x89, 0x80, 0x88, 0x00, 0x01, 0x84, 0x80, 0x88, 0x00, 0x00,
        ],
        65_537,
        0,
    )?;
    let full = vec![in alloc; 0; 4_194_304]?;
    let over = vec![in alloc; 0; 4_194_305]?;
    let rows: [(&[u8], &str, u8); 5] = [
        (&most, "call done 65536 used 131071 output \n", 0),
        (&more, "call trap stack exhausted used 65537\n", 1),
        (&left, UNTYPED, 3),
        (&full, MALFORMED, 3),
        (&over, "too long\n", 3),
    ];
    for (file, line, status) in rows {
        let (answer, written) = answered(alloc, &["call", "m.wasm", "", "1000000"], file, 100)?;
        assert_eq!(rt; written.as_slice(), line.as_bytes());
        assert_eq!(rt; answer, status, "{line}");
    }
    Ok(())
}

/// A shelf that holds the module.
fn shelf(alloc: Global) -> Result<MemShelf, AllocError> {
    let mut files = Vec::new(alloc);
    files.push((
        String::from_str(alloc, "m.wasm")?,
        Vec::from_slice(alloc, &ANSWER)?,
    ))?;
    Ok(MemShelf::new(files))
}

#[test]
fn each_call_of_the_outside_fails_in_turn(rt: HostRuntime) -> Result<(), Fail> {
    let alloc = rt.alloc();
    let commands: [(&[&str], &str); 2] = [
        (&["call", "m.wasm", "", "10"], DONE),
        (&["check", "m.wasm"], "valid\n"),
    ];
    for (words, line) in commands {
        let words = owned(alloc, words)?;
        let rows: [(&[u32], &[u32], u8, &str); 6] = [
            (&[0], &[], 4, "read fault\n"),
            (&[1], &[], 4, "read fault\n"),
            (&[2], &[], 4, "read fault\n"),
            (&[3], &[1], 0, line),
            (&[], &[0], 5, ""),
            (&[0], &[0], 5, ""),
        ];
        for (reads, writes, status, line) in rows {
            let mut shelf = FailShelf::new(shelf(alloc)?, Vec::from_slice(alloc, reads)?);
            let inner = MemSink::with_room(alloc, 100)?;
            let mut out = FailSink::new(inner, Vec::from_slice(alloc, writes)?);
            assert_eq!(rt;
                answer(alloc, &words, &mut shelf, &mut out),
                status,
                "{reads:?}"
            );
            assert_eq!(rt; out.inner().bytes(), line.as_bytes(), "{reads:?}");
        }
    }
    Ok(())
}

/// The words as the program gets them.
pub fn owned(alloc: Global, words: &[&str]) -> Result<Vec<String>, AllocError> {
    let mut owned = Vec::new(alloc);
    for word in words {
        owned.push(String::from_str(alloc, word)?)?;
    }
    Ok(owned)
}
