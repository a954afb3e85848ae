//! Calls of modules without host calls in `main`, and modules that no function may have.

use crate::tests::{ANSWER, TYPES, answered};
use std::alloc::{AllocError, Global};
use std::test::Fail;

const ONE_TYPE: &str = "0105016000017f";

const TWO_TYPES: &str = "0108026000017f600000";

pub const ONE_FUNCTION: &str = "03020100";

const TWO_FUNCTIONS: &str = "0303020001";

pub const ONE_PAGE: &str = "0503010001";

const MAIN: &str = "070801046d61696e0000";

const MAIN_AND_INIT: &str = "070f02046d61696e000004696e69740001";

/// The body of `main` alone, which returns 42.
const RETURNS: &str = "0a06010400412a0b";

/// The import of a host call.
const INPUT_SIZE: &str = "02140105666161736d0a696e7075745f73697a650000";

/// 17 pages; `init` stores 7, and `main` returns it and stores 9 in its place.
const KEEP: &[&str] = &[
    TWO_TYPES,
    TWO_FUNCTIONS,
    "0503010011",
    MAIN_AND_INIT,
    "0a1d02100041800828020041800841093602000b",
    "0a0041800841073602000b",
];

/// The sections of a module, the fuel, and the line and the status that are due to a call.
const ROWS: [(&str, &[&str], &str, &str, u8); 18] = [
    (
        "unreachable",
        &[ONE_TYPE, ONE_FUNCTION, MAIN, "0a06010400006a0b"],
        "10",
        "call trap unreachable used 1\n",
        1,
    ),
    (
        "the smallest by minus one",
        &[
            ONE_TYPE,
            ONE_FUNCTION,
            MAIN,
            "0a0d010b00418080808078417f6d0b",
        ],
        "10",
        "call trap integer overflow used 3\n",
        1,
    ),
    (
        "its remainder",
        &[
            ONE_TYPE,
            ONE_FUNCTION,
            MAIN,
            "0a0d010b00418080808078417f6f0b",
        ],
        "10",
        "call done 0 used 3 output \n",
        0,
    ),
    (
        "a load over the end of memory",
        &[
            ONE_TYPE,
            ONE_FUNCTION,
            ONE_PAGE,
            MAIN,
            "0a0c010a0041fcff03290300a70b",
        ],
        "10",
        "call trap out of bounds memory access used 2\n",
        1,
    ),
    (
        "a call of itself",
        &[ONE_TYPE, ONE_FUNCTION, MAIN, "0a0601040010000b"],
        "5000",
        "call trap stack exhausted used 1024\n",
        1,
    ),
    (
        "a segment behind the memory",
        &[
            ONE_TYPE,
            ONE_FUNCTION,
            ONE_PAGE,
            MAIN,
            RETURNS,
            "0b090100418080040b012a",
        ],
        "10",
        "call broken segment\n",
        1,
    ),
    (
        "65 pages",
        &[ONE_TYPE, ONE_FUNCTION, "0503010041", MAIN, RETURNS],
        "10",
        "call broken quota\n",
        1,
    ),
    (
        "what init leaves",
        KEEP,
        "10",
        "call done 7 used 5 output \n",
        0,
    ),
    (
        "each its own fuel",
        KEEP,
        "5",
        "call done 7 used 5 output \n",
        0,
    ),
    ("too little for main", KEEP, "4", "call fuel\n", 1),
    ("too little for init", KEEP, "2", "call broken fuel\n", 1),
    (
        "an init without end",
        &[
            TWO_TYPES,
            TWO_FUNCTIONS,
            MAIN_AND_INIT,
            "0a0e020400412a0b070003400c000b0b",
        ],
        "100",
        "call broken fuel\n",
        1,
    ),
    (
        "a start function that traps",
        &[
            TWO_TYPES,
            TWO_FUNCTIONS,
            MAIN,
            "080101",
            "0a0a020400412a0b0300000b",
        ],
        "10",
        "call broken trap unreachable\n",
        1,
    ),
    ("the header alone", &[], "10", "no main\n", 3),
    (
        "main imported",
        &[ONE_TYPE, INPUT_SIZE, MAIN],
        "10",
        "no main\n",
        3,
    ),
    (
        "an import from elsewhere, and no main",
        &[ONE_TYPE, "02090103656e7601660000"],
        "10",
        "bad import 0\n",
        3,
    ),
    (
        "an init with a result",
        &[
            ONE_TYPE,
            ONE_FUNCTION,
            "070f02046d61696e000004696e69740000",
            RETURNS,
        ],
        "10",
        "bad init\n",
        3,
    ),
    (
        "a host call in init",
        &[
            TWO_TYPES,
            INPUT_SIZE,
            TWO_FUNCTIONS,
            "070f02046d61696e000104696e69740002",
            "0a0c020400412a0b050010001a0b",
        ],
        "10",
        "call broken host call\n",
        1,
    ),
];

/// The module of these sections, in hexadecimal digits.
pub fn module(alloc: Global, sections: &[&str]) -> Result<Vec<u8>, AllocError> {
    let mut bytes = Vec::from_slice(alloc, &ANSWER[..TYPES])?;
    for section in sections {
        match hex::decode(alloc, *section) {
            Ok(section) => bytes.extend_from_slice(&section)?,
            Err(_) => return Err(AllocError),
        }
    }
    Ok(bytes)
}

#[test]
fn modules_are_called(rt: HostRuntime) -> Result<(), Fail> {
    let alloc = rt.alloc();
    for (name, sections, fuel, line, status) in ROWS {
        let file = module(alloc, sections)?;
        let (answer, written) = answered(alloc, &["call", "m.wasm", "", fuel], &file, 100)?;
        assert_eq!(rt; written.as_slice(), line.as_bytes(), "{name}");
        assert_eq!(rt; answer, status, "{name}");
        let (answer, written) = answered(alloc, &["check", "m.wasm"], &file, 100)?;
        assert_eq!(rt; written.as_slice(), "valid\n".as_bytes(), "check: {name}");
        assert_eq!(rt; answer, 0, "check: {name}");
    }
    Ok(())
}
