use faaslet_meaning::{ExportKind, Limits, ValType};
use std::alloc::Global;
use std::test::Fail;
use wasm_decode::*;

const HEADER: &[u8] = &[0x00, 0x61, 0x73, 0x6D, 0x01, 0x00, 0x00, 0x00];

/// From nothing to an i32.
pub const TYPES: &[u8] = &[0x01, 0x05, 0x01, 0x60, 0x00, 0x01, 0x7F];

pub const FUNCTIONS: &[u8] = &[0x03, 0x02, 0x01, 0x00];

/// Function 0 as `main`.
const EXPORTS: &[u8] = &[0x07, 0x08, 0x01, 0x04, 0x6D, 0x61, 0x69, 0x6E, 0x00, 0x00];

/// One body, which is the constant 42.
const CODE: &[u8] = &[0x0A, 0x06, 0x01, 0x04, 0x00, 0x41, 0x2A, 0x0B];

/// A custom section named `a`, with one byte.
const CUSTOM: &[u8] = &[0x00, 0x03, 0x01, 0x61, 0xFF];

/// The sections, and what is answered of the header and them; `None` is the module.
const ROWS: [(&str, &[&[u8]], Option<DecodeFault>); 34] = [
    ("nothing", &[], None),
    ("one function", &[TYPES, FUNCTIONS, EXPORTS, CODE], None),
    (
        "custom sections anywhere",
        &[CUSTOM, TYPES, CUSTOM, CUSTOM, FUNCTIONS, CODE, CUSTOM],
        None,
    ),
    (
        "a count with no types behind it",
        &[&[0x01, 0x05, 0xFF, 0xFF, 0xFF, 0xFF, 0x0F]],
        Some(DecodeFault::Malformed),
    ),
    (
        "a name that is not UTF-8",
        &[&[0x00, 0x02, 0x01, 0xFF]],
        Some(DecodeFault::Malformed),
    ),
    ("no name", &[&[0x00, 0x00]], Some(DecodeFault::Malformed)),
    ("types twice", &[TYPES, TYPES], Some(DecodeFault::Malformed)),
    (
        "functions before types",
        &[FUNCTIONS, TYPES, EXPORTS, CODE],
        Some(DecodeFault::Malformed),
    ),
    ("the id 12", &[&[0x0C, 0x00]], Some(DecodeFault::Malformed)),
    ("no code", &[TYPES, FUNCTIONS], Some(DecodeFault::Malformed)),
    ("no functions", &[TYPES, CODE], Some(DecodeFault::Malformed)),
    (
        "a size one short",
        &[&[0x01, 0x04, 0x01, 0x60, 0x00, 0x01, 0x7F]],
        Some(DecodeFault::Malformed),
    ),
    (
        "a size one long",
        &[&[0x01, 0x06, 0x01, 0x60, 0x00, 0x01, 0x7F], CUSTOM],
        Some(DecodeFault::Malformed),
    ),
    (
        "a byte behind the types",
        &[&[0x01, 0x06, 0x01, 0x60, 0x00, 0x01, 0x7F, 0x00]],
        Some(DecodeFault::Malformed),
    ),
    (
        "a byte behind the start",
        &[&[0x08, 0x02, 0x00, 0x00]],
        Some(DecodeFault::Malformed),
    ),
    (
        "a byte behind a body",
        &[
            TYPES,
            FUNCTIONS,
            &[0x0A, 0x07, 0x01, 0x05, 0x00, 0x41, 0x2A, 0x0B, 0x0B],
        ],
        Some(DecodeFault::Malformed),
    ),
    (
        "no function type",
        &[&[0x01, 0x04, 0x01, 0x61, 0x00, 0x00]],
        Some(DecodeFault::Malformed),
    ),
    (
        "an f32 parameter",
        &[&[0x01, 0x05, 0x01, 0x60, 0x01, 0x7D, 0x00]],
        Some(DecodeFault::Float),
    ),
    (
        "an f64 result",
        &[&[0x01, 0x05, 0x01, 0x60, 0x00, 0x01, 0x7C]],
        Some(DecodeFault::Float),
    ),
    (
        "an imported f32",
        &[&[0x02, 0x06, 0x01, 0x00, 0x00, 0x03, 0x7D, 0x00]],
        Some(DecodeFault::Float),
    ),
    (
        "a global f64",
        &[&[0x06, 0x06, 0x01, 0x7C, 0x00, 0x41, 0x2A, 0x0B]],
        Some(DecodeFault::Float),
    ),
    (
        "a global that begins as a float",
        &[&[
            0x06, 0x09, 0x01, 0x7F, 0x00, 0x43, 0x00, 0x00, 0x00, 0x00, 0x0B,
        ]],
        Some(DecodeFault::Float),
    ),
    (
        "elements at a float",
        &[&[
            0x09, 0x09, 0x01, 0x00, 0x43, 0x00, 0x00, 0x00, 0x00, 0x0B, 0x00,
        ]],
        Some(DecodeFault::Float),
    ),
    (
        "data at a float",
        &[&[
            0x0B, 0x09, 0x01, 0x00, 0x43, 0x00, 0x00, 0x00, 0x00, 0x0B, 0x00,
        ]],
        Some(DecodeFault::Float),
    ),
    (
        "an f32 local",
        &[
            TYPES,
            FUNCTIONS,
            EXPORTS,
            &[0x0A, 0x08, 0x01, 0x06, 0x01, 0x01, 0x7D, 0x41, 0x2A, 0x0B],
        ],
        Some(DecodeFault::Float),
    ),
    (
        "the same without its last byte",
        &[
            TYPES,
            FUNCTIONS,
            EXPORTS,
            &[0x0A, 0x08, 0x01, 0x06, 0x01, 0x01, 0x7D, 0x41, 0x2A],
        ],
        Some(DecodeFault::Malformed),
    ),
    (
        "a table of 65,537 elements",
        &[&[0x04, 0x06, 0x01, 0x70, 0x00, 0x81, 0x80, 0x04]],
        Some(DecodeFault::Limit(Which::Table)),
    ),
    (
        "a float and such a table",
        &[
            &[0x01, 0x05, 0x01, 0x60, 0x01, 0x7D, 0x00],
            &[0x04, 0x06, 0x01, 0x70, 0x00, 0x81, 0x80, 0x04],
        ],
        Some(DecodeFault::Float),
    ),
    (
        "49,999 locals and a parameter",
        &[
            &[0x01, 0x05, 0x01, 0x60, 0x01, 0x7F, 0x00],
            FUNCTIONS,
            &[0x0A, 0x08, 0x01, 0x06, 0x01, 0xCF, 0x86, 0x03, 0x7F, 0x0B],
        ],
        None,
    ),
    (
        "50,000 locals and a parameter",
        &[
            &[0x01, 0x05, 0x01, 0x60, 0x01, 0x7F, 0x00],
            FUNCTIONS,
            &[0x0A, 0x08, 0x01, 0x06, 0x01, 0xD0, 0x86, 0x03, 0x7F, 0x0B],
        ],
        Some(DecodeFault::Limit(Which::Locals)),
    ),
    (
        "50,000 locals of a function without a type",
        &[
            FUNCTIONS,
            &[0x0A, 0x08, 0x01, 0x06, 0x01, 0xD0, 0x86, 0x03, 0x7F, 0x0B],
        ],
        None,
    ),
    (
        "50,001 locals in two groups, of the second function",
        &[
            &[0x03, 0x03, 0x02, 0x00, 0x00],
            &[
                0x0A, 0x0D, 0x02, 0x02, 0x00, 0x0B, 0x08, 0x02, 0xCF, 0x86, 0x03, 0x7F, 0x02, 0x7E,
                0x0B,
            ],
        ],
        Some(DecodeFault::Limit(Which::Locals)),
    ),
    (
        "an imported table of 65,537 elements",
        &[&[
            0x02, 0x09, 0x01, 0x00, 0x00, 0x01, 0x70, 0x00, 0x81, 0x80, 0x04,
        ]],
        Some(DecodeFault::Limit(Which::Table)),
    ),
    (
        "tables of 65,536 elements",
        &[
            &[
                0x02, 0x09, 0x01, 0x00, 0x00, 0x01, 0x70, 0x00, 0x80, 0x80, 0x04,
            ],
            &[
                0x04, 0x0A, 0x01, 0x70, 0x01, 0x80, 0x80, 0x04, 0x81, 0x80, 0x80, 0x04,
            ],
        ],
        None,
    ),
];

/// The header, and these sections.
pub fn file(alloc: Global, sections: &[&[u8]]) -> Result<Vec<u8>, Fail> {
    let mut bytes = Vec::from_slice(alloc, HEADER)?;
    for section in sections {
        bytes.extend_from_slice(section)?;
    }
    Ok(bytes)
}

/// Why the bytes are refused, where they are.
pub fn fault(alloc: Global, bytes: &[u8]) -> Option<DecodeFault> {
    decode(alloc, bytes).err()
}

#[test]
fn answers_of_files(rt: HostRuntime) -> Result<(), Fail> {
    for (name, sections, expected) in ROWS {
        let bytes = file(rt.alloc(), sections)?;
        assert_eq!(rt; fault(rt.alloc(), &bytes), expected, "{name}");
    }
    Ok(())
}

#[test]
fn files_cut_short(rt: HostRuntime) -> Result<(), Fail> {
    let bytes = file(rt.alloc(), &[TYPES, FUNCTIONS, EXPORTS, CODE])?;
    for len in 0..bytes.len() {
        let whole = len == 8 || len == 15;
        let expected = if whole {
            None
        } else {
            Some(DecodeFault::Malformed)
        };
        assert_eq!(rt; fault(rt.alloc(), &bytes[..len]), expected, "{len}");
    }
    Ok(())
}

/// One of each section.
const EACH: [&[u8]; 11] = [
    &[0x01, 0x08, 0x02, 0x60, 0x00, 0x01, 0x7F, 0x60, 0x00, 0x00],
    // A function, a table, a memory and a global, of the module `m`.
    &[
        0x02, 0x1E, 0x04, 0x01, 0x6D, 0x01, 0x66, 0x00, 0x01, 0x01, 0x6D, 0x01, 0x74, 0x01, 0x70,
        0x00, 0x01, 0x01, 0x6D, 0x01, 0x6D, 0x02, 0x01, 0x01, 0x02, 0x01, 0x6D, 0x01, 0x67, 0x03,
        0x7F, 0x00,
    ],
    FUNCTIONS,
    &[0x04, 0x04, 0x01, 0x70, 0x00, 0x0A],
    &[0x05, 0x04, 0x01, 0x01, 0x01, 0x02],
    &[0x06, 0x06, 0x01, 0x7E, 0x01, 0x42, 0x2A, 0x0B],
    EXPORTS,
    &[0x08, 0x01, 0x01],
    &[0x09, 0x07, 0x01, 0x00, 0x41, 0x00, 0x0B, 0x01, 0x00],
    CODE,
    &[0x0B, 0x07, 0x01, 0x00, 0x41, 0x00, 0x0B, 0x01, 0xFF],
];

#[test]
fn each_section(rt: HostRuntime) -> Result<(), Fail> {
    let module = decode(rt.alloc(), &file(rt.alloc(), &EACH)?)?;
    let [first, second] = module.types.as_slice() else {
        panic!(rt; "types");
    };
    assert_eq!(rt;
        (
            first.params.as_slice().len(),
            second.results.as_slice().len()
        ),
        (0, 0)
    );
    assert_eq!(rt; first.results.as_slice(), [ValType::I32].as_slice());
    assert_eq!(rt; module.imports.as_slice().len(), 4);
    assert_eq!(rt; module.functions.as_slice(), [0].as_slice());
    assert_eq!(rt;
        module.tables.as_slice(),
        [Limits { min: 10, max: None }].as_slice()
    );
    assert_eq!(rt;
        module.memories.as_slice(),
        [Limits {
            min: 1,
            max: Some(2)
        }]
        .as_slice()
    );
    let [global] = module.globals.as_slice() else {
        panic!(rt; "globals");
    };
    assert_eq!(rt;
        (global.kind.value, global.kind.mutable),
        (ValType::I64, true)
    );
    let [export] = module.exports.as_slice() else {
        panic!(rt; "exports");
    };
    assert_eq!(rt; (export.kind, export.index), (ExportKind::Function, 0));
    assert_eq!(rt; export.name.as_slice(), b"main".as_slice());
    assert_eq!(rt; module.start, Some(1));
    let [element] = module.elements.as_slice() else {
        panic!(rt; "elements");
    };
    assert_eq!(rt; element.functions.as_slice(), [0].as_slice());
    assert_eq!(rt; module.bodies.as_slice().len(), 1);
    let [segment] = module.segments.as_slice() else {
        panic!(rt; "segments");
    };
    assert_eq!(rt; segment.bytes.as_slice(), [0xFF].as_slice());
    Ok(())
}
