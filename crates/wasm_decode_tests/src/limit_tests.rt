use crate::tests::{FUNCTIONS, TYPES, fault, file};
use std::alloc::Global;
use std::test::*;
use wasm_decode::{DecodeFault, Which};

/// The instructions of a body, and whether they have a float.
const FLOATS: [(&[u8], bool); 29] = [
    (&[0x45], false),
    (&[0x5A], false),
    (&[0x5B], true),
    (&[0x66], true),
    (&[0x67], false),
    (&[0x8A], false),
    (&[0x8B], true),
    (&[0xA6], true),
    (&[0xA7], false),
    (&[0xA8], true),
    (&[0xAB], true),
    (&[0xAC], false),
    (&[0xAD], false),
    (&[0xAE], true),
    (&[0xBF], true),
    (&[0x29, 0x03, 0x00], false),
    (&[0x2A, 0x02, 0x00], true),
    (&[0x2B, 0x03, 0x00], true),
    (&[0x2C, 0x00, 0x00], false),
    (&[0x37, 0x03, 0x00], false),
    (&[0x38, 0x02, 0x00], true),
    (&[0x39, 0x03, 0x00], true),
    (&[0x3A, 0x00, 0x00], false),
    (&[0x02, 0x40, 0x0B], false),
    (&[0x02, 0x7D, 0x0B], true),
    (&[0x03, 0x7C, 0x0B], true),
    (&[0x04, 0x7D, 0x0B], true),
    (&[0x04, 0x7E, 0x05, 0x0B], false),
    (
        &[0x44, 0x00, 0x00, 0x00, 0x00, 0x00, 0x00, 0x00, 0x00],
        true,
    ),
];

#[test]
fn floats_in_bodies(rt: HostRuntime) -> Result<(), Fail> {
    for (instrs, is_float) in FLOATS {
        assert!(rt; instrs.len() < 100);
        let len = instrs.len() as u8;
        let mut bytes = file(rt.alloc(), &[TYPES, FUNCTIONS])?;
        bytes.extend_from_slice(&[0x0A, len + 4, 0x01, len + 2, 0x00])?;
        bytes.extend_from_slice(instrs)?;
        bytes.push(0x0B)?;
        let expected = if is_float {
            Some(DecodeFault::Float)
        } else {
            None
        };
        assert_eq!(rt; fault(rt.alloc(), &bytes), expected, "{instrs:?}");
    }
    Ok(())
}

/// A section's beginning, so many times the same bytes, and its end.
fn repeated(
    alloc: Global,
    begin: &[u8],
    count: usize,
    each: &[u8],
    end: &[u8],
) -> Result<Vec<u8>, Fail> {
    let mut bytes = file(alloc, &[begin])?;
    for _ in 0..count {
        bytes.extend_from_slice(each)?;
    }
    bytes.extend_from_slice(end)?;
    Ok(bytes)
}

#[test]
fn limits_of_many(rt: HostRuntime) -> Result<(), Fail> {
    let alloc = rt.alloc();
    let params = repeated(
        alloc,
        &[0x01, 0x85, 0x08, 0x01, 0x60, 0x80, 0x08],
        1024,
        &[0x7F],
        &[0x00],
    )?;
    assert_eq!(rt; fault(alloc, &params), None);
    let params = repeated(
        alloc,
        &[0x01, 0x86, 0x08, 0x01, 0x60, 0x81, 0x08],
        1025,
        &[0x7F],
        &[0x00],
    )?;
    assert_eq!(rt;
        fault(alloc, &params),
        Some(DecodeFault::Limit(Which::Params))
    );
    let global = [0x7F, 0x00, 0x41, 0x00, 0x0B];
    let globals = repeated(
        alloc,
        &[0x06, 0x83, 0x80, 0x14, 0x80, 0x80, 0x04],
        65_536,
        &global,
        &[],
    )?;
    assert_eq!(rt; fault(alloc, &globals), None);
    let globals = repeated(
        alloc,
        &[0x06, 0x88, 0x80, 0x14, 0x81, 0x80, 0x04],
        65_537,
        &global,
        &[],
    )?;
    assert_eq!(rt;
        fault(alloc, &globals),
        Some(DecodeFault::Limit(Which::Globals))
    );
    Ok(())
}

#[test]
fn long_files(rt: HostRuntime) -> Result<(), Fail> {
    let alloc = rt.alloc();
    let mut bytes = file(alloc, &[&[0x00, 0xF3, 0xFF, 0xFF, 0x01]])?;
    bytes.resize(4_194_304, 0)?;
    assert_eq!(rt; fault(alloc, &bytes), None);
    bytes.push(0)?;
    assert_eq!(rt; fault(alloc, &bytes), Some(DecodeFault::TooLong));
    Ok(())
}
