use super::*;
use faaslet_meaning::ValType;
use std::test::Fail;

#[test]
fn spellings_of_numbers(rt: HostRuntime) -> Result<(), Fail> {
    let unsigned: [(&[u8], Result<(u32, usize), Malformed>); 6] = [
        (&[0x2A, 0xFF], Ok((42, 1))),
        (&[0x80, 0x80, 0x80, 0x80, 0x00], Ok((0, 5))),
        (&[0xFF, 0xFF, 0xFF, 0xFF, 0x0F], Ok((4_294_967_295, 5))),
        (&[0x80, 0x80, 0x80, 0x80, 0x10], Err(Malformed)),
        (&[0x80, 0x80, 0x80, 0x80, 0x80, 0x00], Err(Malformed)),
        (&[0x80], Err(Malformed)),
    ];
    for (bytes, number) in unsigned {
        assert_eq!(rt; read_u32(bytes), number, "{bytes:?}");
        assert_eq!(rt; u32_at(bytes).is_ok(), number.is_ok(), "{bytes:?}");
    }
    let signed: [(&[u8], Result<(i32, usize), Malformed>); 7] = [
        (&[0xAA, 0x80, 0x00], Ok((42, 3))),
        (&[0x7F], Ok((-1, 1))),
        (&[0xC0, 0x00], Ok((64, 2))),
        (&[0x80, 0x80, 0x80, 0x80, 0x78], Ok((-2_147_483_648, 5))),
        (&[0xFF, 0xFF, 0xFF, 0xFF, 0x07], Ok((2_147_483_647, 5))),
        (&[0xFF, 0xFF, 0xFF, 0xFF, 0x0F], Err(Malformed)),
        (&[], Err(Malformed)),
    ];
    for (bytes, number) in signed {
        assert_eq!(rt; read_s32(bytes), number, "{bytes:?}");
        assert_eq!(rt; s32_at(bytes).is_ok(), number.is_ok(), "{bytes:?}");
    }
    let long: [(&[u8], Result<(i64, usize), Malformed>); 4] = [
        (&[0xC0, 0xBB, 0x78], Ok((-123_456, 3))),
        (
            &[0x80, 0x80, 0x80, 0x80, 0x80, 0x80, 0x80, 0x80, 0x80, 0x7F],
            Ok((-9_223_372_036_854_775_808, 10)),
        ),
        (
            &[0xFF, 0xFF, 0xFF, 0xFF, 0xFF, 0xFF, 0xFF, 0xFF, 0xFF, 0x00],
            Ok((9_223_372_036_854_775_807, 10)),
        ),
        (
            &[0x80, 0x80, 0x80, 0x80, 0x80, 0x80, 0x80, 0x80, 0x80, 0x01],
            Err(Malformed),
        ),
    ];
    for (bytes, number) in long {
        assert_eq!(rt; read_s64(bytes), number, "{bytes:?}");
        assert_eq!(rt; s64_at(bytes).is_ok(), number.is_ok(), "{bytes:?}");
    }
    assert_eq!(rt; byte_at(&[1, 2])?.0, 1);
    assert_eq!(rt; val_type_at(&[0x7C, 2])?.0, ValType::F64);
    Ok(())
}

/// How many groups of locals and how many instructions a body has; none where the bytes are no body.
fn sizes(rt: HostRuntime, bytes: &[u8]) -> Result<Option<(usize, usize)>, BodyFault> {
    match read_body(rt.alloc(), bytes) {
        Ok(body) => Ok(Some((body.locals.as_slice().len(), body.code.as_slice().len()))),
        Err(BodyFault::Malformed) => Ok(None),
        Err(BodyFault::Want) => Err(BodyFault::Want),
    }
}

#[test]
fn spellings_of_bodies(rt: HostRuntime) -> Result<(), Fail> {
    let bodies: [&[u8]; 4] = [
        &[0x00, 0x41, 0x2A, 0x0B],
        // A block with a loop and an if with two branches in it.
        &[
            0x00, 0x02, 0x40, 0x03, 0x40, 0x0C, 0x00, 0x0B, 0x41, 0x01, 0x04, 0x7F, 0x41, 0x02,
            0x05, 0x41, 0x03, 0x0B, 0x1A, 0x0B, 0x0B,
        ],
        // Two f32 locals, a table of labels, a load and a float.
        &[
            0x01, 0x02, 0x7D, 0x0E, 0x02, 0x00, 0x01, 0x00, 0x28, 0x02, 0x08, 0x43, 0x00, 0x00,
            0x80, 0x3F, 0x0B,
        ],
        // 2^32 - 1 locals.
        &[
            0x02, 0x80, 0x80, 0x80, 0x80, 0x08, 0x7F, 0xFF, 0xFF, 0xFF, 0xFF, 0x07, 0x7F, 0x0B,
        ],
    ];
    let counts = [(0, 2), (0, 13), (1, 4), (2, 1)];
    for (bytes, count) in bodies.iter().zip(counts) {
        assert_eq!(rt; sizes(rt, bytes)?, Some(count), "{bytes:?}");
    }
    let (code, rest) = expression_at(rt.alloc(), &[0x41, 0x2A, 0x0B, 0x07])?;
    assert_eq!(rt; (code.as_slice().len(), rest.len()), (2, 1));
    Ok(())
}

#[test]
fn bytes_that_are_no_body(rt: HostRuntime) -> Result<(), Fail> {
    let refused: [&[u8]; 9] = [
        &[],
        // The end is missing, and one comes too early.
        &[0x00, 0x41, 0x2A],
        &[0x00, 0x0B, 0x41, 0x2A, 0x0B],
        // An `else` in a block, and a second one in an if.
        &[0x00, 0x02, 0x40, 0x05, 0x0B, 0x0B],
        &[0x00, 0x04, 0x40, 0x05, 0x05, 0x0B, 0x0B],
        // `memory.grow` of a second memory, and no opcode.
        &[0x00, 0x40, 0x01, 0x0B],
        &[0x00, 0xC0, 0x0B],
        // 2^32 locals, and a claim of as many groups.
        &[
            0x02, 0x80, 0x80, 0x80, 0x80, 0x08, 0x7F, 0x80, 0x80, 0x80, 0x80, 0x08, 0x7F, 0x0B,
        ],
        &[0xFF, 0xFF, 0xFF, 0xFF, 0x0F, 0x01, 0x7F, 0x0B],
    ];
    for bytes in refused {
        assert_eq!(rt; sizes(rt, bytes)?, None, "{bytes:?}");
    }
    Ok(())
}
