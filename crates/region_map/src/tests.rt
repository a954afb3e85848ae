ghost use Rattle.std.specs.Prelude.{◌≡◌, IfOk};

use super::*;
use faaslet_meaning::{Full, Home, Linear, MapFull, Outside, Piece};
use std::alloc::{AllocError, Global};
use std::test::Fail;

const PAGE: u64 = 65_536;

/// An image of one page.
fn image_of(alloc: Global, byte: u8) -> Result<Image, AllocError>
    ensures { IfOk result (λ image. image.pages ≡ 1) }
{
    let mut image = Image::new(alloc);
    image.push(&[byte; 65_536])?;
    Ok(image)
}

/// One private page, one of a replica, and a private one.
fn three_pages(alloc: Global) -> Result<SegmentedMemory<'static>, AllocError> {
    let mut pages = PrivatePages::with_room(alloc, 2)?;
    let _ = pages.grow(1);
    let mut memory = SegmentedMemory::new(alloc, pages)?;
    let _ = memory.map(3, 1);
    let _ = memory.grow(1, 3);
    Ok(memory)
}

#[test]
fn numbers_are_private(rt: HostRuntime) -> Result<(), Fail> {
    let mut memory = three_pages(rt.alloc())?;
    let value = 0x8182_8384_8586_8788;
    for (addr, size, there) in [
        (PAGE - 8, 8, true),
        (PAGE - 7, 8, false),
        (PAGE, 1, false),
        (2 * PAGE - 1, 2, false),
        (2 * PAGE, 4, true),
        (3 * PAGE - 3, 3, true),
        (3 * PAGE - 2, 3, false),
        (u64::MAX, 1, false),
    ] {
        assert_eq!(rt; memory.write_number(addr, size, value), there);
        let lowest = value & (u64::MAX >> (64 - 8 * size));
        let read = if there { Some(lowest) } else { None };
        assert_eq!(rt; memory.read_number(addr, size), read);
    }
    Ok(())
}

/// Two bytes, where they are private, and else zeros.
fn two_at(memory: &SegmentedMemory<'_>, addr: u64) -> [u8; 2] {
    let mut bytes = [0; 2];
    if memory.read_number(addr, 2).is_some() {
        memory.read_private(addr, &mut bytes);
    }
    bytes
}

#[test]
fn bytes_are_private(rt: HostRuntime) -> Result<(), Fail> {
    let mut memory = three_pages(rt.alloc())?;
    let addr = 2 * PAGE + 1;
    if memory.read_number(addr, 2).is_some() {
        memory.write_private(addr, &[1, 2]);
    }
    assert_eq!(rt; two_at(&memory, addr), [1, 2]);
    assert_eq!(rt; memory.read_number(addr, 3), Some(0x0201));
    Ok(())
}

#[test]
fn replicas_come_and_go(rt: HostRuntime) -> Result<(), Fail> {
    let mut memory = three_pages(rt.alloc())?;
    assert_eq!(rt;
        (memory.grow(0, 2), memory.grow(1, 9)),
        (Err(Full), Err(Full))
    );
    assert_eq!(rt; memory.check(1, 3 * PAGE), Err(Outside));
    let off = PAGE - 1;
    for (addr, len, home) in [
        (PAGE - 2, 2, Home::Private),
        (2 * PAGE - 1, 1, Home::Shared { place: 3, off }),
        (2 * PAGE, 6, Home::Private),
    ] {
        assert_eq!(rt; memory.check(addr, 6), Ok(()));
        assert_eq!(rt; memory.piece_at(addr, 6), Piece { len, home });
    }
    assert!(rt; memory.write_number(2 * PAGE, 1, 9));
    memory.unmap_all();
    assert_eq!(rt; (memory.pages(), memory.read_number(PAGE, 1)), (2, Some(9)));
    Ok(())
}

#[test]
fn memory_is_set_back(rt: HostRuntime) -> Result<(), Fail> {
    let image = image_of(rt.alloc(), 6)?;
    let pages = PrivatePages::with_room(rt.alloc(), 3)?;
    let mut memory = SegmentedMemory::new(rt.alloc(), pages)?;
    assert_eq!(rt; memory.map(0, 65_537), Err(MapFull));
    assert_eq!(rt; memory.map(0, 1), Ok(0));
    memory.restore(&image, 2);
    assert_eq!(rt; (memory.room(), memory.pages()), (3, 1));
    assert_eq!(rt; memory.grow(1, 9), Ok(1));
    assert!(rt; memory.write_number(0, 1, 9));
    memory.reset();
    assert_eq!(rt;
        (memory.pages(), memory.read_number(0, 2)),
        (1, Some(0x606))
    );
    Ok(())
}
