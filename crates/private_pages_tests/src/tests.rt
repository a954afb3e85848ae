//! Each call once on its usual path, with expected values worked out by hand.

ghost use Rattle.std.specs.Prelude.{◌≡◌, ◌+◌, ◌≤◌, IfOk};

use faaslet_meaning::Full;
use page_pool::PagePool;
use private_pages::{Image, PrivatePages};
use std::alloc::{AllocError, Global};
use std::test::Fail;

const PAGE: u64 = 65_536;

#[test]
fn pages_run_out_and_come_back(rt: HostRuntime) -> Result<(), Fail> {
    let mut pool = PagePool::new(rt.alloc(), 2)?;
    assert!(rt; pool.take().is_some());
    let second = pool.take();
    let third = pool.take();
    assert!(rt; third.is_none());
    if let (Some(page), None) = (second, third) {
        pool.give(page);
    }
    assert!(rt; pool.free() == 1);
    Ok(())
}

#[test]
fn content_is_written(rt: HostRuntime) -> Result<(), Fail> {
    let mut pool = PagePool::new(rt.alloc(), 3)?;
    assert!(rt; pool.made() == 0);
    if let Some(page) = pool.take() {
        pool.fill(&page, &[7; 65_536]);
        pool.put(&page, 65_534, &[1, 2]);
        assert!(rt; pool.bytes(&page)[65_533..] == [7, 1, 2]);
        pool.zero(&page);
        assert!(rt; pool.bytes(&page)[65_533..] == [0, 0, 0]);
        pool.give(page);
    }
    assert!(rt; (pool.made(), pool.free(), pool.work()) == (1, 3, 5));
    Ok(())
}

/// A page of zeros, and behind it one of sixes.
fn two_pages(alloc: Global) -> Result<Image, AllocError>
    ensures { IfOk result (λ i. i.pages ≡ 2) }
{
    let mut image = Image::new(alloc);
    image.push(&[0; 65_536])?;
    image.push(&[6; 65_536])?;
    Ok(image)
}

#[test]
fn zero_pages_are_not_kept(rt: HostRuntime) -> Result<(), Fail> {
    let image = two_pages(rt.alloc())?;
    assert!(rt; image.pages() == 2);
    assert!(rt; image.page(0).is_none());
    assert!(rt; image.page(1).is_some());
    Ok(())
}

#[test]
fn written_pages_are_given_back(rt: HostRuntime) -> Result<(), Fail> {
    let mut image = Image::new(rt.alloc());
    image.push(&[0; 65_536])?;
    image.push(&[0; 65_536])?;
    let mut pages = PrivatePages::new(rt.alloc(), PagePool::new(rt.alloc(), 2)?)?;
    pages.restore(&image, 2);
    pages.write(PAGE - 1, &[0xAA, 0xBB]);
    assert!(rt; pages.dirty() == 2);
    let work = pages.work();
    pages.reset();
    assert!(rt; (pages.dirty(), pages.work() <= work.saturating_add(6)) == (0, true));
    pages.write(0, &[1]);
    assert!(rt; pages.dirty() == 1);
    let mut bytes = [7; 2];
    pages.read(0, &mut bytes);
    assert!(rt; bytes == [1, 0]);
    pages.read(PAGE - 1, &mut bytes);
    assert!(rt; bytes == [0, 0]);
    Ok(())
}

#[test]
fn growth_stops_at_the_quota(rt: HostRuntime) -> Result<(), Fail> {
    let image = two_pages(rt.alloc())?;
    let mut pages = PrivatePages::new(rt.alloc(), PagePool::new(rt.alloc(), 4)?)?;
    assert!(rt; (pages.room(), pages.quota(), pages.pages()) == (4, 4, 0));
    pages.restore(&image, 3);
    assert!(rt; (pages.room(), pages.quota(), pages.pages()) == (4, 3, 2));
    pages.write(0, &[1]);
    assert!(rt; pages.grow(1) == Ok(2));
    assert!(rt; pages.grow(1) == Err(Full));
    assert!(rt; pages.grow(0) == Ok(3));
    assert!(rt; pages.dirty() == 1);
    Ok(())
}

/// The number at a place of two pages as they were, once another is put there, and once they are
/// set back.
fn put_and_set_back(alloc: Global, at: u64, size: u64) -> Result<[u64; 3], AllocError>
    requires inside { at + size ≤ 131072 }
    requires few { size ≤ 8 }
{
    let image = two_pages(alloc)?;
    let mut pages = PrivatePages::new(alloc, PagePool::new(alloc, 2)?)?;
    pages.restore(&image, 2);
    let before = pages.number(at, size);
    pages.put_number(at, size, 0x8182_8384_8586_8788);
    let put = pages.number(at, size);
    pages.reset();
    Ok([before, put, pages.number(at, size)])
}

#[test]
fn numbers_are_little_endian(rt: HostRuntime) -> Result<(), Fail> {
    let alloc = rt.alloc();
    let before = 0x0600_0000;
    assert!(rt; put_and_set_back(alloc, PAGE - 8, 8)? == [0, 0x8182_8384_8586_8788, 0]);
    assert!(rt; put_and_set_back(alloc, PAGE - 1, 2)? == [0x0600, 0x8788, 0x0600]);
    assert!(rt; put_and_set_back(alloc, PAGE - 3, 4)? == [before, 0x8586_8788, before]);
    assert!(rt;
        put_and_set_back(alloc, 2 * PAGE - 3, 3)? == [0x0006_0606, 0x0086_8788, 0x0006_0606]
    );
    Ok(())
}
