//! Private pages over a pool.

ghost use Rattle.std.specs.Prelude.{◌≡◌, ℕ, ◌+◌, ◌*◌, ◌<◌, ◌≤◌, ◌++◌, length, [], replicate, Some, IfOk, IfSome, IfNone, OnOk, OnErr, option_map};
ghost use Rattle.faaslet_meaning.specs.LoadStore.{number, bytes_of};
ghost use Rattle.faaslet_meaning.specs.Memory.{page_size, page_limit, over, read_bytes};
ghost use Rattle.private_pages.specs.Pages.{ArePages, fresh_pages, last_content, page_at, clean_page, pages_touched, IsWritten};

use crate::image::Image;
use crate::own::OwnPages;
use crate::words;
use faaslet_meaning::Full;
use page_pool::PagePool;
use std::alloc::{AllocError, Global};
use std::marker::Model;

/// The bytes of a page.
const PAGE: usize = 65_536;

/// Pages of 65,536 bytes: each is that of the image that they are set back to, or zero, until it is
/// first written, and from then on a page of the pool.
#[derive(Drop)]
pub struct PrivatePages<'i> {
    own: OwnPages,
    image: Option<&'i Image>,
    pages: u32,
    quota: u32,
}

impl<'i> Model for PrivatePages<'i> {
    ghost use Rattle.private_pages.specs.Pages.{Pages};

    ghost Value = { Pages };

    ghost use Rattle.private_pages.specs.PrivatePages.{pages_in, IsPrivatePages};

    ghost view = { pages_in };

    ghost invariant = { IsPrivatePages };
}

impl<'i> PrivatePages<'i> {
    /// No page, and room and quota for as many as the pool has, none of which is taken.
    pub fn new(alloc: Global, pool: PagePool) -> Result<PrivatePages<'i>, AllocError>
        requires free { length pool.free ≡ length pool.contents }
        requires few { length pool.contents ≤ page_limit }
        ensures { IfOk result (λ p. p ≡ fresh_pages (length pool.contents) pool.work) }
    {
        let own = OwnPages::new(alloc, pool)?;
        let room = own.room();
        Ok(PrivatePages {
            own,
            image: None,
            pages: 0,
            quota: room,
        })
    }

    /// The same over a pool of its own.
    pub fn with_room(alloc: Global, pages: u32) -> Result<PrivatePages<'i>, AllocError>
        requires { pages ≤ page_limit }
        ensures { IfOk result (λ p. p ≡ fresh_pages pages 0) }
    {
        PrivatePages::new(alloc, PagePool::new(alloc, pages)?)
    }

    /// How many pages there are.
    pub fn pages(&self) -> u32
        ensures count { result ≡ self.now.content.pages }
        ensures sound { ArePages self.now }
    {
        self.pages
    }

    /// How many pages there may be.
    pub fn quota(&self) -> u32
        ensures { result ≡ self.now.quota }
    {
        self.quota
    }

    /// How large a quota may be.
    pub fn room(&self) -> u32
        ensures { result ≡ self.now.room }
    {
        self.own.room()
    }

    /// How many pages of the pool are in use.
    pub fn dirty(&self) -> u32
        ensures { result ≡ self.now.dirty }
    {
        self.own.dirty()
    }

    /// The work of the pool.
    pub fn work(&self) -> u64
        ensures { result ≡ self.now.work }
    {
        self.own.work()
    }

    /// Takes the content of an image, and a quota.
    pub fn restore(&mut self, image: &'i Image, quota: u32)
        requires within { image.now.pages ≤ quota }
        requires roomy { quota ≤ self.old.room }
        ensures content { self.new.content ≡ image.now }
        ensures quota { self.new.quota ≡ quota }
        ensures room { self.new.room ≡ self.old.room }
        ensures last { self.new.last ≡ Some image.now }
        ensures dirty { self.new.dirty ≡ 0 }
        ensures work { self.new.work ≤ self.old.work + self.old.dirty }
        ensures sound { ArePages self.new }
    {
        self.own.clear();
        self.pages = image.pages();
        self.quota = quota;
        self.image = Some(image);
    }

    /// Takes the content of the image that was restored last. Without one no page is left.
    pub fn reset(&mut self)
        ensures content { self.new.content ≡ last_content self.old.last }
        ensures quota { self.new.quota ≡ self.old.quota }
        ensures room { self.new.room ≡ self.old.room }
        ensures last { self.new.last ≡ self.old.last }
        ensures dirty { self.new.dirty ≡ 0 }
        ensures work { self.new.work ≤ self.old.work + self.old.dirty }
        ensures sound { ArePages self.new }
    {
        self.own.clear();
        self.pages = image_pages(self.image);
    }

    /// Appends `n` pages of zeros, and answers how many pages there were.
    pub fn grow(&mut self, n: u32) -> Result<u32, Full>
        ensures old { IfOk result (λ old. old ≡ self.old.content.pages) }
        ensures grown { OnOk result ((self.old.content.pages + n ≤ self.old.quota)
            × (self.new ≡ record self.old {
              content = record {
                pages = self.old.content.pages + n;
                bytes = self.old.content.bytes ++ replicate (n * page_size) 0;
              };
            })) }
        ensures full { OnErr result ((self.old.quota < self.old.content.pages + n)
            × (self.new ≡ self.old)) }
        ensures sound { ArePages self.new }
    {
        let old = self.pages;
        if n > self.quota - old {
            return Err(Full);
        }
        self.pages = old + n;
        Ok(old)
    }

    /// The content of a page; `None` where it is all zero.
    #[inline(always)]
    fn page(&self, place: usize) -> Option<&[u8]>
        requires { place < self.now.content.pages }
        ensures some { IfSome result (λ b. b.now ≡ page_at self.now.content.bytes place) }
        ensures whole { IfSome result (λ b. length b.now ≡ page_size) }
        ensures zero { IfNone result (page_at self.now.content.bytes place ≡ replicate page_size 0) }
    {
        match self.own.page(place) {
            Some(content) => Some(content),
            None => clean(self.image, place),
        }
    }

    /// Copies bytes from inside one page.
    fn read_part(&self, place: usize, from: usize, buf: &mut [u8])
        requires inside { place < self.now.content.pages }
        requires fits { from + length buf.old ≤ page_size }
        ensures { buf.new ≡ read_bytes (place * page_size + from) (length buf.old) self.now.content.bytes }
    {
        let to = from + buf.len();
        match self.page(place) {
            Some(content) => buf.copy_from_slice(&content[from..to]),
            None => buf.fill(0),
        }
    }

    /// Copies bytes from an address on.
    pub fn read(&self, at: u64, buf: &mut [u8])
        requires { at + length buf.old ≤ length self.now.content.bytes }
        ensures { buf.new ≡ read_bytes at (length buf.old) self.now.content.bytes }
    {
        let _pages = self.pages();
        let start = at as usize;
        let mut done = 0;
        while done < buf.len() {
            let place = (start + done) / PAGE;
            let from = (start + done) % PAGE;
            let len = (buf.len() - done).min(PAGE - from);
            self.read_part(place, from, &mut buf[done..done + len]);
            done += len;
        }
    }

    /// Puts bytes inside one page.
    #[inline(always)]
    fn write_part(&mut self, place: usize, from: usize, bytes: &[u8])
        requires inside { place < self.old.content.pages }
        requires fits { from + length bytes.now ≤ page_size }
        ensures written { IsWritten self.old self.new (place * page_size + from) bytes.now 1 }
        ensures sound { ArePages self.new }
    {
        if !self.own.put(place, from, bytes) {
            self.own.take(place, clean(self.image, place));
            if !self.own.put(place, from, bytes) {
                unreachable!()
            }
        }
    }

    /// Puts bytes at an address.
    pub fn write(&mut self, at: u64, bytes: &[u8])
        requires { at + length bytes.now ≤ length self.old.content.bytes }
        ensures written { IsWritten self.old self.new at bytes.now (pages_touched at (length bytes.now)) }
        ensures sound { ArePages self.new }
    {
        let _pages = self.pages();
        let start = at as usize;
        let mut done = 0;
        while done < bytes.len() {
            let place = (start + done) / PAGE;
            let from = (start + done) % PAGE;
            let len = (bytes.len() - done).min(PAGE - from);
            self.write_part(place, from, &bytes[done..done + len]);
            done += len;
        }
    }

    /// The number in so many bytes at an address.
    #[inline(always)]
    pub fn number(&self, at: u64, size: u64) -> u64
        requires inside { at + size ≤ length self.now.content.bytes }
        requires few { size ≤ 8 }
        ensures { result ≡ number (read_bytes at size self.now.content.bytes) }
    {
        let _pages = self.pages();
        let place = at as usize / PAGE;
        let from = at as usize % PAGE;
        let to = from + size as usize;
        if to <= PAGE && size > 0 {
            match self.page(place) {
                Some(content) => words::number_of(&content[from..to]),
                None => 0,
            }
        } else {
            self.number_across(at, size)
        }
    }

    /// Puts the lowest bytes of a number at an address.
    #[inline(always)]
    pub fn put_number(&mut self, at: u64, size: u64, value: u64)
        requires inside { at + size ≤ length self.old.content.bytes }
        requires few { size ≤ 8 }
        ensures written { IsWritten self.old self.new at (bytes_of size value) (pages_touched at size) }
        ensures sound { ArePages self.new }
    {
        let _pages = self.pages();
        let word = value.to_le_bytes();
        let bytes = &word[..size as usize];
        let place = at as usize / PAGE;
        let from = at as usize % PAGE;
        if from + bytes.len() <= PAGE && size > 0 {
            self.write_part(place, from, bytes);
        } else {
            self.write(at, bytes);
        }
    }

    /// The same of a number that may lie in two pages.
    #[inline(never)]
    fn number_across(&self, at: u64, size: u64) -> u64
        requires inside { at + size ≤ length self.now.content.bytes }
        requires few { size ≤ 8 }
        ensures { result ≡ number (read_bytes at size self.now.content.bytes) }
    {
        let mut word = [0; 8];
        self.read(at, &mut word[..size as usize]);
        words::number_of(&word[..size as usize])
    }
}

/// What a page has that was not written; `None` where it is all zero.
#[inline(always)]
fn clean<'a>(image: Option<&'a Image>, place: usize) -> Option<&'a [u8]>
    ensures some { IfSome result (λ b. b.now ≡ clean_page (option_map (λ i. i.now) image.entry) place) }
    ensures whole { IfSome result (λ b. length b.now ≡ page_size) }
    ensures zero { IfNone result (clean_page (option_map (λ i. i.now) image.entry) place ≡ replicate page_size 0) }
{
    match image {
        Some(image) => {
            if place < image.pages() as usize {
                image.page(place)
            } else {
                None
            }
        }
        None => None,
    }
}

/// How many pages an image has, and without one none.
fn image_pages(image: Option<&Image>) -> u32
    ensures { result ≡ (last_content (option_map (λ i. i.now) image.entry)).pages }
{
    match image {
        Some(image) => image.pages(),
        None => 0,
    }
}
