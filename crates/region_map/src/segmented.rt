//! Linear memory in segments.

ghost use Rattle.std.specs.Prelude.{◌≡◌, ◌*◌, ◌<◌, ◌≤◌, length, [], false, IsTrue, IfOk, OnOk, OnErr, vec_capacity};
ghost use Rattle.faaslet_meaning.specs.LoadStore.{bytes_of};
ghost use Rattle.faaslet_meaning.specs.Memory.{IsMemory, IsPrivate, page_size, pages_of, lies_in, put, may_grow, grown, may_map, with_map, mappings, mapping_limit, grant_limit, unmapped};
ghost use Rattle.private_pages.specs.Pages.{ArePages};
ghost use Rattle.region_map.specs.Segments.{backing_of, one_segment, IsRestoredTo, IsSetBack};

use crate::segments::{self, Mapping, Spot};
use faaslet_meaning::{Full, Home, Linear, MapFull, Outside, Piece};
use private_pages::{Image, PrivatePages};
use std::alloc::{AllocError, Global};
use std::marker::Model;

/// The bytes of a page.
const PAGE: u64 = 65_536;

/// The most pages of a memory.
const PAGE_LIMIT: u32 = 65_536;

/// The most replicas that are mapped.
const MAPPING_LIMIT: usize = 16;

/// Linear memory: a private segment, and behind it replicas with private segments between them. The
/// bytes of the private segments are kept one after the other; of a replica only its place and its
/// pages are.
#[derive(Drop)]
pub struct SegmentedMemory<'i> {
    first: u32,
    mappings: Vec<Mapping>,
    pages: u32,
    bytes: PrivatePages<'i>,
}

impl<'i> Model for SegmentedMemory<'i> {
    ghost use Rattle.region_map.specs.Segments.{Segmented};

    ghost Value = { Segmented };

    ghost use Rattle.region_map.specs.SegmentedMemory.{memory_in, IsSegmented};

    ghost view = { memory_in };

    ghost invariant = { IsSegmented };
}

impl<'i> SegmentedMemory<'i> {
    /// These pages as one segment, and room for every replica that may be mapped.
    pub fn new(alloc: Global, pages: PrivatePages<'i>) -> Result<SegmentedMemory<'i>, AllocError>
        ensures { IfOk result (λ m. m ≡ one_segment pages.entry) }
    {
        let mappings = Vec::with_capacity(alloc, MAPPING_LIMIT)?;
        let count = pages.pages();
        Ok(SegmentedMemory {
            first: count,
            mappings,
            pages: count,
            bytes: pages,
        })
    }

    /// For how many private pages there is room.
    pub fn room(&self) -> u32
        ensures { result ≡ self.now.room }
    {
        self.bytes.room()
    }

    /// How many private pages were written since the last `restore` or `reset`.
    pub fn dirty(&self) -> u32
        ensures { result ≡ self.now.dirty }
    {
        self.bytes.dirty()
    }

    /// The work of the pool that the private pages are on.
    pub fn work(&self) -> u64
        ensures { result ≡ self.now.work }
    {
        self.bytes.work()
    }

    /// Takes the content of an image as one private segment, and a quota. Every mapping ends.
    pub fn restore(&mut self, image: &'i Image, quota: u32)
        requires within { image.now.pages ≤ quota }
        requires roomy { quota ≤ self.old.room }
        ensures restored { IsRestoredTo self.old image.now quota self.new }
        ensures sound { IsMemory self.new.memory }
    {
        self.bytes.restore(image, quota);
        self.first = alone(&mut self.mappings, &self.bytes);
        self.pages = self.first;
    }

    /// Takes the content of the image that was restored last as one private segment, which without
    /// one has no page. Every mapping ends.
    pub fn reset(&mut self)
        ensures reset { IsSetBack self.old self.new }
        ensures sound { IsMemory self.new.memory }
    {
        self.bytes.reset();
        self.first = alone(&mut self.mappings, &self.bytes);
        self.pages = self.first;
    }
}

/// Ends every mapping, and answers how many private pages there are.
fn alone(mappings: &mut Vec<Mapping>, bytes: &PrivatePages<'_>) -> u32
    ensures none { mappings.new.items ≡ [] }
    ensures count { result ≡ bytes.now.content.pages }
    ensures sound { ArePages bytes.now }
    ensures capacity { vec_capacity mappings.old ≤ vec_capacity mappings.new }
{
    mappings.clear();
    bytes.pages()
}

impl<'i> Linear for SegmentedMemory<'i> {
    ghost memory = { λ m. m.memory };

    ghost backing = { λ m. backing_of m };

    #[inline(always)]
    fn pages(&self) -> u32 {
        self.pages
    }

    #[inline(always)]
    fn check(&self, addr: u64, len: u64) -> Result<(), Outside> {
        if addr.saturating_add(len) <= u64::from(self.pages) * PAGE {
            Ok(())
        } else {
            Err(Outside)
        }
    }

    fn piece_at(&self, addr: u64, len: u64) -> Piece {
        match segments::spot_of(self.first, &self.mappings, addr) {
            Some(Spot::Private { left, .. }) => Piece {
                len: len.min(left),
                home: Home::Private,
            },
            Some(Spot::Shared { place, off, left }) => Piece {
                len: len.min(left),
                home: Home::Shared { place, off },
            },
            None => unreachable!(),
        }
    }

    fn read_private(&self, addr: u64, buf: &mut [u8]) {
        let first = self.first;
        if buf.is_empty() {
            return;
        }
        match segments::place_of(first, &self.mappings, addr, buf.len() as u64) {
            Some(at) => self.bytes.read(at, buf),
            None => unreachable!(),
        }
    }

    fn write_private(&mut self, addr: u64, bytes: &[u8])
        requires inside { IsTrue (lies_in self.old.memory addr (length bytes.now)) }
        requires private { IsPrivate self.old.memory addr (length bytes.now) }
        ensures put { self.new.memory ≡ put self.old.memory addr bytes.now }
        ensures sound { IsMemory self.new.memory }
        ensures kept { backing_of self.new ≡ backing_of self.old }
    {
        let first = self.first;
        if bytes.is_empty() {
            return;
        }
        match segments::place_of(first, &self.mappings, addr, bytes.len() as u64) {
            Some(at) => self.bytes.write(at, bytes),
            None => unreachable!(),
        }
    }

    #[inline(always)]
    fn read_number(&self, addr: u64, size: u64) -> Option<u64> {
        match segments::place_of(self.first, &self.mappings, addr, size) {
            Some(at) => Some(self.bytes.number(at, size)),
            None => None,
        }
    }

    #[inline(always)]
    fn write_number(&mut self, addr: u64, size: u64, value: u64) -> bool
        requires some { 1 ≤ size }
        requires few { size ≤ 8 }
        ensures written { IsTrue result → IsTrue (lies_in self.old.memory addr size)
            × IsPrivate self.old.memory addr size
            × (self.new.memory ≡ put self.old.memory addr (bytes_of size value)) }
        ensures other { result ≡ false → (self.new.memory ≡ self.old.memory)
            × (IsTrue (lies_in self.old.memory addr size)
            → IsPrivate self.old.memory addr size → ⊥) }
        ensures sound { IsMemory self.new.memory }
        ensures kept { backing_of self.new ≡ backing_of self.old }
    {
        match segments::place_of(self.first, &self.mappings, addr, size) {
            Some(at) => {
                self.bytes.put_number(at, size, value);
                true
            }
            None => false,
        }
    }

    fn grow(&mut self, n: u32, max: u32) -> Result<u32, Full>
        ensures old { IfOk result (λ old. old ≡ pages_of self.old.memory.segments) }
        ensures grown { OnOk result (IsTrue (may_grow self.old.memory n max)
            × (self.new.memory ≡ grown self.old.memory n)) }
        ensures full { OnErr result ((may_grow self.old.memory n max ≡ false)
            × (self.new.memory ≡ self.old.memory)) }
        ensures sound { IsMemory self.new.memory }
        ensures kept { backing_of self.new ≡ backing_of self.old }
    {
        let old = self.pages;
        let most = max.min(PAGE_LIMIT);
        if old > most || n > most - old {
            return Err(Full);
        }
        match self.bytes.grow(n) {
            Ok(_) => {}
            Err(Full) => return Err(Full),
        }
        self.first = segments::lengthen(self.first, &mut self.mappings, n);
        self.pages = old + n;
        Ok(old)
    }

    fn map(&mut self, place: u32, pages: u32) -> Result<u32, MapFull>
        requires place { place < grant_limit }
        requires some { 1 ≤ pages }
        requires few { mappings self.old.memory < mapping_limit }
        ensures address { IfOk result (λ address.
            address ≡ pages_of self.old.memory.segments * page_size) }
        ensures mapped { OnOk result (IsTrue (may_map self.old.memory pages)
            × (self.new.memory ≡ with_map self.old.memory place pages)) }
        ensures full { OnErr result ((may_map self.old.memory pages ≡ false)
            × (self.new.memory ≡ self.old.memory)) }
        ensures sound { IsMemory self.new.memory }
        ensures kept { backing_of self.new ≡ backing_of self.old }
    {
        let old = self.pages;
        if pages > PAGE_LIMIT - old {
            return Err(MapFull);
        }
        let mapping = Mapping {
            place,
            pages,
            behind: None,
        };
        match self.mappings.push(mapping) {
            Ok(()) => {}
            Err(_) => unreachable!(),
        }
        self.pages = old + pages;
        Ok(old * 65_536)
    }

    fn unmap_all(&mut self)
        ensures unmapped { self.new.memory ≡ unmapped self.old.memory }
        ensures sound { IsMemory self.new.memory }
        ensures kept { backing_of self.new ≡ backing_of self.old }
    {
        self.first = alone(&mut self.mappings, &self.bytes);
        self.pages = self.first;
    }
}
