//! The pages that were written, each in a page of the pool.

ghost use Rattle.std.specs.Prelude.{◌≡◌, ℕ, ◌+◌, ◌≤◌, ◌<◌, true, false, Option, Some, None, All, IfOk, IfSome, IfNone, option_map, length, replicate, set, slice_index_or, vec_capacity};
ghost use Rattle.page_pool.specs.Pool.{page_size, over, IsTaken, IsPool, with_content};
ghost use Rattle.private_pages.specs.Own.{page_of, own_count, AreWhole, IsPut, content_or_zeros};

use page_pool::{Page, PagePool};
use std::alloc::{AllocError, Global};
use std::marker::Model;

/// For each place either nothing or a page of the pool, and the places that have one.
#[derive(Drop)]
pub(crate) struct OwnPages {
    pool: PagePool,
    entries: Vec<Option<Page>>,
    dirty: Vec<u32>,
}

impl Model for OwnPages {
    ghost use Rattle.private_pages.specs.Own.{Own};

    ghost Value = { Own };

    ghost use Rattle.private_pages.specs.OwnPages.{own_in, IsOwn};

    ghost view = { own_in };

    ghost invariant = { IsOwn };
}

impl OwnPages {
    /// A place for each page of the pool, without a page. No page of the pool is taken yet.
    pub(crate) fn new(alloc: Global, pool: PagePool) -> Result<OwnPages, AllocError>
        requires { length pool.free ≡ length pool.contents }
        ensures { IfOk result (λ o. o ≡ record {
          pages = replicate (length pool.contents) None;
          work = pool.work;
        }) }
    {
        let room = pool.free();
        let mut entries = Vec::with_capacity(alloc, room as usize)?;
        'places: for _place in 0..room {
            match entries.push(None) {
                Ok(()) => {}
                Err(_) => unreachable!(),
            }
        }
        let dirty = Vec::with_capacity(alloc, room as usize)?;
        Ok(OwnPages {
            pool,
            entries,
            dirty,
        })
    }

    /// The page at a place.
    #[inline(always)]
    pub(crate) fn page(&self, place: usize) -> Option<&[u8]>
        requires { place < length self.now.pages }
        ensures page { option_map (λ b. b.now) result ≡ page_of self.now place }
        ensures whole { IfSome result (λ b. length b.now ≡ page_size) }
    {
        match &self.entries[place] {
            Some(page) => Some(self.pool.bytes(page)),
            None => None,
        }
    }

    /// Takes a page for a place, with this content, or all zeros.
    pub(crate) fn take(&mut self, place: usize, source: Option<&[u8]>)
        requires inside { place < length self.old.pages }
        requires none { page_of self.old place ≡ None }
        requires whole { IfSome source (λ b. length b.now ≡ page_size) }
        ensures taken { self.new.pages ≡ set self.old.pages place
            (Some (content_or_zeros (option_map (λ b. b.now) source.entry))) }
        ensures work { self.new.work ≤ self.old.work + 2 }
        ensures sound { AreWhole self.new }
    {
        match self.pool.take() {
            Some(page) => {
                set_content(&mut self.pool, &page, source);
                self.entries[place] = Some(page);
                match self.dirty.push(place as u32) {
                    Ok(()) => {}
                    Err(_) => unreachable!(),
                }
            }
            None => unreachable!(),
        }
    }

    /// Puts bytes into the page at a place. Answers whether there is one; else nothing changes.
    #[inline(always)]
    pub(crate) fn put(&mut self, place: usize, from: usize, source: &[u8]) -> bool
        requires inside { place < length self.old.pages }
        requires fits { from + length source.now ≤ page_size }
        ensures put { result ≡ true → IsPut self.old place from source.now self.new }
        ensures none { result ≡ false → (page_of self.old place ≡ None)
            × (self.new ≡ self.old) }
        ensures sound { AreWhole self.new }
    {
        match &self.entries[place] {
            Some(page) => {
                self.pool.put(page, from, source);
                true
            }
            None => false,
        }
    }

    /// Gives every page back.
    pub(crate) fn clear(&mut self)
        ensures none { self.new.pages ≡ replicate (length self.old.pages) None }
        ensures work { self.new.work ≤ self.old.work + own_count self.old.pages }
    {
        'places: while let Some(place) = self.dirty.pop() {
            match self.entries[place as usize].take() {
                Some(page) => self.pool.give(page),
                None => unreachable!(),
            }
        }
    }

    /// How many places have a page.
    pub(crate) fn dirty(&self) -> u32
        ensures { result ≡ own_count self.now.pages }
    {
        self.dirty.len() as u32
    }

    /// How many places there are.
    pub(crate) fn room(&self) -> u32
        ensures { result ≡ length self.now.pages }
    {
        self.entries.len() as u32
    }

    /// The work of the pool.
    pub(crate) fn work(&self) -> u64
        ensures { result ≡ self.now.work }
    {
        self.pool.work()
    }
}

/// Makes these bytes the content of a page, or zeros.
fn set_content(pool: &mut PagePool, page: &Page, source: Option<&[u8]>)
    requires taken { IsTaken pool.old page.now }
    requires whole { IfSome source (λ b. length b.now ≡ page_size) }
    ensures set { pool.new ≡ with_content pool.old page.now
        (content_or_zeros (option_map (λ b. b.now) source.entry)) }
    ensures sound { IsPool pool.new }
{
    match source {
        Some(content) => pool.fill(page, content),
        None => pool.zero(page),
    }
}
