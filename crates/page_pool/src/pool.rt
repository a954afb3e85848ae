//! Pages that are taken and given back.

ghost use Rattle.std.specs.Prelude.{◌≡◌, ℕ, ◌+◌, ◌<◌, ◌≤◌, ◌∷◌, [], ◌++◌, length, replicate, set, max, IfOk, IfSome, IfNone};
ghost use Rattle.page_pool.specs.Pool.{IsPool, IsTaken, IsFresh, page_size, content_of, worked, with_content, over};

use std::alloc::{AllocError, Global};
use std::marker::Model;

/// The bytes of a page.
const PAGE: usize = 65_536;

/// A page that was taken from a pool. It cannot be copied, and only a pool makes one. One that is
/// dropped is lost to its pool.
#[derive(Drop)]
pub struct Page {
    number: u32,
}

impl Model for Page {
    ghost use Rattle.std.specs.Prelude.{ℕ};

    ghost Value = { ℕ };

    ghost view = { λ p. p.number };
}

/// Pages of 65,536 bytes in one allocation. Its memory is only reserved at first: a page is made,
/// as zeros behind those made before, when it is first taken.
#[derive(Drop)]
pub struct PagePool {
    bytes: Vec<u8>,
    pages: u32,
    made: u32,
    given_back: Vec<u32>,
    work: u64,
}

impl Model for PagePool {
    ghost use Rattle.page_pool.specs.Pool.{Pool};

    ghost Value = { Pool };

    ghost use Rattle.page_pool.specs.PagePool.{pool_in, IsPagePool};

    ghost view = { pool_in };

    ghost invariant = { IsPagePool };
}

impl PagePool {
    /// Room for so many pages, of which none is made or taken. No other call takes memory.
    pub fn new(alloc: Global, pages: u32) -> Result<PagePool, AllocError>
        ensures { IfOk result (λ p. IsFresh p pages) }
    {
        let bytes = Vec::with_capacity(alloc, pages as usize * PAGE)?;
        let given_back = Vec::with_capacity(alloc, pages as usize)?;
        Ok(PagePool {
            bytes,
            pages,
            made: 0,
            given_back,
            work: 0,
        })
    }

    /// A page that is free, with any content. `None` exactly where none is. One that was given back
    /// comes before one that is still to be made.
    pub fn take(&mut self) -> Option<Page>
        ensures taken { IfSome result (λ page. (self.old.free ≡ self.new.free ++ page ∷ [])
            × IsTaken self.new page) }
        ensures none { IfNone result ((self.old.free ≡ []) × (self.new.free ≡ [])) }
        ensures kept { self.new.contents ≡ self.old.contents }
        ensures made { IfSome result (λ page. (page ≤ self.old.made)
            × (self.new.made ≡ max self.old.made (page + 1))) }
        ensures as_made { IfNone result (self.new.made ≡ self.old.made) }
        ensures work { self.new.work ≡ worked self.old.work }
        ensures sound { IsPool self.new }
    {
        self.work = self.work.saturating_add(1);
        if let Some(number) = self.given_back.pop() {
            return Some(Page { number });
        }
        if self.made == self.pages {
            return None;
        }
        let number = self.made;
        let size = (number as usize + 1) * PAGE;
        match self.bytes.resize(size, 0) {
            Ok(()) => {}
            Err(_) => unreachable!(),
        }
        self.made = number + 1;
        Some(Page { number })
    }

    /// Gives a page back.
    pub fn give(&mut self, page: Page)
        requires { IsTaken self.old page }
        ensures given { self.new ≡ record self.old {
          free = self.old.free ++ page ∷ [];
          work = worked self.old.work;
        } }
        ensures sound { IsPool self.new }
    {
        self.work = self.work.saturating_add(1);
        match self.given_back.push(page.number) {
            Ok(()) => {}
            Err(_) => unreachable!(),
        }
    }

    /// Makes these bytes the content of a page.
    pub fn fill(&mut self, page: &Page, source: &[u8])
        requires taken { IsTaken self.old page.now }
        requires whole { length source.now ≡ page_size }
        ensures filled { self.new ≡ with_content self.old page.now source.now }
        ensures still_taken { IsTaken self.new page.now }
        ensures sound { IsPool self.new }
    {
        self.work = self.work.saturating_add(1);
        let start = page.number as usize * PAGE;
        let end = start + PAGE;
        self.bytes[start..end].copy_from_slice(source);
    }

    /// Makes the content of a page all zeros.
    pub fn zero(&mut self, page: &Page)
        requires { IsTaken self.old page.now }
        ensures zeroed { self.new ≡ with_content self.old page.now (replicate page_size 0) }
        ensures still_taken { IsTaken self.new page.now }
        ensures sound { IsPool self.new }
    {
        self.work = self.work.saturating_add(1);
        let start = page.number as usize * PAGE;
        let end = start + PAGE;
        self.bytes[start..end].fill(0);
    }

    /// The content of a page.
    #[inline(always)]
    pub fn bytes(&self, page: &Page) -> &[u8]
        requires { IsTaken self.now page.now }
        ensures content { result.now ≡ content_of self.now page.now }
        ensures whole { length result.now ≡ page_size }
    {
        let start = page.number as usize * PAGE;
        let end = start + PAGE;
        &self.bytes[start..end]
    }

    /// Puts bytes into a page, from a place on.
    #[inline(always)]
    pub fn put(&mut self, page: &Page, from: usize, source: &[u8])
        requires taken { IsTaken self.old page.now }
        requires inside { from + length source.now ≤ page_size }
        ensures put { self.new ≡ with_content self.old page.now
            (over (content_of self.old page.now) from source.now) }
        ensures still_taken { IsTaken self.new page.now }
        ensures sound { IsPool self.new }
    {
        self.work = self.work.saturating_add(1);
        let start = page.number as usize * PAGE;
        let end = start + PAGE;
        let to = from + source.len();
        let content = &mut self.bytes[start..end];
        content[from..to].copy_from_slice(source);
    }

    /// How many pages are free.
    pub fn free(&self) -> u32
        ensures count { result ≡ length self.now.free }
        ensures sound { IsPool self.now }
    {
        self.pages - self.made + self.given_back.len() as u32
    }

    /// How many pages were made: so much of the reserved memory was written.
    pub fn made(&self) -> u32
        ensures { result ≡ self.now.made }
    {
        self.made
    }

    /// How often `take`, `give`, `fill`, `zero` and `put` were called.
    pub fn work(&self) -> u64
        ensures { result ≡ self.now.work }
    {
        self.work
    }
}
