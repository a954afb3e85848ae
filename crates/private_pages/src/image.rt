//! What a snapshot keeps of a memory.

ghost use Rattle.std.specs.Prelude.{◌≡◌, ◌≢◌, ◌↔◌, IsTrue, ◌+◌, ◌*◌, ◌<◌, ◌≤◌, ◌++◌, ◌∷◌, [], Some, None, IfOk, IfSome, IfNone, length, replicate};
ghost use Rattle.faaslet_meaning.specs.Memory.{page_size, page_limit};
ghost use Rattle.private_pages.specs.Pages.{IsContent, page_at};

use std::alloc::{AllocError, Global};
use std::marker::Model;

/// The bytes of a page.
const PAGE: usize = 65_536;

/// Whole pages of bytes, of which those that are not all zero are kept.
#[derive(Drop)]
pub struct Image {
    places: Vec<Option<u32>>,
    kept: Vec<u8>,
}

impl Model for Image {
    ghost use Rattle.faaslet_meaning.specs.Memory.{Content};

    ghost Value = { Content };

    ghost use Rattle.private_pages.specs.Images.{content_in, IsImage};

    ghost view = { content_in };

    ghost invariant = { IsImage };
}

impl Image {
    /// An image of no page.
    pub fn new(alloc: Global) -> Image
        ensures { result ≡ record { pages = 0; bytes = [] } }
    {
        Image {
            places: Vec::new(alloc),
            kept: Vec::new(alloc),
        }
    }

    /// Appends a page. It is kept where it is not all zero.
    pub fn push(&mut self, content: &[u8]) -> Result<(), AllocError>
        requires whole { length content.now ≡ page_size }
        requires few { self.old.pages < page_limit }
        ensures pushed { IfOk result (λ _. self.new ≡ record {
          pages = self.old.pages + 1;
          bytes = self.old.bytes ++ content.now;
        }) }
    {
        self.places.reserve(1)?;
        let place = if is_zero(content) {
            None
        } else {
            let place = (self.kept.len() / PAGE) as u32;
            self.kept.extend_from_slice(content)?;
            Some(place)
        };
        match self.places.push(place) {
            Ok(()) => Ok(()),
            Err(_) => unreachable!(),
        }
    }

    /// How many pages there are.
    pub fn pages(&self) -> u32
        ensures count { result ≡ self.now.pages }
        ensures sound { IsContent self.now }
    {
        self.places.len() as u32
    }

    /// The content of a page; `None` exactly where it is all zero.
    #[inline(always)]
    pub fn page(&self, place: usize) -> Option<&[u8]>
        requires { place < self.now.pages }
        ensures kept { IfSome result (λ b. b.now ≡ page_at self.now.bytes place) }
        ensures whole { IfSome result (λ b. length b.now ≡ page_size) }
        ensures not_zero { IfSome result (λ b. b.now ≢ replicate page_size 0) }
        ensures zero { IfNone result (page_at self.now.bytes place ≡ replicate page_size 0) }
    {
        match self.places[place] {
            Some(kept) => {
                let start = kept as usize * PAGE;
                Some(&self.kept[start..start + PAGE])
            }
            None => None,
        }
    }
}

/// Whether all bytes are zero.
fn is_zero(content: &[u8]) -> bool
    ensures { IsTrue result ↔ (content.now ≡ replicate (length content.now) 0) }
{
    for byte in content {
        if *byte != 0 {
            return false;
        }
    }
    true
}
