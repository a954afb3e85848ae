//! The image of a memory.

ghost use Rattle.std.specs.Prelude.{◌≡◌, ◌*◌, IfOk, length};
ghost use Rattle.faaslet_meaning.specs.Memory.{IsMemory, page_size, pages_of};
ghost use Rattle.proto_faaslet.specs.Instances.{IsOne};

use faaslet_meaning::Linear;
use region_map::Image;
use std::alloc::{AllocError, Global};

/// The bytes of a page.
const PAGE: usize = 65_536;

/// So many zeros.
fn zeros(alloc: Global, count: usize) -> Result<Vec<u8>, AllocError>
    ensures { IfOk result (λ v. length v.items ≡ count) }
{
    Ok(vec![in alloc; 0; count]?)
}

/// The image of a memory of one private segment.
pub fn image_of<M: Linear>(alloc: Global, memory: &M) -> Result<Image, AllocError>
    requires { IsOne (M.memory memory.now).segments }
    ensures pages { IfOk result (λ i. i.pages ≡ pages_of (M.memory memory.now).segments) }
    ensures sound { IfOk result (λ i. IsMemory (M.memory memory.now)) }
    ensures bytes { IfOk result (λ i. i.bytes ≡ (M.memory memory.now).bytes) }
{
    let pages = memory.pages();
    let mut page = zeros(alloc, PAGE)?;
    let mut image = Image::new(alloc);
    for place in 0..pages {
        memory.read_private(u64::from(place) * 65_536, &mut page);
        image.push(&page)?;
    }
    Ok(image)
}
