//! The segments behind the first, and where an address is in them.

ghost use Rattle.std.specs.Prelude.{◌≡◌, ℕ, ◌+◌, ◌*◌, ◌<◌, ◌≤◌, length, All, vec_capacity, IfSome, IfNone};
ghost use Rattle.faaslet_meaning.specs.Memory.{page_size, page_limit, with_pages, pages_of};
ghost use Rattle.region_map.specs.Segments.{IsMapping, IsPlace, IsElsewhere, all_segments, spot_of};

/// The bytes of a page.
const PAGE: u64 = 65_536;

/// A replica that is mapped, and the pages of the private segment behind it, where there is one.
#[derive(Clone, Copy)]
pub(crate) struct Mapping {
    pub(crate) place: u32,
    pub(crate) pages: u32,
    pub(crate) behind: Option<u32>,
}

/// Where a byte is, and how many bytes are left there to the end of its segment: at a place among
/// the private bytes, or from a byte of a replica on.
#[derive(Clone, Copy)]
pub(crate) enum Spot {
    Private { at: u64, left: u64 },
    Shared { place: u32, off: u64, left: u64 },
}

/// Where an address is; `None` past the end.
pub(crate) fn spot_of(first: u32, mappings: &[Mapping], addr: u64) -> Option<Spot>
    ensures { result ≡ spot_of (all_segments first mappings.now) 0 addr }
{
    let end = u64::from(first) * PAGE;
    if addr < end {
        return Some(Spot::Private {
            at: addr,
            left: end - addr,
        });
    }
    let mut before = end;
    let mut at = addr - end;
    'segments: for mapping in mappings {
        let size = u64::from(mapping.pages) * PAGE;
        if at < size {
            return Some(Spot::Shared {
                place: mapping.place,
                off: at,
                left: size - at,
            });
        }
        at -= size;
        let size = u64::from(mapping.behind.unwrap_or(0)) * PAGE;
        if at < size {
            return Some(Spot::Private {
                at: before + at,
                left: size - at,
            });
        }
        at -= size;
        before += size;
    }
    None
}

/// Where a range that is not empty is among the private bytes; `None` where it is not all there and
/// private.
#[inline(always)]
pub(crate) fn place_of(first: u32, mappings: &[Mapping], addr: u64, len: u64) -> Option<u64>
    requires some { 0 < len }
    requires each { All IsMapping mappings.now }
    ensures place { IfSome result (λ p. IsPlace (all_segments first mappings.now) addr len p) }
    ensures other { IfNone result (IsElsewhere (all_segments first mappings.now) addr len) }
{
    let end = u64::from(first) * PAGE;
    if addr.saturating_add(len) <= end {
        return Some(addr);
    }
    place_behind(first, mappings, addr, len)
}

/// The same, found among all segments.
#[inline(never)]
fn place_behind(first: u32, mappings: &[Mapping], addr: u64, len: u64) -> Option<u64>
    requires some { 0 < len }
    requires each { All IsMapping mappings.now }
    ensures place { IfSome result (λ p. IsPlace (all_segments first mappings.now) addr len p) }
    ensures other { IfNone result (IsElsewhere (all_segments first mappings.now) addr len) }
{
    match spot_of(first, mappings, addr) {
        Some(Spot::Private { at, left }) => { if len <= left { Some(at) } else { None } }
        Some(Spot::Shared { .. }) => None,
        None => None,
    }
}

/// Appends private pages to the last segment where that is private, and else a private segment, and
/// answers how many pages the first segment then has.
pub(crate) fn lengthen(first: u32, mappings: &mut Vec<Mapping>, n: u32) -> u32
    requires few { pages_of (all_segments first mappings.old.items) + n ≤ page_limit }
    requires each { All IsMapping mappings.old.items }
    ensures segments { all_segments result mappings.new.items
        ≡ with_pages (all_segments first mappings.old.items) n }
    ensures each { All IsMapping mappings.new.items }
    ensures count { length mappings.new.items ≡ length mappings.old.items }
    ensures capacity { vec_capacity mappings.old ≤ vec_capacity mappings.new }
{
    match mappings.pop() {
        None => first + n,
        Some(last) => {
            let behind = last.behind.unwrap_or(0) + n;
            let longer = Mapping {
                place: last.place,
                pages: last.pages,
                behind: Some(behind),
            };
            match mappings.push(longer) {
                Ok(()) => {}
                Err(_) => unreachable!(),
            }
            first
        }
    }
}
