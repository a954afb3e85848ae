//! Linear memory as a machine uses it: private segments, and segments behind which replicas are mapped.

ghost use Rattle.std.specs.Prelude.{◌≡◌, ℕ, ◌*◌, ◌<◌, ◌≤◌, length, false, IsTrue, OnOk, OnErr, IfOk, IfSome, OnSome, IfNone};
ghost use Rattle.faaslet_meaning.specs.LoadStore.{number, bytes_of};
ghost use Rattle.faaslet_meaning.specs.Memory.{Memory, Backing, IsMemory, page_size, mapping_limit, grant_limit, pages_of, lies_in, IsPrivate, IsFirstPiece, read_bytes, put, may_grow, grown, may_map, with_map, mappings, unmapped};

/// The range passes the end of the memory.
#[derive(Clone, Copy, Debug, PartialEq, Eq)]
pub struct Outside;

/// The private pages would pass the quota, or all pages the maximum or what there may be.
#[derive(Clone, Copy, Debug, PartialEq, Eq)]
pub struct Full;

/// All pages would be more than there may be.
#[derive(Clone, Copy, Debug, PartialEq, Eq)]
pub struct MapFull;

/// Where bytes of linear memory live: with the call, or in the replica at a place of its grants, from a
/// byte of the replica on.
#[derive(Clone, Copy, Debug, PartialEq, Eq)]
pub enum Home {
    Private,
    Shared { place: u32, off: u64 },
}

/// A part of a range that lies in one segment.
#[derive(Clone, Copy, Debug, PartialEq, Eq)]
pub struct Piece {
    pub len: u64,
    pub home: Home,
}

/// Linear memory in segments. Addresses and lengths are in bytes. No call takes memory.
pub trait Linear {
    /// Its segments, all of its bytes, and its quota of private pages.
    ghost memory: { Self → Memory };

    /// How many private pages it may have, for how many there is room, and what it is set back to. No call
    /// here changes it.
    ghost backing: { Self → Backing };

    /// The pages, private and mapped. Whoever calls it also learns what every memory keeps to.
    fn pages(&self) -> u32
        ensures count { result ≡ pages_of (memory self.now).segments }
        ensures sound { IsMemory (memory self.now) }
        ensures quota { (backing self.now).quota ≡ (memory self.now).quota };

    /// Whether `len` bytes from `addr` on lie in the memory.
    fn check(&self, addr: u64, len: u64) -> Result<(), Outside>
        ensures inside { OnOk result (IsTrue (lies_in (memory self.now) addr len)) }
        ensures outside { OnErr result (lies_in (memory self.now) addr len ≡ false) }
        ensures sound { IsMemory (memory self.now) };

    /// The longest first part of a range that lies in one segment.
    fn piece_at(&self, addr: u64, len: u64) -> Piece
        requires inside { IsTrue (lies_in (memory self.now) addr len) }
        requires some { 0 < len }
        ensures first { IsFirstPiece (memory self.now) addr len result }
        ensures sound { IsMemory (memory self.now) };

    /// Reads private bytes.
    fn read_private(&self, addr: u64, buf: &mut [u8])
        requires inside { IsTrue (lies_in (memory self.now) addr (length buf.old)) }
        requires private { IsPrivate (memory self.now) addr (length buf.old) }
        ensures { buf.new ≡ read_bytes addr (length buf.old) (memory self.now).bytes };

    /// Writes private bytes.
    fn write_private(&mut self, addr: u64, bytes: &[u8])
        requires inside { IsTrue (lies_in (memory self.old) addr (length bytes.now)) }
        requires private { IsPrivate (memory self.old) addr (length bytes.now) }
        ensures put { memory self.new ≡ put (memory self.old) addr bytes.now }
        ensures sound { IsMemory (memory self.new) }
        ensures kept { backing self.new ≡ backing self.old };

    /// The number in `size` bytes, the lowest byte first; `None` where they are not all there and private.
    /// What a load takes in the usual case.
    fn read_number(&self, addr: u64, size: u64) -> Option<u64>
        requires some { 1 ≤ size }
        requires few { size ≤ 8 }
        ensures number { IfSome result (λ n.
            n ≡ number (read_bytes addr size (memory self.now).bytes)) }
        ensures private { OnSome result (IsTrue (lies_in (memory self.now) addr size)
            × IsPrivate (memory self.now) addr size) }
        ensures other { IfNone result (IsTrue (lies_in (memory self.now) addr size)
            → IsPrivate (memory self.now) addr size → ⊥) }
        ensures sound { IsMemory (memory self.now) };

    /// Writes the lowest `size` bytes of a number, the lowest first, and answers true; where they are not
    /// all there and private it changes nothing and answers false. What a store does in the usual case.
    fn write_number(&mut self, addr: u64, size: u64, value: u64) -> bool
        requires some { 1 ≤ size }
        requires few { size ≤ 8 }
        ensures written { IsTrue result → IsTrue (lies_in (memory self.old) addr size)
            × IsPrivate (memory self.old) addr size
            × (memory self.new ≡ put (memory self.old) addr (bytes_of size value)) }
        ensures other { result ≡ false → (memory self.new ≡ memory self.old)
            × (IsTrue (lies_in (memory self.old) addr size)
            → IsPrivate (memory self.old) addr size → ⊥) }
        ensures sound { IsMemory (memory self.new) }
        ensures kept { backing self.new ≡ backing self.old };

    /// Appends `n` private pages of zeros, where there may be as many and all pages are at most `max`,
    /// and answers how many pages there were.
    fn grow(&mut self, n: u32, max: u32) -> Result<u32, Full>
        ensures old { IfOk result (λ old. old ≡ pages_of (memory self.old).segments) }
        ensures grown { OnOk result (IsTrue (may_grow (memory self.old) n max)
            × (memory self.new ≡ grown (memory self.old) n)) }
        ensures full { OnErr result ((may_grow (memory self.old) n max ≡ false)
            × (memory self.new ≡ memory self.old)) }
        ensures sound { IsMemory (memory self.new) }
        ensures kept { backing self.new ≡ backing self.old };

    /// Appends so many pages of the replica at a place of the grants, and answers the address of the
    /// first.
    fn map(&mut self, place: u32, pages: u32) -> Result<u32, MapFull>
        requires place { place < grant_limit }
        requires some { 1 ≤ pages }
        requires few { mappings (memory self.old) < mapping_limit }
        ensures address { IfOk result (λ address.
            address ≡ pages_of (memory self.old).segments * page_size) }
        ensures mapped { OnOk result (IsTrue (may_map (memory self.old) pages)
            × (memory self.new ≡ with_map (memory self.old) place pages)) }
        ensures full { OnErr result ((may_map (memory self.old) pages ≡ false)
            × (memory self.new ≡ memory self.old)) }
        ensures sound { IsMemory (memory self.new) }
        ensures kept { backing self.new ≡ backing self.old };

    /// Takes every replica away. What is private stays, in one segment.
    fn unmap_all(&mut self)
        ensures unmapped { memory self.new ≡ unmapped (memory self.old) }
        ensures sound { IsMemory (memory self.new) }
        ensures kept { backing self.new ≡ backing self.old };
}
