//! The memory of an instance.

ghost use Rattle.std.specs.Prelude.{◌≡◌, ◌↔◌, All, IsTrue, map};
ghost use Rattle.faaslet_meaning.specs.Fresh.{all_over};
ghost use Rattle.faaslet_meaning.specs.Memory.{put, size_of};
ghost use Rattle.proto_faaslet.specs.Instances.{segment_of, Fits, IsOne};

use crate::constants::value;
use faaslet_meaning::{Linear, Segment};

fn segment_fits(globals: &[u64], segment: &Segment, size: u64) -> bool
    ensures { IsTrue result ↔ Fits size (segment_of globals.now segment.now) }
{
    let at = value(globals, segment.offset.as_slice());
    let count = segment.bytes.as_slice().len() as u64;
    count <= size && at <= size - count
}

/// Whether all segments fit into a memory of so many bytes.
pub fn segments_fit(globals: &[u64], segments: &[Segment], size: u64) -> bool
    ensures { IsTrue result ↔ All (λ s. Fits size (segment_of globals.now s)) segments.now }
{
    segments.iter().all(|s| segment_fits(globals, s, size))
}

fn put_segment<M: Linear>(memory: &mut M, globals: &[u64], segment: &Segment)
    requires fits { Fits (size_of (M.memory memory.old)) (segment_of globals.now segment.now) }
    requires one { IsOne (M.memory memory.old).segments }
    ensures { M.memory memory.new ≡ put (M.memory memory.old) (segment_of globals.now segment.now).0 segment.now.bytes }
{
    let at = value(globals, segment.offset.as_slice());
    memory.write_private(at, segment.bytes.as_slice());
}

/// Writes all segments into the memory, one after the other.
pub fn put_segments<M: Linear>(memory: &mut M, globals: &[u64], segments: &[Segment])
    requires fits { All (λ s. Fits (size_of (M.memory memory.old)) (segment_of globals.now s)) segments.now }
    requires one { IsOne (M.memory memory.old).segments }
    ensures { M.memory memory.new ≡ (record (M.memory memory.old) {
      bytes = all_over (M.memory memory.old).bytes (map (segment_of globals.now) segments.now);
    }) }
{
    for segment in segments {
        put_segment(memory, globals, segment);
    }
}
