//! One access between `open` and `close`.
ghost use Rattle.std.specs.Prelude.{◌<◌, length};
ghost use Rattle.session_meaning.specs.WellFormed.{KeepsLimits};
ghost use Rattle.session_objects.specs.Parts.{AreBack, AreFor, AreFresh};

use faaslet_meaning::{RegionOp, Reply};
use grant_registry::Registry;
use session_objects::{Closed, Objects, Opened, SessionPasses, close, open};
use std::alloc::Global;
use std::sync::Wait;

/// Opens the session, appends these bytes to the first global value by the first bench, and closes. `None` is for want
/// of memory, and where there is no key.
pub fn append_once<R: Wait>(
    rt: &R,
    alloc: Global,
    registry: &Registry,
    bytes: &[u8],
) -> Option<(Reply, Closed)> {
    if registry.keys() == 0 {
        return None;
    }
    registry.hosts();
    let Ok(
        Opened {
            objects,
            mut passes,
            closing,
        },
    ) = open(alloc, registry)
    else {
        return None;
    };
    let reply = append(rt, registry, &objects, &mut passes, bytes);
    let closed = close(registry, objects, closing, passes);
    Some((reply, closed))
}

fn append<R: Wait>(
    rt: &R,
    registry: &Registry,
    objects: &Objects,
    passes: &mut SessionPasses,
    bytes: &[u8],
) -> Reply
    requires limits { KeepsLimits registry.now }
    requires key { 0 < length registry.now.keys }
    requires objects { AreFor registry.now objects.now }
    requires passes { AreFresh registry.now objects.now passes.old }
    ensures { AreBack registry.now objects.now passes.new }
{
    let bench = &mut passes.benches[0];
    let append = RegionOp::Append { bytes };
    objects
        .globals
        .access(rt, &mut bench.global, 0, &append, &mut [])
}
