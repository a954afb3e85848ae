//! The host of a call, by the lengths of the queues and by which hosts are warm.

ghost use Rattle.std.specs.Prelude.{◌≡◌, ◌<◌, All, IfSome, length};
ghost use Rattle.faaslet_meaning.specs.Placement.{place, fewest, is_warm, warm_hosts};
ghost use Rattle.host_scheduler.specs.Before.{is_before, leads};

use faaslet_meaning::{Counts, Pairs};

/// A host that is warm for a function keeps its calls while fewer than this are queued there.
const QUEUE_LIMIT: u64 = 8;

/// How many calls are queued at each host, and which pairs of a function and a host are warm.
#[derive(Drop)]
pub struct HostLoads {
    pub queued: Counts,
    pub warm: Pairs,
}

/// The host at which a call of the function is placed that comes from a host. Takes no memory.
pub fn place(loads: &HostLoads, function: u32, from: u32) -> u32
    requires from { from < length loads.now.queued }
    requires warm { All (λ w. w.1 < length loads.now.queued) loads.now.warm }
    ensures { result ≡ place loads.now.queued loads.now.warm function from }
{
    place_among(
        loads.queued.as_slice(),
        loads.warm.as_slice(),
        function,
        from,
    )
}

/// The same, for loads that the caller keeps.
pub fn place_among(queued: &[u64], warm: &[(u32, u32)], function: u32, from: u32) -> u32
    requires from { from < length queued.now }
    requires warm { All (λ w. w.1 < length queued.now) warm.now }
    ensures { result ≡ place queued.now warm.now function from }
{
    if is_warm(warm, function, from) && queued[from as usize] < QUEUE_LIMIT {
        from
    } else {
        fewest(queued, warm, function).unwrap_or(from)
    }
}

/// Whether the pair of the function and the host is one of these.
pub fn is_warm(warm: &[(u32, u32)], function: u32, host: u32) -> bool
    ensures { result ≡ is_warm warm.now function host }
{
    warm.iter().any(|pair| pair.0 == function && pair.1 == host)
}

/// The warm host with the fewest calls queued, on ties the one with the lowest number.
fn fewest(queued: &[u64], warm: &[(u32, u32)], function: u32) -> Option<u32>
    requires { All (λ w. w.1 < length queued.now) warm.now }
    ensures { result ≡ fewest queued.now (warm_hosts queued.now warm.now function) }
{
    let mut best = None;
    for pair in warm {
        if pair.0 == function && leads(queued, pair.1, best) {
            best = Some(pair.1);
        }
    }
    best
}

/// Whether a host comes before the best so far.
fn leads(queued: &[u64], host: u32, best: Option<u32>) -> bool
    requires host { host < length queued.now }
    requires best { IfSome best (λ o. o < length queued.now) }
    ensures { result ≡ leads queued.now host best }
{
    match best {
        Some(other) => is_before(queued, host, other),
        None => true,
    }
}

fn is_before(queued: &[u64], host: u32, other: u32) -> bool
    requires host { host < length queued.now }
    requires other { other < length queued.now }
    ensures { result ≡ is_before queued.now host other }
{
    let ours = queued[host as usize];
    let theirs = queued[other as usize];
    ours < theirs || ours == theirs && host < other
}
