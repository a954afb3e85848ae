//! How many calls are queued at each host, and which hosts are warm, kept beside the records.

ghost use Rattle.std.specs.Prelude.{◌≡◌, ◌+◌, ◌-◌, ◌<◌, ◌≤◌, ◌++◌, ◌∷◌, ◌^◌, [], All, IfOk, OnOk, length, slice_index_or, slice_set, vec_capacity};
ghost use Rattle.faaslet_meaning.specs.Placement as said;
ghost use Rattle.call_table.specs.Loads.{LoadsFit, WarmWith};

use host_scheduler::{is_warm, place_among};
use std::alloc::{AllocError, Global};

/// The queued calls of each host, and each pair of a function and a host that is warm, with room for one more pair for
/// each call that is queued.
#[derive(Drop)]
pub(crate) struct Loads {
    queued: Vec<u64>,
    warm: Vec<(u32, u32)>,
}

impl Loads {
    pub(crate) fn new(alloc: Global, hosts: u32) -> Result<Loads, AllocError>
        ensures { IfOk result (λ l. LoadsFit hosts [] l) }
    {
        let queued = vec![in alloc; 0; hosts as usize]?;
        Ok(Loads {
            queued,
            warm: Vec::new(alloc),
        })
    }

    /// The host of a call of the function that comes from a host.
    pub(crate) fn place(&self, function: u32, from: u32) -> u32
        requires from { from < length self.now.queued.items }
        requires warm { All (λ w. w.1 < length self.now.queued.items) self.now.warm.items }
        ensures { result ≡ said.place self.now.queued.items self.now.warm.items function from }
    {
        place_among(&self.queued, &self.warm, function, from)
    }

    /// Makes room for the pairs of so many calls.
    pub(crate) fn reserve(&mut self, calls: u32) -> Result<(), AllocError>
        ensures queued { self.new.queued.items ≡ self.old.queued.items }
        ensures warm { self.new.warm.items ≡ self.old.warm.items }
        ensures more { vec_capacity self.old.warm ≤ vec_capacity self.new.warm }
        ensures ok { OnOk result (length self.old.warm.items + calls ≤ vec_capacity self.new.warm) }
    {
        self.warm.reserve(calls as usize)
    }

    /// A call is queued at the host.
    pub(crate) fn add(&mut self, host: u32)
        requires few { slice_index_or self.old.queued.items host 0 < 2 ^ 31 }
        ensures queued { self.new.queued.items ≡ slice_set self.old.queued.items host (slice_index_or self.old.queued.items host 0 + 1) }
        ensures warm { self.new.warm ≡ self.old.warm }
    {
        raise(&mut self.queued, host);
    }

    /// A call of the function that is queued at one host is taken at another.
    pub(crate) fn start(&mut self, function: u32, placed: u32, host: u32)
        requires room { length self.old.warm.items < vec_capacity self.old.warm }
        ensures queued { self.new.queued.items ≡ slice_set self.old.queued.items placed (slice_index_or self.old.queued.items placed 0 - 1) }
        ensures warm { WarmWith self.old.warm.items function host self.new.warm.items }
        ensures room { vec_capacity self.new.warm ≡ vec_capacity self.old.warm }
    {
        lower(&mut self.queued, placed);
        if !is_warm(&self.warm, function, host) {
            self.warm.push_reserved((function, host));
        }
    }
}

fn raise(queued: &mut [u64], host: u32)
    requires few { slice_index_or queued.old host 0 < 2 ^ 31 }
    ensures { queued.new ≡ slice_set queued.old host (slice_index_or queued.old host 0 + 1) }
{
    let at = host as usize;
    if at < queued.len() {
        queued[at] += 1;
    }
}

fn lower(queued: &mut [u64], host: u32)
    ensures { queued.new ≡ slice_set queued.old host (slice_index_or queued.old host 0 - 1) }
{
    let at = host as usize;
    if at < queued.len() {
        queued[at] = queued[at].saturating_sub(1);
    }
}
