//! Where to look for the next queued call: places before which none is queued. They only rise, so each of them passes
//! each record once.

ghost use Rattle.std.specs.Prelude.{◌≡◌, ◌<◌, ◌≤◌, ◌++◌, ◌^◌, [], IsTrue, IfOk, IfSome, IfNone, length, slice_index_or};
ghost use Rattle.faaslet_meaning.specs.Lists.{first, passes_at};
ghost use Rattle.faaslet_meaning.specs.Records as said;
ghost use Rattle.call_table.specs.Heads.{HeadsFit, at_host, anywhere, NoneBefore, StopsAt};

use crate::records::is_queued;
use faaslet_meaning::CallRecord;
use std::alloc::{AllocError, Global};

/// For each host a place before which no call is queued at it, and one before which none is queued at all.
#[derive(Drop)]
pub(crate) struct Heads {
    at: Vec<u32>,
    any: u32,
}

impl Heads {
    pub(crate) fn new(alloc: Global, hosts: u32) -> Result<Heads, AllocError>
        ensures fit { IfOk result (λ h. HeadsFit [] h) }
        ensures many { IfOk result (λ h. length h.at.items ≡ hosts) }
    {
        let at = vec![in alloc; 0; hosts as usize]?;
        Ok(Heads { at, any: 0 })
    }

    /// The call that a host takes next.
    pub(crate) fn next(&mut self, records: &[CallRecord], host: u32) -> Option<u32>
        requires few { length records.now < 2 ^ 31 }
        requires fit { HeadsFit records.now self.old }
        requires host { host < length self.old.at.items }
        ensures fit { HeadsFit records.now self.new }
        ensures many { length self.new.at.items ≡ length self.old.at.items }
        ensures first { result ≡ first (said.queue records.now host ++ said.queued_calls records.now) }
    {
        match self.next_at(records, host) {
            Some(call) => Some(call),
            None => self.next_anywhere(records),
        }
    }

    /// The lowest call that is queued at the host.
    fn next_at(&mut self, records: &[CallRecord], host: u32) -> Option<u32>
        requires few { length records.now < 2 ^ 31 }
        requires fit { HeadsFit records.now self.old }
        requires host { host < length self.old.at.items }
        ensures fit { HeadsFit records.now self.new }
        ensures many { length self.new.at.items ≡ length self.old.at.items }
        ensures first { result ≡ first (said.queue records.now host) }
    {
        let at = host as usize;
        let place = seek_at(records, host, self.at[at]);
        self.at[at] = place;
        found(records, place)
    }

    /// The lowest call that is queued.
    fn next_anywhere(&mut self, records: &[CallRecord]) -> Option<u32>
        requires few { length records.now < 2 ^ 31 }
        requires fit { HeadsFit records.now self.old }
        ensures fit { HeadsFit records.now self.new }
        ensures many { length self.new.at.items ≡ length self.old.at.items }
        ensures first { result ≡ first (said.queued_calls records.now) }
    {
        self.any = seek(records, self.any);
        found(records, self.any)
    }
}

/// The place, where a record stands there.
fn found(records: &[CallRecord], place: u32) -> Option<u32>
    ensures some { IfSome result (λ p. (p ≡ place) × (place < length records.now)) }
    ensures none { IfNone result (length records.now ≤ place) }
{
    if (place as usize) < records.len() {
        Some(place)
    } else {
        None
    }
}

/// The first place, from one on, whose call is queued at the host, or else the end of the records.
fn seek_at(records: &[CallRecord], host: u32, from: u32) -> u32
    requires few { length records.now < 2 ^ 31 }
    requires from { NoneBefore (at_host host) from records.now }
    ensures { StopsAt (at_host host) result records.now }
{
    let mut place = from;
    while (place as usize) < records.len() {
        let r = &records[place as usize];
        if is_queued(&r.state) && r.placed == host {
            return place;
        }
        place += 1;
    }
    place
}

/// The same for a call that is queued at any host.
fn seek(records: &[CallRecord], from: u32) -> u32
    requires few { length records.now < 2 ^ 31 }
    requires from { NoneBefore anywhere from records.now }
    ensures { StopsAt anywhere result records.now }
{
    let mut place = from;
    while (place as usize) < records.len() {
        if is_queued(&records[place as usize].state) {
            return place;
        }
        place += 1;
    }
    place
}
