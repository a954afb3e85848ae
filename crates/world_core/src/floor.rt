//! Which events a trace offers, read off the calls that are queued and those that are open.

ghost use Rattle.std.specs.Prelude.{◌≡◌, ◌<◌, ◌≤◌, ◌^◌, [], Some, length, filter, slice_get};

use session_meaning::Event;
use std::alloc::{AllocError, Global};

/// A call that is queued; whether an open call's next question is to look at it.
#[derive(Clone, Copy)]
pub struct Waiting {
    pub call: u32,
    pub awaited: bool,
}

/// Where the machine of an open call stands: at a question that may stand, at one that may not, or at its end.
#[derive(Clone, Copy)]
pub enum Stand {
    Free,
    Blocked,
    Ended,
}

/// A call that is open.
#[derive(Clone, Copy)]
pub struct Seat {
    pub call: u32,
    pub stand: Stand,
}

/// The most calls that may be queued, and that may be open.
pub const FLOOR_LIMIT: usize = 1 << 26;

/// The calls that are queued and those that are open, each by rising number, with the number of hosts and that of
/// workers.
#[derive(Drop)]
pub struct Floor {
    pub hosts: u32,
    pub workers: u32,
    pub queued: Vec<Waiting>,
    pub open: Vec<Seat>,
    ghost few_hosts: { hosts ≤ 16 },
    ghost few_queued: { length queued.items ≤ 2 ^ 26 },
    ghost few_open: { length open.items ≤ 2 ^ 26 },
}

impl Floor {
    ghost use Rattle.world_core.specs.Floor.{has_stand, has_worker_on, may_take, offered_on, takes_on};

    /// A floor without a call.
    pub fn new(alloc: Global, hosts: u32, workers: u32) -> Floor
        requires { hosts ≤ 16 }
        ensures hosts { result.hosts ≡ hosts }
        ensures workers { result.workers ≡ workers }
        ensures queued { result.queued.items ≡ [] }
        ensures open_so { result.open.items ≡ [] }
    {
        Floor {
            hosts,
            workers,
            queued: Vec::new(alloc),
            open: Vec::new(alloc),
        }
    }

    /// How many events are offered.
    pub fn count(&self) -> u32
        ensures { result ≡ length (offered_on self.now) }
    {
        let takes = self.takes() as u32 * self.hosts;
        takes + self.standing(Stand::Free) as u32 + self.standing(Stand::Ended) as u32
    }

    /// The event at a place of those that are offered.
    pub fn at(&self, i: u32) -> Event
        requires { i < length (offered_on self.now) }
        ensures { slice_get (offered_on self.now) i ≡ Some result }
    {
        match self.take_at(i) {
            Some(take) => take,
            None => self.behind_takes(i),
        }
    }

    fn behind_takes(&self, i: u32) -> Event
        requires behind { length (takes_on self.now) ≤ i }
        requires within { i < length (offered_on self.now) }
        ensures { slice_get (offered_on self.now) i ≡ Some result }
    {
        let i = (i - self.takes() as u32 * self.hosts) as usize;
        let asks = self.standing(Stand::Free);
        if i < asks {
            Event::Ask {
                call: self.nth(Stand::Free, i),
            }
        } else {
            Event::End {
                call: self.nth(Stand::Ended, i - asks),
            }
        }
    }

    /// Whether a worker is free.
    fn has_worker(&self) -> bool
        ensures { result ≡ has_worker_on self.now }
    {
        self.open.len() < self.workers as usize
    }

    /// How many queued calls may be taken.
    fn takes(&self) -> usize
        ensures count { result ≡ length (filter (may_take (has_worker_on self.now)) self.now.queued.items) }
        ensures few { result ≤ length self.now.queued.items }
    {
        let free = self.has_worker();
        self.queued.iter().filter(|q| q.may_be_taken(free)).count()
    }

    /// How many open calls stand so.
    fn standing(&self, stand: Stand) -> usize
        ensures count { result ≡ length (filter (has_stand stand) self.now.open.items) }
        ensures few { result ≤ length self.now.open.items }
    {
        self.open.iter().filter(|seat| seat.stands(stand)).count()
    }

    /// The Take at a place of those that are offered.
    fn take_at(&self, i: u32) -> Option<Event>
        ensures { result ≡ slice_get (takes_on self.now) i }
    {
        let free = self.has_worker();
        let mut left = i;
        for q in &self.queued {
            if q.may_be_taken(free) {
                if left < self.hosts {
                    return Some(Event::Take {
                        call: q.call,
                        host: left,
                    });
                }
                left -= self.hosts;
            }
        }
        None
    }

    /// The call at a place of those that stand so.
    fn nth(&self, stand: Stand, n: usize) -> u32
        requires { n < length (filter (has_stand stand) self.now.open.items) }
        ensures { (s : _) → slice_get (filter (has_stand stand) self.now.open.items) n ≡ Some s → result ≡ s.call }
    {
        let mut left = n;
        for seat in &self.open {
            if seat.stands(stand) {
                if left == 0 {
                    return seat.call;
                }
                left -= 1;
            }
        }
        unreachable!()
    }
}

impl Waiting {
    ghost use Rattle.world_core.specs.Floor.{may_take};

    /// Where a worker is free, or an open call looks at it.
    fn may_be_taken(&self, free: bool) -> bool
        ensures { result ≡ may_take free self.now }
    {
        self.awaited || free
    }
}

impl Seat {
    ghost use Rattle.world_core.specs.Floor.{has_stand};

    fn stands(&self, stand: Stand) -> bool
        ensures { result ≡ has_stand stand self.now }
    {
        match (self.stand, stand) {
            (Stand::Free, Stand::Free) => true,
            (Stand::Blocked, Stand::Blocked) => true,
            (Stand::Ended, Stand::Ended) => true,
            _ => false,
        }
    }
}
