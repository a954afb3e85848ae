//! The events of a world, and why one may not stand.

use faaslet_meaning::Items;

/// A call is taken at a host; the next question of a call is served; a call that has ended is finished.
#[derive(Clone, Copy, Debug, PartialEq, Eq)]
pub enum Event {
    Take { call: u32, host: u32 },
    Ask { call: u32 },
    End { call: u32 },
}

pub type Events = Items<Event>;

/// Why an event may not stand. `Holder` names the least maker of a lock that blocks the question, and
/// `Child` the call that the question waits for.
#[derive(Clone, Copy, Debug, PartialEq, Eq)]
pub enum Why {
    NoCall,
    NoHost,
    NotQueued,
    NotOpen,
    NotEnded,
    HasEnded,
    Holder(u32),
    Child(u32),
}
