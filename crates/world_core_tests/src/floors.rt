//! What is offered on a floor, by hand from the rule: each Take by call and then host, where the call is awaited or a
//! worker is free; each Ask by call; each End by call.

use session_meaning::Event;
use std::alloc::{AllocError, Global};
use std::test::Fail;
use world_core::{FLOOR_LIMIT, Floor, Seat, Stand, Waiting};

/// Hosts and workers, the queued and the open calls, and what is offered.
struct Row<'s> {
    hosts: u32,
    workers: u32,
    queued: &'s [Waiting],
    open: &'s [Seat],
    events: &'s [Event],
}

const NOTHING: Row<'static> = Row {
    hosts: 1,
    workers: 1,
    queued: &[],
    open: &[],
    events: &[],
};

const TWO_HOSTS: Row<'static> = Row {
    hosts: 2,
    workers: 2,
    queued: &[
        Waiting {
            call: 0,
            awaited: false,
        },
        Waiting {
            call: 3,
            awaited: false,
        },
    ],
    open: &[Seat {
        call: 1,
        stand: Stand::Blocked,
    }],
    events: &[
        Event::Take { call: 0, host: 0 },
        Event::Take { call: 0, host: 1 },
        Event::Take { call: 3, host: 0 },
        Event::Take { call: 3, host: 1 },
    ],
};

/// No worker is free, and one of the queued calls is awaited.
const NO_WORKER: Row<'static> = Row {
    hosts: 2,
    workers: 2,
    queued: &[
        Waiting {
            call: 2,
            awaited: false,
        },
        Waiting {
            call: 4,
            awaited: true,
        },
        Waiting {
            call: 5,
            awaited: false,
        },
    ],
    open: &[
        Seat {
            call: 1,
            stand: Stand::Blocked,
        },
        Seat {
            call: 3,
            stand: Stand::Free,
        },
    ],
    events: &[
        Event::Take { call: 4, host: 0 },
        Event::Take { call: 4, host: 1 },
        Event::Ask { call: 3 },
    ],
};

const EACH_STAND: Row<'static> = Row {
    hosts: 1,
    workers: 6,
    queued: &[Waiting {
        call: 5,
        awaited: false,
    }],
    open: &[
        Seat {
            call: 0,
            stand: Stand::Ended,
        },
        Seat {
            call: 1,
            stand: Stand::Free,
        },
        Seat {
            call: 2,
            stand: Stand::Blocked,
        },
        Seat {
            call: 3,
            stand: Stand::Free,
        },
        Seat {
            call: 4,
            stand: Stand::Ended,
        },
    ],
    events: &[
        Event::Take { call: 5, host: 0 },
        Event::Ask { call: 1 },
        Event::Ask { call: 3 },
        Event::End { call: 0 },
        Event::End { call: 4 },
    ],
};

/// Each open call waits for another, and nothing is queued.
const STUCK: Row<'static> = Row {
    hosts: 4,
    workers: 8,
    queued: &[],
    open: &[
        Seat {
            call: 0,
            stand: Stand::Blocked,
        },
        Seat {
            call: 1,
            stand: Stand::Blocked,
        },
    ],
    events: &[],
};

/// Whether these events are offered, in this order.
fn offers(floor: &Floor, events: &[Event]) -> bool {
    let count = floor.count();
    if count as usize != events.len() {
        return false;
    }
    for i in 0..count {
        if floor.at(i) != events[i as usize] {
            return false;
        }
    }
    true
}

/// Whether the floor of a row offers its events.
fn holds(alloc: Global, row: &Row<'_>) -> Result<bool, AllocError> {
    if row.hosts > 16 || row.queued.len() > FLOOR_LIMIT || row.open.len() > FLOOR_LIMIT {
        return Ok(false);
    }
    let mut queued = Vec::new(alloc);
    queued.extend_from_slice(row.queued)?;
    let mut open = Vec::new(alloc);
    open.extend_from_slice(row.open)?;
    let floor = Floor {
        hosts: row.hosts,
        workers: row.workers,
        queued,
        open,
    };
    Ok(offers(&floor, row.events))
}

#[test]
fn each_floor_offers_its_events(rt: HostRuntime) -> Result<(), Fail> {
    for row in &[NOTHING, TWO_HOSTS, NO_WORKER, EACH_STAND, STUCK] {
        assert!(rt; holds(rt.alloc(), row)?);
    }
    Ok(())
}

/// Two calls are queued, two are open; one more is looked at; then a queued and an open call go.
fn changes(alloc: Global) -> Result<bool, AllocError> {
    let mut floor = Floor {
        hosts: 1,
        workers: 2,
        queued: Vec::new(alloc),
        open: Vec::new(alloc),
    };
    for call in [3, 5] {
        floor.make_place()?;
        floor.add_waiting(call);
    }
    for call in [2, 1] {
        floor.make_seat()?;
        floor.add_seat(0, call);
    }
    floor.mark(5);
    if floor.open.len() < 2 || floor.queued.len() < 2 {
        return Ok(false);
    }
    floor.set_stand(0, Stand::Free);
    let before = offers(
        &floor,
        &[
            Event::Take { call: 5, host: 0 },
            Event::Ask { call: 1 },
            Event::End { call: 2 },
        ],
    );
    floor.remove_waiting(1);
    floor.remove_seat(0);
    Ok(
        before
            && offers(
                &floor,
                &[Event::Take { call: 3, host: 0 }, Event::End { call: 2 }],
            ),
    )
}

#[test]
fn a_floor_changes(rt: HostRuntime) -> Result<(), Fail> {
    assert!(rt; changes(rt.alloc())?);
    Ok(())
}
