//! Sessions that are put through given events, with what is worked out by hand from the rules: which event may stand and why
//! another may not, what is offered, which calls are kept back, the histories, and the report.

ghost use Rattle.std.specs.Prelude.{◌≡◌};

use crate::scripts::{Line, holds, shorter};
use crate::sessions::{FAMILY, HOLDERS, PAIR, Session, registry_of};
use faaslet_meaning::{Channel, Outcome, Trap};
use grant_registry::Registry;
use protos::{Protos, has_modules};
use session_meaning::{Event, Mark, Why};
use session_report::{Blocked, Obstacle};
use std::alloc::{AllocError, Global};
use std::test::Fail;
use world_core::World;

/// The numbers of operations in a history.
const PROBE: u32 = 0;

const READ: u32 = 1;

const SEND: u32 = 2;

const FILL: u32 = 4;

const WRITE: u32 = 5;

const TAKE: u32 = 6;

const PUT: u32 = 7;

const LOCK_WRITE: u32 = 10;

const UNLOCK: u32 = 11;

/// Each reason why an event may not stand, but that it awaits a child; and a lock that is given back at the end of a trap.
const LOCKED: &[Line<'static>] = &[
    Line::Offers(&[
        Event::Take { call: 0, host: 0 },
        Event::Take { call: 1, host: 0 },
    ]),
    Line::Unfinished(true),
    // No call has this number, whatever the host.
    Line::Stays(Event::Take { call: 2, host: 0 }, Why::NoCall),
    Line::Stays(Event::Take { call: 2, host: 9 }, Why::NoCall),
    Line::Stays(Event::Ask { call: 2 }, Why::NoCall),
    Line::Stays(Event::End { call: 2 }, Why::NoCall),
    // There is one host, be the call queued or not.
    Line::Stays(Event::Take { call: 0, host: 1 }, Why::NoHost),
    Line::Stays(Event::Ask { call: 0 }, Why::NotOpen),
    Line::Stays(Event::End { call: 0 }, Why::NotOpen),
    Line::Goes(Event::Take { call: 0, host: 0 }),
    Line::Stays(Event::Take { call: 0, host: 0 }, Why::NotQueued),
    Line::Stays(Event::Take { call: 0, host: 1 }, Why::NoHost),
    Line::Stays(Event::End { call: 0 }, Why::NotEnded),
    Line::Offers(&[Event::Ask { call: 0 }]),
    Line::Goes(Event::Ask { call: 0 }),
    // The second call is taken although no worker is free, and finds the lock held.
    Line::Goes(Event::Take { call: 1, host: 0 }),
    Line::Stays(Event::Ask { call: 1 }, Why::Holder(0)),
    Line::Stays(Event::End { call: 1 }, Why::NotEnded),
    Line::Keeps(&[Blocked {
        call: 1,
        by: Obstacle::Held {
            channel: Channel::Global(0),
            holder: 0,
        },
    }]),
    Line::Offers(&[Event::Ask { call: 0 }]),
    // The first one traps, and gives the lock back at its end.
    Line::Stays(Event::End { call: 0 }, Why::NotEnded),
    Line::Goes(Event::Ask { call: 0 }),
    Line::Keeps(&[]),
    Line::Offers(&[Event::Ask { call: 1 }, Event::End { call: 0 }]),
    Line::Stays(Event::Ask { call: 0 }, Why::HasEnded),
    Line::Goes(Event::End { call: 0 }),
    Line::Stays(Event::Take { call: 0, host: 0 }, Why::NotQueued),
    Line::Stays(Event::Ask { call: 0 }, Why::NotOpen),
    Line::Stays(Event::End { call: 0 }, Why::NotOpen),
    Line::Ended(0, Outcome::Trap(Trap::Unreachable), 3),
    Line::Goes(Event::Ask { call: 1 }),
    Line::Goes(Event::Ask { call: 1 }),
    Line::Goes(Event::End { call: 1 }),
    Line::Ended(1, Outcome::Done(0), 5),
    Line::Unfinished(false),
    Line::Offers(&[]),
    Line::Trail(
        Channel::Global(0),
        0,
        &[
            Mark {
                maker: 0,
                row: LOCK_WRITE,
                off: 0,
                len: 0,
            },
            Mark {
                maker: 0,
                row: UNLOCK,
                off: 0,
                len: 0,
            },
            Mark {
                maker: 1,
                row: LOCK_WRITE,
                off: 0,
                len: 0,
            },
            Mark {
                maker: 1,
                row: UNLOCK,
                off: 0,
                len: 0,
            },
        ],
    ),
    Line::Trail(Channel::Local(0), 0, &[]),
];

/// A call submits two children and awaits one after the other.
const AWAITED: &[Line<'static>] = &[
    Line::Offers(&[Event::Take { call: 0, host: 0 }]),
    Line::Goes(Event::Take { call: 0, host: 0 }),
    Line::Goes(Event::Ask { call: 0 }),
    Line::Goes(Event::Ask { call: 0 }),
    // No worker is free: only the child that is awaited is offered.
    Line::Stays(Event::Ask { call: 0 }, Why::Child(1)),
    Line::Keeps(&[Blocked {
        call: 0,
        by: Obstacle::Unfinished { child: 1 },
    }]),
    Line::Offers(&[Event::Take { call: 1, host: 0 }]),
    Line::Goes(Event::Take { call: 1, host: 0 }),
    Line::Stays(Event::Ask { call: 0 }, Why::Child(1)),
    Line::Keeps(&[Blocked {
        call: 0,
        by: Obstacle::Unfinished { child: 1 },
    }]),
    Line::Offers(&[Event::End { call: 1 }]),
    Line::Goes(Event::End { call: 1 }),
    Line::Ended(1, Outcome::Done(21), 1),
    Line::Keeps(&[]),
    Line::Offers(&[Event::Ask { call: 0 }]),
    Line::Goes(Event::Ask { call: 0 }),
    Line::Stays(Event::Ask { call: 0 }, Why::Child(2)),
    Line::Keeps(&[Blocked {
        call: 0,
        by: Obstacle::Unfinished { child: 2 },
    }]),
    Line::Offers(&[Event::Take { call: 2, host: 0 }]),
    Line::Stays(Event::Ask { call: 2 }, Why::NotOpen),
    Line::Goes(Event::Take { call: 2, host: 0 }),
    Line::Stays(Event::Ask { call: 2 }, Why::HasEnded),
    Line::Goes(Event::End { call: 2 }),
    Line::Goes(Event::Ask { call: 0 }),
    Line::Keeps(&[]),
    Line::Offers(&[Event::End { call: 0 }]),
    Line::Unfinished(true),
    Line::Goes(Event::End { call: 0 }),
    Line::Ended(2, Outcome::Done(21), 1),
    Line::Ended(0, Outcome::Done(42), 17),
    Line::Unfinished(false),
    Line::Offers(&[]),
];

/// A key is written at one host, read at another as it was, pushed, and pulled.
const MOVED: &[Line<'static>] = &[
    Line::Offers(&[
        Event::Take { call: 0, host: 0 },
        Event::Take { call: 0, host: 1 },
        Event::Take { call: 1, host: 0 },
        Event::Take { call: 1, host: 1 },
        Event::Take { call: 2, host: 0 },
        Event::Take { call: 2, host: 1 },
        Event::Take { call: 3, host: 0 },
        Event::Take { call: 3, host: 1 },
    ]),
    Line::Stays(Event::Take { call: 0, host: 2 }, Why::NoHost),
    Line::Goes(Event::Take { call: 0, host: 0 }),
    Line::Goes(Event::Ask { call: 0 }),
    Line::Goes(Event::Ask { call: 0 }),
    Line::Goes(Event::Ask { call: 0 }),
    Line::Goes(Event::End { call: 0 }),
    Line::Goes(Event::Take { call: 1, host: 1 }),
    Line::Goes(Event::Ask { call: 1 }),
    Line::Goes(Event::Ask { call: 1 }),
    Line::Goes(Event::Ask { call: 1 }),
    Line::Goes(Event::End { call: 1 }),
    Line::Goes(Event::Take { call: 2, host: 0 }),
    Line::Goes(Event::Ask { call: 2 }),
    Line::Goes(Event::Ask { call: 2 }),
    Line::Goes(Event::End { call: 2 }),
    Line::Goes(Event::Take { call: 3, host: 1 }),
    Line::Goes(Event::Ask { call: 3 }),
    Line::Goes(Event::Ask { call: 3 }),
    Line::Goes(Event::Ask { call: 3 }),
    Line::Goes(Event::End { call: 3 }),
    Line::Trail(
        Channel::Local(0),
        0,
        &[
            Mark {
                maker: 0,
                row: PROBE,
                off: 0,
                len: 0,
            },
            Mark {
                maker: 0,
                row: FILL,
                off: 0,
                len: 1,
            },
            Mark {
                maker: 0,
                row: WRITE,
                off: 0,
                len: 1,
            },
            Mark {
                maker: 2,
                row: PROBE,
                off: 0,
                len: 0,
            },
            Mark {
                maker: 2,
                row: SEND,
                off: 0,
                len: 1,
            },
        ],
    ),
    Line::Trail(
        Channel::Local(0),
        1,
        &[
            Mark {
                maker: 1,
                row: PROBE,
                off: 0,
                len: 0,
            },
            Mark {
                maker: 1,
                row: FILL,
                off: 0,
                len: 1,
            },
            Mark {
                maker: 1,
                row: READ,
                off: 0,
                len: 1,
            },
            Mark {
                maker: 3,
                row: PROBE,
                off: 0,
                len: 0,
            },
            Mark {
                maker: 3,
                row: TAKE,
                off: 0,
                len: 1,
            },
            Mark {
                maker: 3,
                row: READ,
                off: 0,
                len: 1,
            },
        ],
    ),
    Line::Trail(
        Channel::Global(0),
        0,
        &[
            Mark {
                maker: 0,
                row: SEND,
                off: 0,
                len: 1,
            },
            Mark {
                maker: 1,
                row: SEND,
                off: 0,
                len: 1,
            },
            Mark {
                maker: 2,
                row: PUT,
                off: 0,
                len: 1,
            },
            Mark {
                maker: 3,
                row: SEND,
                off: 0,
                len: 1,
            },
        ],
    ),
];

/// A session, its script, and the report at the end.
struct Story<'s> {
    session: Session<'s>,
    lines: &'s [Line<'s>],
    report: &'s str,
}

const STORIES: [Story<'static>; 3] = [
    Story {
        session: HOLDERS,
        lines: LOCKED,
        report: "a trap unreachable used 3\nb done 0 used 5 output \nstate k 00\n",
    },
    Story {
        session: FAMILY,
        lines: AWAITED,
        report: "p done 42 used 17 output \n",
    },
    Story {
        session: PAIR,
        lines: MOVED,
        report: "a done 0 used 5 output \nb done 0 used 3 output \nc done 0 used 3 output \nd done 1 used 5 output \nstate k 01\n",
    },
];

/// The number of lines that hold before one that doesn't.
fn lines_held(
    protos: &Protos<'_>,
    world: &mut World<'_>,
    lines: &[Line<'_>],
) -> Result<usize, AllocError>
    requires { world.old.plan ≡ protos.now }
{
    for (at, line) in lines.iter().enumerate() {
        if !holds(protos, world, line)? {
            return Ok(at);
        }
    }
    Ok(lines.len())
}

/// The same in the world of a registry; with the report one more where all hold.
fn steps_held<'s>(
    alloc: Global,
    protos: &'s Protos<'s>,
    story: &Story<'_>,
) -> Result<usize, AllocError> {
    let mut world = World::new(alloc, protos)?;
    let held = lines_held(protos, &mut world, story.lines)?;
    if held < story.lines.len() || world.report()?.as_slice() != story.report.as_bytes() {
        return Ok(held);
    }
    Ok(held.saturating_add(1))
}

fn held_of(alloc: Global, registry: &Registry, story: &Story<'_>) -> Result<usize, AllocError> {
    if registry.check_budget().is_err() || !has_modules(registry) {
        return Ok(0);
    }
    let protos = Protos::build(alloc, registry)?;
    steps_held(alloc, shorter(&protos), story)
}

/// The number of steps of a story that hold.
fn held(alloc: Global, story: &Story<'_>) -> Result<usize, AllocError> {
    match registry_of(alloc, &story.session) {
        Some(registry) => held_of(alloc, &registry, story),
        None => Ok(0),
    }
}

#[test]
fn each_line_of_a_story_holds(rt: HostRuntime) -> Result<(), Fail> {
    for (at, story) in STORIES.iter().enumerate() {
        let held = held(rt.alloc(), story)?;
        assert!(rt; held > story.lines.len(), "story {at}, line {held}");
    }
    Ok(())
}
