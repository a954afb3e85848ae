//! Sessions under the schedules of seeds: the events that the generator picks, worked out by hand from the rule, whether the
//! session gets stuck, and the report.

use crate::scripts::shorter;
use crate::sessions::{CROSSWISE, FAMILY, MOTHER, Session, TWINS, registry_of};
use grant_registry::Registry;
use protos::{Protos, has_modules};
use session_meaning::Event;
use std::alloc::{AllocError, Global};
use std::test::Fail;
use world_core::trace_session;

/// A session and a seed, with what is due.
struct Trace<'s> {
    session: Session<'s>,
    seed: u64,
    events: &'s [Event],
    stuck: bool,
    report: &'s str,
}

const TRACES: [Trace<'static>; 6] = [
    Trace {
        session: TWINS,
        seed: 0,
        events: &[
            Event::Take { call: 1, host: 0 },
            Event::End { call: 1 },
            Event::Take { call: 0, host: 0 },
            Event::End { call: 0 },
        ],
        stuck: false,
        report: "a done 21 used 1 output \nb done 21 used 1 output \n",
    },
    Trace {
        session: TWINS,
        seed: 1,
        events: &[
            Event::Take { call: 0, host: 0 },
            Event::End { call: 0 },
            Event::Take { call: 1, host: 0 },
            Event::End { call: 1 },
        ],
        stuck: false,
        report: "a done 21 used 1 output \nb done 21 used 1 output \n",
    },
    Trace {
        session: FAMILY,
        seed: 7,
        events: &[
            Event::Take { call: 0, host: 0 },
            Event::Ask { call: 0 },
            Event::Ask { call: 0 },
            Event::Take { call: 1, host: 0 },
            Event::End { call: 1 },
            Event::Ask { call: 0 },
            Event::Take { call: 2, host: 0 },
            Event::End { call: 2 },
            Event::Ask { call: 0 },
            Event::End { call: 0 },
        ],
        stuck: false,
        report: "p done 42 used 17 output \n",
    },
    Trace {
        session: MOTHER,
        seed: 7,
        events: &[
            Event::Take { call: 0, host: 0 },
            Event::Ask { call: 0 },
            Event::Ask { call: 0 },
            Event::Take { call: 1, host: 0 },
        ],
        stuck: true,
        report: "r stuck\nblocked r child r.0\nblocked r.0 global k holder r\nstate k 00\n",
    },
    Trace {
        session: CROSSWISE,
        seed: 0,
        events: &[
            Event::Take { call: 1, host: 0 },
            Event::Take { call: 0, host: 0 },
            Event::Ask { call: 1 },
            Event::Ask { call: 0 },
        ],
        stuck: true,
        report: "a stuck\nb stuck\nblocked a global l holder b\nblocked b global k holder a\nstate k 00\nstate l 00\n",
    },
    Trace {
        session: CROSSWISE,
        seed: 1,
        events: &[
            Event::Take { call: 0, host: 0 },
            Event::Ask { call: 0 },
            Event::Take { call: 1, host: 0 },
            Event::Ask { call: 0 },
            Event::Ask { call: 0 },
            Event::Ask { call: 0 },
            Event::Ask { call: 1 },
            Event::Ask { call: 1 },
            Event::End { call: 0 },
            Event::Ask { call: 1 },
            Event::Ask { call: 1 },
            Event::End { call: 1 },
        ],
        stuck: false,
        report: "a done 0 used 5 output \nb done 0 used 5 output \nstate k 00\nstate l 00\n",
    },
];

/// Whether a trace of these snapshots is as is due.
fn traces_so<'s>(
    alloc: Global,
    protos: &'s Protos<'s>,
    due: &Trace<'_>,
) -> Result<bool, AllocError> {
    let traced = trace_session(alloc, protos, due.seed)?;
    Ok(
        traced.stuck == due.stuck
            && traced.world.events() == due.events
            && traced.world.report()?.as_slice() == due.report.as_bytes(),
    )
}

fn registry_traces_so(
    alloc: Global,
    registry: &Registry,
    due: &Trace<'_>,
) -> Result<bool, AllocError> {
    if registry.check_budget().is_err() || !has_modules(registry) {
        return Ok(false);
    }
    let protos = Protos::build(alloc, registry)?;
    traces_so(alloc, shorter(&protos), due)
}

/// Whether a session goes under its seed as is due.
fn goes_so(alloc: Global, due: &Trace<'_>) -> Result<bool, AllocError> {
    match registry_of(alloc, &due.session) {
        Some(registry) => registry_traces_so(alloc, &registry, due),
        None => Ok(false),
    }
}

#[test]
fn each_seed_has_its_schedule(rt: HostRuntime) -> Result<(), Fail> {
    for (at, due) in TRACES.iter().enumerate() {
        assert!(rt; goes_so(rt.alloc(), due)?, "trace {at}");
    }
    Ok(())
}
