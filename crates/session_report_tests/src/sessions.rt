//! The lines of sessions, as worked out by hand.

use crate::sample::{Child, Far, Sample, Value, records};
use fa_outside::{FailSink, MemSink};
use faaslet_meaning::{Broken, Channel, Outcome, Trap};
use session_report::{Blocked, Obstacle, WriteFault, report, write_report};
use std::alloc::{AllocError, Global};
use std::test::Fail;

/// A session with its blocked calls, and its lines. Calls are numbered requests first.
#[derive(Clone, Copy)]
struct Row<'s> {
    labels: &'s [&'s str],
    keys: &'s [Value<'s>],
    requests: &'s [Far<'s>],
    children: &'s [Child<'s>],
    blocked: &'s [Blocked],
    lines: &'s str,
}

const ZERO: Value<'static> = Value {
    name: "k",
    bytes: &[0],
};

const NOTHING: Row<'static> = Row {
    labels: &[],
    keys: &[],
    requests: &[],
    children: &[],
    blocked: &[],
    lines: "",
};

/// A call kept a global lock to its end, which then let another go on.
const HELD_BACK: Row<'static> = Row {
    labels: &["a", "b"],
    keys: &[ZERO],
    requests: &[
        Far::Ended(Outcome::Trap(Trap::Unreachable), 3, &[]),
        Far::Ended(Outcome::Done(0), 5, &[]),
    ],
    children: &[],
    blocked: &[],
    lines: "a trap unreachable used 3\nb done 0 used 5 output \nstate k 00\n",
};

/// Each way to end, outputs, a request that nobody took, and values in the order of the keys.
const EACH_WAY: Row<'static> = Row {
    labels: &["z", "y-1", "x_2", "w", "v", "u"],
    keys: &[
        Value {
            name: "second",
            bytes: &[8, 7, 6, 5, 4, 3, 2, 1],
        },
        Value {
            name: "first",
            bytes: &[255, 160, 9, 16],
        },
    ],
    requests: &[
        Far::Ended(Outcome::Done(-3), 11, &[1, 171, 255]),
        Far::Ended(Outcome::Trap(Trap::AppendFull), 9, &[2]),
        Far::Ended(Outcome::FuelOut, 1, &[]),
        Far::Ended(Outcome::Broken(Broken::Quota), 0, &[]),
        Far::Ended(Outcome::Want, 4, &[]),
        Far::Queued,
    ],
    children: &[],
    blocked: &[],
    lines: "z done -3 used 11 output 01abff\ny-1 trap append full used 9\nx_2 fuel\nw broken quota\n\
v want\nu stuck\nstate second 0807060504030201\nstate first ffa00910\n",
};

/// A parent that holds a lock awaits a child that wants it.
const LOCKED_OUT: Row<'static> = Row {
    labels: &["s", "r"],
    keys: &[
        Value {
            name: "m",
            bytes: &[7],
        },
        ZERO,
    ],
    requests: &[Far::Ended(Outcome::Done(84_281_096), 8, &[]), Far::Taken],
    children: &[Child {
        request: 1,
        parent: 1,
        number: 0,
        depth: 2,
        far: Far::Taken,
    }],
    blocked: &[
        Blocked {
            call: 1,
            by: Obstacle::Unfinished { child: 2 },
        },
        Blocked {
            call: 2,
            by: Obstacle::Held {
                channel: Channel::Global(1),
                holder: 1,
            },
        },
    ],
    lines: "s done 84281096 used 8 output \nr stuck\nblocked r child r.0\nblocked r.0 global k holder r\n\
state m 07\nstate k 00\n",
};

/// A lock on a replica, and calls further down.
const FURTHER_DOWN: Row<'static> = Row {
    labels: &["one", "two"],
    keys: &[ZERO],
    requests: &[Far::Taken, Far::Taken],
    children: &[
        Child {
            request: 1,
            parent: 1,
            number: 12,
            depth: 2,
            far: Far::Taken,
        },
        Child {
            request: 1,
            parent: 2,
            number: 0,
            depth: 3,
            far: Far::Taken,
        },
    ],
    blocked: &[
        Blocked {
            call: 0,
            by: Obstacle::Held {
                channel: Channel::Local(0),
                holder: 3,
            },
        },
        Blocked {
            call: 1,
            by: Obstacle::Unfinished { child: 2 },
        },
        Blocked {
            call: 2,
            by: Obstacle::Unfinished { child: 3 },
        },
        Blocked {
            call: 3,
            by: Obstacle::Held {
                channel: Channel::Global(0),
                holder: 0,
            },
        },
    ],
    lines: "one stuck\ntwo stuck\nblocked one local k holder two.12.0\nblocked two child two.12\n\
blocked two.12 child two.12.0\nblocked two.12.0 global k holder one\nstate k 00\n",
};

/// The session of a row.
fn sample<'s>(alloc: Global, row: &Row<'s>) -> Result<Option<Sample<'s>>, AllocError> {
    let calls = records(alloc, row.requests, row.children)?;
    if row.labels.len() > 1_024 || row.keys.len() > 64 || calls.len() > 1_048_576 {
        return Ok(None);
    }
    Ok(Some(Sample {
        labels: row.labels,
        keys: row.keys,
        records: calls,
    }))
}

/// Whether these are the lines of a session, put together and written one after the other.
fn has_lines(alloc: Global, row: &Row<'_>) -> Result<bool, AllocError> {
    let Some(sample) = sample(alloc, row)? else {
        return Ok(false);
    };
    let told = report(alloc, &sample, row.blocked)?;
    let mut sink = MemSink::with_room(alloc, row.lines.len())?;
    let written = write_report(alloc, &sample, row.blocked, &mut sink);
    Ok(
        told.as_slice() == row.lines.as_bytes()
            && written == Ok(())
            && sink.bytes() == row.lines.as_bytes(),
    )
}

#[test]
fn each_session_has_its_lines(rt: HostRuntime) -> Result<(), Fail> {
    for row in &[NOTHING, HELD_BACK, EACH_WAY, LOCKED_OUT, FURTHER_DOWN] {
        assert!(rt; has_lines(rt.alloc(), row)?);
    }
    Ok(())
}

/// What was written where the sink fails at its write of this number.
fn fails_at(alloc: Global, call: u32, front: &str) -> Result<bool, AllocError> {
    let Some(sample) = sample(alloc, &LOCKED_OUT)? else {
        return Ok(false);
    };
    let mut fails = Vec::new(alloc);
    fails.push(call)?;
    let mut sink = FailSink::new(MemSink::with_room(alloc, 1_000)?, fails);
    let written = write_report(alloc, &sample, LOCKED_OUT.blocked, &mut sink);
    Ok(written == Err(WriteFault::Failed) && sink.inner().bytes() == front.as_bytes())
}

#[test]
fn each_line_is_one_write(rt: HostRuntime) -> Result<(), Fail> {
    let first = "s done 84281096 used 8 output \n";
    let blocked = "s done 84281096 used 8 output \nr stuck\nblocked r child r.0\n";
    for (call, front) in [(0, ""), (1, first), (3, blocked)] {
        assert!(rt; fails_at(rt.alloc(), call, front)?);
    }
    Ok(())
}
