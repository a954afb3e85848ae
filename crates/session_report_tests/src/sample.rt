//! A session with given labels, keys, values and records.

ghost use Rattle.std.specs.Prelude.{◌≤◌, length};

use faaslet_meaning::{CallRecord, CallState, Counts, Items, Outcome};
use session_report::Reported;
use std::alloc::{AllocError, Global};

/// How far a call is, or how it ended, with the fuel that it used and its output.
#[derive(Clone, Copy)]
pub enum Far<'s> {
    Queued,
    Taken,
    Ended(Outcome, u64, &'s [u8]),
}

/// A child: its request, its parent with its own number among the parent's children, its depth, and how far it is.
#[derive(Clone, Copy)]
pub struct Child<'s> {
    pub request: u32,
    pub parent: u32,
    pub number: u32,
    pub depth: u32,
    pub far: Far<'s>,
}

/// A key with its global value.
#[derive(Clone, Copy)]
pub struct Value<'s> {
    pub name: &'s str,
    pub bytes: &'s [u8],
}

#[derive(Drop)]
pub struct Sample<'s> {
    pub labels: &'s [&'s str],
    pub keys: &'s [Value<'s>],
    pub records: Vec<CallRecord>,
    ghost few_labels: { length labels.now ≤ 1024 },
    ghost few_keys: { length keys.now ≤ 64 },
    ghost few_calls: { length records.items ≤ 1048576 },
}

impl<'s> Reported for Sample<'s> {
    ghost use Rattle.std.specs.Prelude.{map};
    ghost use Rattle.session_report_tests.specs.Samples.{plan_of};

    ghost plan = { λ s. plan_of (map (λ l. l.now) s.labels.now) (map (λ k. k.name.now) s.keys.now) };

    ghost records = { λ s. s.records.items };

    ghost values = { λ s. map (λ k. k.bytes.now) s.keys.now };

    fn requests(&self) -> u32 {
        self.labels.len() as u32
    }

    fn label(&self, request: u32) -> &str {
        self.labels[request as usize]
    }

    fn keys(&self) -> u32 {
        self.keys.len() as u32
    }

    fn key_name(&self, key: u32) -> &str {
        self.keys[key as usize].name
    }

    fn value(&self, key: u32) -> &[u8] {
        self.keys[key as usize].bytes
    }

    fn calls(&self) -> u32 {
        self.records.len() as u32
    }

    fn record(&self, call: u32) -> &CallRecord {
        &self.records[call as usize]
    }
}

fn state(alloc: Global, far: Far<'_>) -> Result<CallState, AllocError> {
    match far {
        Far::Queued => Ok(CallState::Queued),
        Far::Taken => Ok(CallState::Taken {
            host: 0,
            bench: 0,
            order: 0,
        }),
        Far::Ended(outcome, used, output) => {
            let mut bytes = Vec::new(alloc);
            bytes.extend_from_slice(output)?;
            Ok(CallState::Finished {
                host: 0,
                bench: 0,
                order: 0,
                outcome,
                used,
                output: Items::of(bytes),
                counts: Items::of(Vec::new(alloc)),
            })
        }
    }
}

fn record(
    alloc: Global,
    request: u32,
    parent: Option<u32>,
    child: u32,
    depth: u32,
    far: Far<'_>,
) -> Result<CallRecord, AllocError> {
    Ok(CallRecord {
        request,
        parent,
        child,
        depth,
        function: 0,
        input: Items::of(Vec::new(alloc)),
        room: 0,
        fuel: 0,
        from: 0,
        placed: 0,
        state: state(alloc, far)?,
        children: 0,
    })
}

/// The records of requests that are so far, and of these children behind them.
pub fn records(
    alloc: Global,
    requests: &[Far<'_>],
    children: &[Child<'_>],
) -> Result<Vec<CallRecord>, AllocError> {
    let mut records = Vec::new(alloc);
    let mut request = 0u32;
    for far in requests {
        records.push(record(alloc, request, None, 0, 1, *far)?)?;
        request = request.saturating_add(1);
    }
    for c in children {
        let parent = Some(c.parent);
        records.push(record(alloc, c.request, parent, c.number, c.depth, c.far)?)?;
    }
    Ok(records)
}
