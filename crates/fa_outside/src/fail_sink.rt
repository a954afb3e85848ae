//! A sink in memory of which some calls fail.

ghost use Rattle.std.specs.Prelude.{◌≡◌, ◌-◌, ◌<◌, ◌≤◌, ◌⊎◌, ◌++◌, ◌↔◌, [], Some, Ok, Err, Bool, true, false, take, length, min, IsOk, IfOk, OnErr};
ghost use Rattle.fa_outside.specs.Failing.{next, sink_fails};
ghost use Rattle.fa_outside.specs.MemSink.{refused};

use crate::fail_shelf::fails_at;
use crate::fault::Failed;
use crate::mem_sink::MemSink;
use crate::sink::Sink;
use std::marker::Model;

/// A sink in memory of which the calls with these numbers fail, counted from 0. Any other call does
/// what it does there.
#[derive(Debug, Drop)]
pub struct FailSink {
    inner: MemSink,
    fails: Vec<u32>,
    calls: u64,
}

impl Model for FailSink {
    ghost use Rattle.fa_outside.specs.Failing.{FailingSink};

    ghost Value = { FailingSink };

    ghost view = { λ s. record { sink = s.inner; fails = s.fails.items; calls = s.calls } };
}

impl FailSink {
    pub fn new(inner: MemSink, fails: Vec<u32>) -> FailSink
        ensures { result ≡ record { sink = inner; fails = fails.items; calls = 0 } }
    {
        FailSink {
            inner,
            fails,
            calls: 0,
        }
    }

    /// The sink in memory, with what was written.
    pub fn inner(&self) -> &MemSink
        ensures { result.now ≡ self.now.sink }
    {
        &self.inner
    }

    /// Counts a call, and answers whether it fails.
    fn count(&mut self) -> bool
        ensures fails { result ≡ sink_fails self.old }
        ensures state { self.new ≡ record self.old { calls = next self.old.calls } }
    {
        let fails = fails_at(&self.fails, self.calls);
        self.calls = self.calls.saturating_add(1);
        fails
    }
}

impl Sink for FailSink {
    ghost written = { λ s. Some s.sink.bytes };

    ghost faults = { λ s. s.sink.faults };

    fn write(&mut self, bytes: &[u8]) -> Result<usize, Failed>
        ensures takes { IsOk result ↔ ((bytes.now ≡ [])
            ⊎ ((sink_fails self.old ≡ false) × (0 < self.old.sink.room))) }
        ensures count { IfOk result (λ n. n ≡ min (length bytes.now) self.old.sink.room) }
        ensures taken { IfOk result (λ n. self.new ≡ record self.old {
          sink = record self.old.sink {
            bytes = self.old.sink.bytes ++ take n bytes.now;
            room = self.old.sink.room - n;
          };
          calls = next self.old.calls;
        }) }
        ensures full { OnErr result (self.new
            ≡ record self.old { sink = refused self.old.sink; calls = next self.old.calls }) }
        ensures counted { self.old.sink.faults ≤ self.new.sink.faults }
    {
        if self.count() && !bytes.is_empty() {
            return Err(self.inner.fail());
        }
        self.inner.write(bytes)
    }
}
