//! A sink in memory.

ghost use Rattle.std.specs.Prelude.{◌≡◌, ◌-◌, ◌<◌, ◌≤◌, ◌⊎◌, ◌++◌, ◌↔◌, [], Some, Ok, Err, take, length, min, IsOk, IfOk, OnErr};
ghost use Rattle.fa_outside.specs.MemSink.{refused};

use crate::fault::Failed;
use crate::sink::Sink;
use std::alloc::{AllocError, Global};
use std::marker::Model;

/// A sink in memory with room for so many bytes. It fails only where no room is left.
#[derive(Debug, Drop)]
pub struct MemSink {
    bytes: Vec<u8>,
    room: usize,
    faults: u64,
}

impl Model for MemSink {
    ghost use Rattle.std.specs.Prelude.{◌+◌, ◌≤◌, vec_len, vec_capacity};
    ghost use Rattle.fa_outside.specs.MemSink.{Held};

    ghost Value = { Held };

    ghost view = { λ s. record { bytes = s.bytes.items; room = s.room; faults = s.faults } };

    ghost invariant = { λ s. vec_len s.bytes + s.room ≤ vec_capacity s.bytes };
}

impl MemSink {
    /// An empty sink, with all its room taken now.
    pub fn with_room(alloc: Global, room: usize) -> Result<MemSink, AllocError>
        ensures { IfOk result (λ sink. sink ≡ record { bytes = []; room = room; faults = 0 }) }
    {
        Ok(MemSink {
            bytes: Vec::with_capacity(alloc, room)?,
            room,
            faults: 0,
        })
    }

    /// What was written.
    pub fn bytes(&self) -> &[u8]
        ensures { result.now ≡ self.now.bytes }
    {
        &self.bytes
    }

    /// Counts a fault.
    pub(crate) fn fail(&mut self) -> Failed
        ensures state { self.new ≡ refused self.old }
        ensures counted { self.old.faults ≤ self.new.faults }
    {
        self.faults = self.faults.saturating_add(1);
        Failed
    }
}

impl Sink for MemSink {
    ghost written = { λ s. Some s.bytes };

    ghost faults = { λ s. s.faults };

    fn write(&mut self, bytes: &[u8]) -> Result<usize, Failed>
        ensures takes { IsOk result ↔ ((bytes.now ≡ []) ⊎ (0 < self.old.room)) }
        ensures count { IfOk result (λ n. n ≡ min (length bytes.now) self.old.room) }
        ensures taken { IfOk result (λ n. self.new ≡ record self.old {
          bytes = self.old.bytes ++ take n bytes.now;
          room = self.old.room - n;
        }) }
        ensures full { OnErr result (self.new ≡ refused self.old) }
        ensures counted { self.old.faults ≤ self.new.faults }
    {
        if !bytes.is_empty() && self.room == 0 {
            return Err(self.fail());
        }
        let n = bytes.len().min(self.room);
        self.bytes.extend_from_slice(&bytes[..n]).unwrap();
        self.room -= n;
        Ok(n)
    }
}
