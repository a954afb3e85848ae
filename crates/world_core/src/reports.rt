//! The report of a world.

ghost use Rattle.std.specs.Prelude.{◌≡◌, IfOk};
ghost use Rattle.session_meaning.specs.SessionReport.{values, world_report};
ghost use Rattle.session_report.specs.Told.{AreBlocked};
ghost use Rattle.world_core.specs.Whole.{world_after};

use crate::world::World;
use faaslet_meaning::{Bytes, CallRecord};
use session_report::{Blocked, Reported, report, report_of_world};
use std::alloc::{AllocError, Global};

impl<'s> Reported for World<'s> {
    ghost use Rattle.session_meaning.specs.SessionReport.{values};
    ghost use Rattle.world_core.specs.Whole.{world_after};

    ghost plan = { λ w. w.plan };

    ghost records = { λ w. (world_after w).table.records };

    ghost values = { λ w. values (world_after w) };

    fn requests(&self) -> u32 {
        self.running.protos.registry().requests()
    }

    fn label(&self, request: u32) -> &str {
        self.running.protos.registry().request_plan(request).label
    }

    fn keys(&self) -> u32 {
        self.running.protos.registry().keys()
    }

    fn key_name(&self, key: u32) -> &str {
        self.running.protos.registry().key_plan(key).name
    }

    fn value(&self, key: u32) -> &[u8] {
        self.running.objects.value(key)
    }

    fn calls(&self) -> u32 {
        self.running.table.calls()
    }

    fn record(&self, call: u32) -> &CallRecord {
        self.running.table.record_of(call)
    }
}

impl<'s> World<'s> {
    /// The calls that are kept from their next questions, by rising number, each with what keeps it.
    pub fn blocked(&self) -> Result<Vec<Blocked>, AllocError>
        ensures { IfOk result (λ all. AreBlocked (world_after self.now) all.items) }
    {
        self.running.blocked()
    }

    /// The report of this world.
    pub fn report(&self) -> Result<Bytes, AllocError>
        ensures { IfOk result (λ bytes. bytes ≡ world_report self.now.plan (world_after self.now)) }
    {
        let blocked = self.blocked()?;
        report_of_world();
        report(self.running.alloc, self, &blocked)
    }
}
