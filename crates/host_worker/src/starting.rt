//! A call begins on a bench, and what it left is read.
ghost use Rattle.std.specs.Prelude.{◌≡◌, ◌≤◌, ◌-◌, [], List, length};
ghost use mathlib.Core.List.{IsPrefix};
ghost use Rattle.faaslet_meaning.specs.Channels.{Transcript, counts, told_by};
ghost use Rattle.faaslet_meaning.specs.declared.outcome.Outcome.{Outcome};
ghost use Rattle.faaslet_run.specs.Allowed.{AreGrants};
ghost use Rattle.faaslet_run.specs.Turns.{SameRoom};
ghost use Rattle.proto_faaslet.specs.Entries.{HasRoom};
ghost use Rattle.turn_cell.specs.Cell.{IsNoteOf, IsPassOf, note_list, pass_list, pass_number, start_of};
ghost use Rattle.told_asks.specs.Knows.{KnowsBy};
ghost use Rattle.told_asks.specs.Seen.{Kids};
ghost use Rattle.turn_cell.specs.History.{Extends};
ghost use Rattle.host_worker.specs.Busy.{Busy, Errand, function_of};
ghost use Rattle.host_worker.specs.Halts.{HasEnded};
ghost use Rattle.host_worker.specs.Hearing.{Hearing};
ghost use Rattle.host_worker.specs.Seats.{Heards, Seats};
ghost use Rattle.host_worker.specs.Starting.{IsHanded, IsSeated};
ghost use Rattle.host_worker.specs.declared.bench.Tiers.{Tiers};
ghost use Rattle.session_meaning.specs.Plan.{Plan};

use crate::bench::Bench;
use call_table::{CallTable, Job};
use faaslet_meaning::Grants;
use proto_faaslet::Proto;
use turn_cell::{Note, Turns};

impl<'s> Bench<'s> {
    /// The bench then knows of the table all that the note has, and nothing more of its own. So it knows of a call that its
    /// worker took.
    pub fn see(&mut self, table: &Turns<CallTable>, note: Note<CallTable>)
        requires cell { IsPassOf self.old.passes.table table.now }
        requires note { IsNoteOf note table.now }
        ensures only { self.new ≡ record self.old { passes = record self.old.passes { table = self.new.passes.table } } }
        ensures seats { (plan : Plan) (tiers : Tiers) → tiers.table.now ≡ table.now → Seats plan tiers self.old → Seats plan tiers self.new }
        ensures heards { (tiers : Tiers) (h : Hearing) → tiers.table.now ≡ table.now → pass_number self.old.passes.table ≡ self.old.number
            → Heards tiers self.old h → Heards tiers self.new h }
        ensures knows { (call : _) (kids : Kids) → KnowsBy (start_of table.now) (note_list note) call kids
            → KnowsBy (start_of table.now) (pass_list self.new.passes.table) call kids }
        ensures others { Extends (pass_number self.old.passes.table) (pass_list self.old.passes.table) (pass_list self.new.passes.table) }
    {
        table.join(&mut self.passes.table, note);
    }

    /// Begins a call that was taken, with its input at the front of the Faaslet's.
    pub fn start_call(
        &mut self,
        proto: &'s Proto<'s>,
        grants: &'s Grants,
        callees: &'s [u32],
        job: Job,
    )
        requires room { HasRoom self.old.faaslet.machine proto.now.code }
        requires pages { proto.now.quota ≤ self.old.faaslet.machine.memory.room }
        requires input { job.len ≤ 65536 }
        requires output { job.room ≤ 65536 }
        requires callees { length callees.now ≤ 256 }
        requires grants { AreGrants grants.now }
        ensures busy { (tiers : Tiers) (e : Errand) → IsSeated tiers self.old job.call e
            → IsHanded e proto.now grants.now callees.now job self.old.faaslet.input → Busy tiers self.new e [] }
        ensures number { self.new.number ≡ self.old.number }
        ensures call { self.new.call ≡ job.call }
        ensures passes { self.new.passes ≡ self.old.passes }
        ensures rooms { SameRoom self.old.faaslet self.new.faaslet }
    {
        self.call = job.call;
        self.callees = callees;
        self.faaslet.start(proto, grants, callees, job);
    }

    /// The number of its passes.
    pub fn number(&self) -> u32
        ensures { result ≡ self.now.number }
    {
        self.number
    }

    /// The output of a call that is over.
    pub fn output(&self) -> &[u8]
        ensures { (e : Errand) (t : Transcript) (o : Outcome) → (x : HasEnded self.now e t o) → result.now ≡ x.last.output }
    {
        self.faaslet.output()
    }

    /// The fuel that a call used that is over.
    pub fn used(&self) -> u64
        ensures { (e : Errand) (t : Transcript) (o : Outcome) → (x : HasEnded self.now e t o) → result ≡ x.used }
    {
        self.faaslet.used()
    }

    /// How many entries a call that is over made on each of its channels.
    pub fn counts(&self) -> &[u64]
        ensures { (e : Errand) (t : Transcript) (o : Outcome) → HasEnded self.now e t o
            → result.now ≡ counts (function_of e).grants (told_by t) }
    {
        self.faaslet.counts()
    }
}
