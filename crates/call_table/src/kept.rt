//! A call table that is kept in turns, and what follows of its entries.

ghost use Rattle.std.specs.Prelude.{ℕ, ◌≡◌, List, IsTrue};
ghost use Rattle.faaslet_meaning.specs.declared.outcome.Outcome.{Outcome};
ghost use Rattle.faaslet_meaning.specs.Lists.{passes_at};
ghost use Rattle.faaslet_meaning.specs.Records.{is_queued};
ghost use Rattle.faaslet_meaning.specs.Table as table;
ghost use Rattle.call_table.specs.Makers.{keeper, is_on, RunsOn, MakesTable};
ghost use Rattle.call_table.specs.Mine.{mine, Took, Ended, Ordered};
ghost use Rattle.call_table.specs.Session.{SessionTable, unfinished};

use crate::table::CallTable;
use turn_cell::Kept;

impl Kept for CallTable {
    ghost use Rattle.call_table.specs.Makers.{MakesTable};

    ghost makes = { MakesTable };
}

/// Entries of others than its worker leave the records of a bench, but for their numbers of children.
pub fn others_leave_a_bench()
    ensures { (maker : ℕ) (entry : List ℕ) (before after : SessionTable) → MakesTable maker entry before after
        → (bench : ℕ) → (maker ≡ keeper before bench → ⊥) → mine bench after.table.records ≡ mine bench before.table.records }
{}

/// Where no call is unfinished, no entry may stand.
pub fn none_unfinished_stays()
    ensures { (maker : ℕ) (entry : List ℕ) (before after : SessionTable) → unfinished before ≡ 0
        → MakesTable maker entry before after → ⊥ }
{}

/// A take puts one record among those of its bench, and a Finish changes one of them.
pub fn a_bench_takes_and_ends()
    ensures takes { (t : table.Table) (call host bench : ℕ) → IsTrue (passes_at (λ r. is_queued r.state) t.records call)
        → Took host bench call t.records (table.taken t call host bench).records }
    ensures ends { (t : table.Table) (call bench : ℕ) (outcome : Outcome) (used : ℕ) (output counts : List ℕ) (maker : ℕ) → RunsOn t call bench
        → Ended bench call outcome used output counts t.records (table.after t maker (table.finish call outcome used output counts)).records }
{}

/// Each call that was taken has an order below the number of those that were taken, and an entry keeps it so.
pub fn orders_are_below()
    ensures { (maker : ℕ) (entry : List ℕ) (before after : SessionTable) → MakesTable maker entry before after
        → Ordered before.table.records → Ordered after.table.records }
{}
