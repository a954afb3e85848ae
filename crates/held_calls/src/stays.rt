//! Laws on what stays of the calls of a bench. The bodies are empty: what counts is what they ensure.
ghost use Rattle.std.specs.Prelude.{◌≡◌, ℕ, true, List, Some, slice_get};
ghost use Rattle.faaslet_meaning.specs.declared.call.CallRecord.{CallRecord};
ghost use Rattle.faaslet_meaning.specs.Table.{Table};
ghost use Rattle.turn_cell.specs.declared.view.Entry.{Entry};
ghost use Rattle.turn_cell.specs.History.{Extends, Stands};
ghost use Rattle.call_table.specs.Makers.{MakesTable, RunsOn, keeper};
ghost use Rattle.call_table.specs.Mine.{is_of};
ghost use Rattle.call_table.specs.Session.{SessionTable};
ghost use Rattle.held_calls.specs.Places.{SameOn, StillAt, TookAt};

/// Entries of others than its worker leave the calls of a bench as they are, but for their numbers of children: one entry, and all
/// those that stand behind the worker's list.
pub fn others_keep_a_bench()
    ensures one { (maker : ℕ) (entry : List ℕ) (before after : SessionTable) → MakesTable maker entry before after
        → (bench : ℕ) → (maker ≡ keeper before bench → ⊥) → SameOn bench before.table.records after.table.records }
    ensures all { (start one other : SessionTable) (old new : List Entry) (bench : ℕ)
        → Stands MakesTable start old one → Stands MakesTable start new other → Extends (keeper start bench) old new
        → SameOn bench one.table.records other.table.records }
{}

/// What stays twice stays.
pub fn joins()
    ensures none { (bench : ℕ) (records : List CallRecord) → SameOn bench records records }
    ensures both { (bench : ℕ) (first second third : List CallRecord)
        → SameOn bench first second → SameOn bench second third → SameOn bench first third }
{}

/// A call runs on the bench that took it, and goes on to run there while others make entries: at its turn its worker finds it so.
pub fn a_held_call_stays_on()
    ensures taken { (host bench call : ℕ) (before after : Table)
        → TookAt host bench call before.records after.records → RunsOn after call bench }
    ensures runs { (bench call : ℕ) (before after : Table)
        → SameOn bench before.records after.records → RunsOn before call bench → RunsOn after call bench }
    ensures by_lists { (start : SessionTable) (bench call : ℕ) (old new : List Entry)
        → ((t : SessionTable) → Stands MakesTable start old t → RunsOn t.table call bench) → Extends (keeper start bench) old new
        → (t : SessionTable) → Stands MakesTable start new t → RunsOn t.table call bench }
    ensures same { (bench call : ℕ) (old : CallRecord) (before after : List CallRecord)
        → SameOn bench before after → slice_get before call ≡ Some old → is_of bench old.state ≡ true → StillAt call old after }
{}
