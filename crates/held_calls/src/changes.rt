//! Laws on what an operation does to the calls of the benches. The bodies are empty: what counts is what they ensure.
ghost use Rattle.std.specs.Prelude.{◌≡◌, ℕ, List};
ghost use Rattle.faaslet_meaning.specs.declared.outcome.Outcome.{Outcome};
ghost use Rattle.faaslet_meaning.specs.Channels.{Reply};
ghost use Rattle.faaslet_meaning.specs.Table as table;
ghost use Rattle.turn_cell.specs.declared.view.Entry.{Entry};
ghost use Rattle.turn_cell.specs.History.{Stands};
ghost use Rattle.call_table.specs.Made.{Made};
ghost use Rattle.call_table.specs.Makers.{MakesTable, RunsOn};
ghost use Rattle.call_table.specs.Mine.{Ordered};
ghost use Rattle.call_table.specs.Session.{SessionTable};
ghost use Rattle.held_calls.specs.Places.{EndedAt, SameOn, TookAt};

/// A take changes the call's record alone, among those of its bench, and leaves the other benches alone.
pub fn a_take_is_at_its_place()
    ensures next { (start t after : SessionTable) (list : List Entry) (host bench call : ℕ)
        → Stands MakesTable start list t → Ordered start.table.records → Made t (table.take_next host bench) after (Reply.number call)
        → TookAt host bench call t.table.records after.table.records }
    ensures next_others { (t after : SessionTable) (host bench : ℕ) (reply : Reply)
        → Made t (table.take_next host bench) after reply
        → (b : ℕ) → (b ≡ bench → ⊥) → SameOn b t.table.records after.table.records }
    ensures this { (start t after : SessionTable) (list : List Entry) (call host bench : ℕ) (reply : Reply)
        → Stands MakesTable start list t → Ordered start.table.records → Made t (table.take_this call host bench) after reply
        → TookAt host bench call t.table.records after.table.records }
    ensures this_others { (t after : SessionTable) (call host bench : ℕ) (reply : Reply)
        → Made t (table.take_this call host bench) after reply
        → (b : ℕ) → (b ≡ bench → ⊥) → SameOn b t.table.records after.table.records }
{}

/// A Finish changes the call's record alone, among those of the bench on which it ran, and leaves the other benches alone.
pub fn a_finish_is_at_its_place()
    ensures ends { (t after : SessionTable) (call bench : ℕ) (outcome : Outcome) (used : ℕ) (output counts : List ℕ) (reply : Reply)
        → RunsOn t.table call bench → Made t (table.finish call outcome used output counts) after reply
        → EndedAt bench call outcome used output counts t.table.records after.table.records }
    ensures others { (t after : SessionTable) (call bench : ℕ) (outcome : Outcome) (used : ℕ) (output counts : List ℕ) (reply : Reply)
        → RunsOn t.table call bench → Made t (table.finish call outcome used output counts) after reply
        → (b : ℕ) → (b ≡ bench → ⊥) → SameOn b t.table.records after.table.records }
{}

/// Requests, Submits and Looks leave every bench alone.
pub fn what_is_asked_leaves_the_benches()
    ensures requests { (t after : SessionTable) (function host : ℕ) (input : List ℕ) (reply : Reply)
        → Made t (table.submit_request function host input) after reply
        → (bench : ℕ) → SameOn bench t.table.records after.table.records }
    ensures submits { (t after : SessionTable) (parent function : ℕ) (input : List ℕ) (reply : Reply)
        → Made t (table.submit parent function input) after reply
        → (bench : ℕ) → SameOn bench t.table.records after.table.records }
    ensures looks { (t after : SessionTable) (parent child : ℕ) (reply : Reply) → Made t (table.look parent child) after reply
        → (bench : ℕ) → SameOn bench t.table.records after.table.records }
{}
