//! Laws on the children of a call: what it has seen of them, and what its bench's entries on the call table tell. The bodies
//! are empty: what counts is what they ensure.
ghost use Rattle.std.specs.Prelude.{◌≡◌, ℕ, ◌<◌, ◌≤◌, List, ◌++◌, [], IsTrue, length};
ghost use Rattle.faaslet_meaning.specs.declared.ask.Ask.{Ask};
ghost use Rattle.faaslet_meaning.specs.declared.ask.Reply as coded;
ghost use Rattle.faaslet_meaning.specs.Call.{fits, output_limit};
ghost use Rattle.faaslet_meaning.specs.CallState.{State, asks, fresh_state, runs};
ghost use Rattle.faaslet_meaning.specs.Channels.{Question, Transcript};
ghost use Rattle.faaslet_meaning.specs.Configuration.{Configuration};
ghost use Rattle.faaslet_meaning.specs.Fresh.{Function, fresh, makes};
ghost use Rattle.faaslet_meaning.specs.Goes.{Goes};
ghost use Rattle.faaslet_meaning.specs.Runs.{invocation};
ghost use Rattle.turn_cell.specs.declared.view.Entry.{Entry};
ghost use Rattle.turn_cell.specs.History.{Stands};
ghost use Rattle.call_table.specs.Makers.{MakesTable, RunsOn};
ghost use Rattle.call_table.specs.Session.{SessionTable};
ghost use Rattle.call_service.specs.May.{IsChild};
ghost use Rattle.call_service.specs.Served.{Answers};
ghost use Rattle.told_asks.specs.Counts.{CountsChildren};
ghost use Rattle.told_asks.specs.Knows.{KnowsBy};
ghost use Rattle.told_asks.specs.Seen.{Kids, seen_after, seen_by};

/// Wherever a call asks, its state has the children that its questions and their replies tell.
pub fn what_a_call_has_seen()
    ensures { (f : Function) (input : List ℕ) (c : Configuration) (transcript : Transcript) (s : State) (q : Question)
        → fresh f ≡ makes c → Goes (invocation f input) (runs (fresh_state c)) transcript (asks s q)
        → s.children ≡ seen_by [] transcript }
{}

/// What is told later comes to what was seen before.
pub fn what_is_seen_grows()
    ensures { (kids : Kids) (before after : Transcript)
        → seen_by kids (before ++ after) ≡ seen_by (seen_by kids before) after }
{}

/// Entries keep the counts of children. A table without records has them.
pub fn children_are_counted()
    ensures none { CountsChildren [] }
    ensures kept { (start end : SessionTable) (list : List Entry) → Stands MakesTable start list end
        → CountsChildren start.table.records → CountsChildren end.table.records }
{}

/// A call that runs has a record; that is all that is known before its first question.
pub fn none_is_known()
    ensures { (start t : SessionTable) (list : List Entry) (call bench : ℕ)
        → Stands MakesTable start list t → RunsOn t.table call bench → KnowsBy start list call [] }
{}

/// What a call knows of its children stays so, whatever entries stand behind.
pub fn children_stay_known()
    ensures { (start : SessionTable) (call : ℕ) (kids : Kids) (list more : List Entry)
        → KnowsBy start list call kids → KnowsBy start (list ++ more) call kids }
{}

/// Each child that a call has seen is there, so it may be looked at.
pub fn a_call_looks_at_its_children()
    ensures { (start : SessionTable) (call child : ℕ) (kids : Kids) (list : List Entry)
        → CountsChildren start.table.records → KnowsBy start list call kids → child < length kids
        → IsChild start list call child }
{}

/// What the table answers fits the state of the call, where it has seen these children.
pub fn a_reply_of_the_table_fits()
    ensures { (callees : List ℕ) (start : SessionTable) (maker call : ℕ) (asked : Ask) (old new : List Entry)
        (code : coded.Reply) (scratch told : List ℕ) (s : State)
        → CountsChildren start.table.records → length told ≤ output_limit → KnowsBy start old call s.children
        → (a : Answers callees start maker call asked old new code scratch told)
        → IsTrue (fits s a.question a.answer) }
{}

/// And the call then knows of its children what that tells.
pub fn a_reply_tells_of_children()
    ensures { (callees : List ℕ) (start : SessionTable) (maker call : ℕ) (asked : Ask) (old new : List Entry)
        (code : coded.Reply) (scratch told : List ℕ) (kids : Kids)
        → KnowsBy start old call kids
        → (a : Answers callees start maker call asked old new code scratch told)
        → KnowsBy start new call (seen_after kids a.question a.answer) }
{}
