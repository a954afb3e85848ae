//! Laws on whole lists of entries: what stays by any of them, and where a list ends. The bodies are empty: what counts is what
//! they ensure.
ghost use Rattle.std.specs.Prelude.{◌≡◌, ℕ, List, ◌++◌, []};
ghost use Rattle.faaslet_meaning.specs.declared.call.Callable.{Callable};
ghost use Rattle.turn_cell.specs.declared.view.Entry.{Entry};
ghost use Rattle.turn_cell.specs.History.{Extends, Stands};
ghost use Rattle.call_table.specs.Makers.{MakesTable, benches, keeper, session};
ghost use Rattle.call_table.specs.Mine.{Ordered};
ghost use Rattle.call_table.specs.Session.{SessionTable, empty_session, unfinished};

/// The orders of the calls that were taken stay below their number, and by a table that began empty they always are.
pub fn orders_stay()
    ensures kept { (start t : SessionTable) (list : List Entry) → Stands MakesTable start list t
        → Ordered start.table.records → Ordered t.table.records }
    ensures from_none { (hosts : ℕ) (functions : List Callable) (workers requests : ℕ) (t : SessionTable) (list : List Entry)
        → Stands MakesTable (empty_session hosts functions workers requests) list t → Ordered t.table.records }
{}

/// A list that leads somewhere leads there by each of its fronts, and lists that lead on are one list.
pub fn lists_are_cut_and_joined()
    ensures cut { (start end : SessionTable) (list more : List Entry) → Stands MakesTable start (list ++ more) end
        → (mid : SessionTable) × Stands MakesTable start list mid × Stands MakesTable mid more end }
    ensures rest { (start mid end : SessionTable) (list more : List Entry) → Stands MakesTable start list mid
        → Stands MakesTable start (list ++ more) end → Stands MakesTable mid more end }
    ensures joined { (start mid end : SessionTable) (list more : List Entry) → Stands MakesTable start list mid
        → Stands MakesTable mid more end → Stands MakesTable start (list ++ more) end }
{}

/// Where a list leads to a table on which no call is unfinished, no list is longer.
pub fn none_comes_behind_the_end()
    ensures front { (start t end : SessionTable) (list more : List Entry) → Stands MakesTable start list t → unfinished t ≡ 0
        → Stands MakesTable start (list ++ more) end → more ≡ [] }
    ensures others { (start t end : SessionTable) (maker : ℕ) (old new : List Entry) → Stands MakesTable start old t
        → unfinished t ≡ 0 → Stands MakesTable start new end → Extends maker old new → new ≡ old }
{}

/// The hosts and their workers stay, so the makers are the same, and so do the functions.
pub fn what_is_known_stays()
    ensures hosts { (start t : SessionTable) (list : List Entry) → Stands MakesTable start list t → t.table.hosts ≡ start.table.hosts }
    ensures functions { (start t : SessionTable) (list : List Entry) → Stands MakesTable start list t
        → t.table.functions ≡ start.table.functions }
    ensures workers { (start t : SessionTable) (list : List Entry) → Stands MakesTable start list t → t.workers ≡ start.workers }
    ensures requests { (start t : SessionTable) (list : List Entry) → Stands MakesTable start list t → t.requests ≡ start.requests }
    ensures benches { (start t : SessionTable) (list : List Entry) → Stands MakesTable start list t → benches t ≡ benches start }
    ensures keepers { (start t : SessionTable) (list : List Entry) → Stands MakesTable start list t
        → (bench : ℕ) → keeper t bench ≡ keeper start bench }
    ensures session { (start t : SessionTable) (list : List Entry) → Stands MakesTable start list t → session t ≡ session start }
{}
