//! Laws for those who call `serve_call`: which question an ask is, where lists of entries lead, and what a maker was told by
//! them. The bodies are empty: what counts is what they ensure.
ghost use Rattle.std.specs.Prelude.{◌≡◌, ℕ, List, ◌++◌, [], Some, true};
ghost use Rattle.faaslet_meaning.specs.declared.ask.Ask.{Ask};
ghost use Rattle.faaslet_meaning.specs.declared.ask.Ask.TheVariants as an_ask;
ghost use Rattle.faaslet_meaning.specs.Asks.{question_of_ask};
ghost use Rattle.faaslet_meaning.specs.CallState.{Invocation};
ghost use Rattle.faaslet_meaning.specs.Channels.{Operation, Reply};
ghost use Rattle.faaslet_meaning.specs.History.{History, Leads, table_rules};
ghost use Rattle.faaslet_meaning.specs.Table.{Table, TableOperation};
ghost use Rattle.turn_cell.specs.declared.view.Entry.{Entry};
ghost use Rattle.turn_cell.specs.History.{Extends, Stands};
ghost use Rattle.call_table.specs.Makers.{MakesTable};
ghost use Rattle.call_table.specs.Session.{SessionTable};
ghost use Rattle.call_service.specs.Asked.{question_of, told_as};
ghost use Rattle.call_service.specs.Grown.{Went};
ghost use Rattle.call_service.specs.Heard.{Heard, SpellsHistory};
ghost use Rattle.call_service.specs.May.{IsChild};
ghost use Rattle.call_service.specs.Served.{Made, Serves};
ghost use Rattle.call_service.specs.declared.service.Service.{Service};

/// The question that is served is the one that the call asks.
pub fn questions_are_asked()
    ensures submits { (j : Invocation) (f len : ℕ) (scratch : List ℕ)
        → question_of_ask j (an_ask.Submit f len) scratch ≡ question_of j.callees (an_ask.Submit f len) scratch }
    ensures looks { (j : Invocation) (child : ℕ) (scratch : List ℕ)
        → question_of_ask j (an_ask.Look child) scratch ≡ question_of j.callees (an_ask.Look child) scratch }
{}

/// A list of entries leads from a start to one table at most.
pub fn lists_lead_to_one_table()
    ensures { (start one other : SessionTable) (list : List Entry)
        → Stands MakesTable start list one → Stands MakesTable start list other → one ≡ other }
{}

/// A list that leads somewhere spells a legal history that leads there.
pub fn lists_spell_a_history()
    ensures { (start end : SessionTable) (list : List Entry) → Stands MakesTable start list end
        → (history : History TableOperation) × SpellsHistory list history × Leads table_rules start.table history end.table }
{}

/// Entries keep what is known of the session, lose no record, and leave what is finished.
pub fn sessions_go_on()
    ensures { (start end : SessionTable) (list : List Entry) → Stands MakesTable start list end → Went start end }
{}

/// A call keeps its children, whatever entries stand behind.
pub fn children_stay()
    ensures { (start : SessionTable) (call child : ℕ) (list more : List Entry)
        → IsChild start list call child → IsChild start (list ++ more) call child }
{}

/// By no entries a maker was told nothing.
pub fn nothing_is_heard()
    ensures { (start : Table) (maker : ℕ) → Heard start maker [] [] }
{}

/// A list of entries tells a maker one thing.
pub fn heard_once()
    ensures { (start : Table) (maker : ℕ) (list : List Entry) (a b : List (TableOperation × Reply))
        → Heard start maker list a → Heard start maker list b → a ≡ b }
{}

/// Entries of others that stand behind a maker's list tell it nothing.
pub fn heard_stays()
    ensures { (start end : SessionTable) (maker : ℕ) (old new : List Entry) (told : List (TableOperation × Reply))
        → Extends maker old new → Stands MakesTable start new end → Heard start.table maker old told
        → Heard start.table maker new told }
{}

/// What was made is what its maker was told, behind what it had been told.
pub fn what_is_made_is_heard()
    ensures { (start : SessionTable) (maker call : ℕ) (old new : List Entry) (made told : List (TableOperation × Reply))
        → Made start maker call old new made → Heard start.table maker old told
        → Heard start.table maker new (told ++ made) }
{}

/// Whatever serving came to, the maker's list is its earlier one and more entries.
pub fn serving_only_adds()
    ensures { (callees : List ℕ) (start : SessionTable) (maker call : ℕ) (asked : Ask) (old new : List Entry) (came : Service)
        (scratch told : List ℕ) → Serves callees start maker call asked old new came scratch told
        → (more : List Entry) × (old ++ more ≡ new) }
{}

/// What a call was told on its channel to the table grows on the table as it grows there.
pub fn told_as_joins()
    ensures { (call : ℕ) (before after : List (Operation × Reply))
        → told_as call (before ++ after) ≡ told_as call before ++ told_as call after }
{}
