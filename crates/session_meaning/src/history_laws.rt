//! Laws over histories as objects keep them: lists of numbers that spell operations. The bodies are empty:
//! what counts is what they ensure.

ghost use Rattle.std.specs.Prelude.{◌≡◌, ℕ, List};
ghost use Rattle.faaslet_meaning.specs.Channels.{RegionOperation};
ghost use Rattle.faaslet_meaning.specs.History.{History, Leads, region_rules, table_rules};
ghost use Rattle.faaslet_meaning.specs.Region.{Region};
ghost use Rattle.faaslet_meaning.specs.Spelling.{spelled, spelled_on_table, MakeAll, Spells};
ghost use Rattle.faaslet_meaning.specs.Table.{Table, TableOperation};
ghost use Rattle.session_meaning.specs.Own.{Session};
ghost use Rattle.session_meaning.specs.Seen.{ResultsFit, Seen, SpellsSession};

/// Spelled entries that lead from one state to another, each by an operation that may stand, spell a legal
/// history that leads there.
pub fn entries_are_a_history()
    ensures region { (s t : Region) (entries : List (ℕ × List ℕ))
        → MakeAll region_rules spelled s entries t
        → (history : History RegionOperation) × Spells spelled entries history × Leads region_rules s history t }
    ensures table { (s t : Table) (entries : List (ℕ × List ℕ))
        → MakeAll table_rules spelled_on_table s entries t
        → (history : History TableOperation) × Spells spelled_on_table entries history × Leads table_rules s history t }
{}

/// What is left of the objects, in lists of numbers, spells one session at most.
pub fn one_session()
    ensures { (seen : Seen) (s t : Session) → SpellsSession seen s → SpellsSession seen t
        → ResultsFit s.table_history → ResultsFit t.table_history → s ≡ t }
{}
