//! What is so of the benches of a session, whatever entries stand on its table. The bodies are empty: what counts is what they
//! ensure.
ghost use Rattle.std.specs.Prelude.{◌≡◌, ◌<◌, ℕ, List, Some, false, slice_get, true};
ghost use Rattle.faaslet_meaning.specs.declared.call.CallRecord.{CallRecord};
ghost use Rattle.faaslet_meaning.specs.declared.grant.Channel.{Channel};
ghost use Rattle.faaslet_meaning.specs.Channels.{RegionOperation};
ghost use Rattle.faaslet_meaning.specs.History.{History};
ghost use Rattle.faaslet_meaning.specs.Records.{is_queued};
ghost use Rattle.faaslet_meaning.specs.Spelling.{Spells, spelled};
ghost use Rattle.faaslet_meaning.specs.Table.{TableOperation};
ghost use Rattle.session_meaning.specs.Answered.{Answered, asked_on, asked_on_table, told_of};
ghost use Rattle.session_meaning.specs.Own.{benches};
ghost use Rattle.session_meaning.specs.Plan.{Plan};
ghost use Rattle.session_meaning.specs.WellFormed.{WellFormed};
ghost use Rattle.shared_region.specs.Entries.{MakesShared};
ghost use Rattle.shared_region.specs.Shared.{Shared};
ghost use Rattle.turn_cell.specs.History.{Stands};
ghost use Rattle.turn_cell.specs.declared.view.Entry.{Entry};
ghost use Rattle.call_table.specs.Makers.{MakesTable};
ghost use Rattle.call_table.specs.Mine.{is_of};
ghost use Rattle.call_table.specs.Session.{SessionTable};
ghost use Rattle.call_service.specs.Heard.{SpellsHistory};
ghost use Rattle.told_asks.specs.Leaves.{leaves_lock};
ghost use Rattle.bench_parts.specs.Parts.{Heard};
ghost use Rattle.bench_parts.specs.Ran.{BenchRan};
ghost use Rattle.session_ends.specs.Bench.{HeardOn, HeardOnTable};
ghost use Rattle.session_ends.specs.Opened.{first_session};
ghost use Rattle.session_ends.specs.Session.{pairs};

/// Each call that was taken is on one of the plan's benches.
pub fn a_taken_call_is_on_a_bench()
    ensures { (plan : Plan) (list : List Entry) (t : SessionTable) → Stands MakesTable (first_session plan) list t
        → (call : ℕ) (r : CallRecord) → slice_get t.table.records call ≡ Some r → is_queued r.state ≡ false
        → (bench : ℕ) × (bench < benches plan) × (is_of bench r.state ≡ true) }
{}

/// What a bench was told, all of whose calls ran, leaves it no lock.
pub fn a_bench_rests_without_locks()
    ensures { (plan : Plan) (list : List Entry) (t : SessionTable) (bench : ℕ) (heard : Heard) → WellFormed plan
        → Stands MakesTable (first_session plan) list t → BenchRan plan t.table.records bench heard
        → (channel : Channel) → leaves_lock false (told_of (heard channel)) ≡ false }
{}

/// What a bench heard by its pass's list is what the history of the whole list tells it.
pub fn what_is_heard_is_told()
    ensures region { (start end : Shared) (bench : ℕ) (list : List Entry) (heard : List Answered) (history : History RegionOperation)
        → Stands MakesShared start list end → HeardOn start.region bench list heard → Spells spelled (pairs list) history
        → asked_on bench start.region history ≡ heard }
    ensures table { (plan : Plan) (end : SessionTable) (bench : ℕ) (list : List Entry) (heard : List Answered)
        (history : History TableOperation)
        → Stands MakesTable (first_session plan) list end → HeardOnTable plan bench list heard → SpellsHistory list history
        → asked_on_table bench (first_session plan).table history ≡ heard }
{}
