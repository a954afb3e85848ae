//! Laws for those who take these turns: which calls may end by a worker's list, and how many requests came by the session's. The
//! bodies are empty: what counts is what they ensure.
ghost use Rattle.std.specs.Prelude.{◌≡◌, ◌≤◌, ◌+◌, ℕ, List};
ghost use Rattle.faaslet_meaning.specs.Channels.{Reply};
ghost use Rattle.faaslet_meaning.specs.Table as table;
ghost use Rattle.faaslet_meaning.specs.Table.{TableOperation, callable};
ghost use Rattle.turn_cell.specs.declared.view.Entry.{Entry};
ghost use Rattle.call_table.specs.Makers.{keeper, session};
ghost use Rattle.call_table.specs.Session.{SessionTable};
ghost use Rattle.call_table.specs.declared.jobs.Job.{Job};
ghost use Rattle.held_calls.specs.Places.{SameOn};
ghost use Rattle.worker_turns.specs.Coming.{AreDeep, CameBy};
ghost use Rattle.worker_turns.specs.Ending.{MayEndBy};
ghost use Rattle.worker_turns.specs.Taking.{TookJob};
ghost use Rattle.worker_turns.specs.Turned.{AtItsTurn, Entered};

/// A call that was taken may end on its bench, with an output that fits its room and a count for each channel of its function.
pub fn what_was_taken_may_end()
    ensures { (start : SessionTable) (maker host bench : ℕ) (operation : TableOperation) (old new : List Entry) (job : Job)
        (before after : List ℕ) (output counts : ℕ) → TookJob start maker host bench operation old new job before after
        → output ≤ job.room → counts ≡ (callable start.table job.function).channels
        → MayEndBy start new job.call bench output counts }
{}

/// It still may after entries of others, and after what its worker does on another bench.
pub fn a_call_may_end_later()
    ensures others { (start t : SessionTable) (call bench output counts : ℕ) (old new : List Entry)
        → AtItsTurn start (keeper start bench) old new t → MayEndBy start old call bench output counts
        → MayEndBy start new call bench output counts }
    ensures own { (start : SessionTable) (call bench output counts : ℕ) (old new : List Entry) (made : TableOperation × Reply)
        → (e : Entered start (keeper start bench) old new made) → SameOn bench e.before.table.records e.after.table.records
        → MayEndBy start old call bench output counts → MayEndBy start new call bench output counts }
{}

/// Entries of others than the session bring no request.
pub fn others_make_no_requests()
    ensures { (start t : SessionTable) (old new : List Entry) (n : ℕ) → AreDeep start.table.records
        → AtItsTurn start (session start) old new t → CameBy start old n → CameBy start new n }
{}

/// The session's entry brings one.
pub fn a_request_comes()
    ensures { (start : SessionTable) (old new : List Entry) (n function host : ℕ) (input : List ℕ) (reply : Reply)
        → AreDeep start.table.records
        → Entered start (session start) old new (table.submit_request function host input, reply)
        → CameBy start old n → CameBy start new (n + 1) }
{}
