//! Laws over the definitions of worlds and schedules. The bodies are empty: what counts is what they
//! ensure.

ghost use Rattle.std.specs.Prelude.{◌≡◌, ℕ, List, [], IsFalse};
ghost use Rattle.session_meaning.specs.declared.event.Event.{Event};
ghost use Rattle.faaslet_meaning.specs.CallState.{Invocation, Progress};
ghost use Rattle.faaslet_meaning.specs.Channels.{Question};
ghost use Rattle.faaslet_meaning.specs.Goes.{Goes};
ghost use Rattle.session_meaning.specs.Events.{Worlds, world};
ghost use Rattle.session_meaning.specs.Keeping.{CallsOpen, HistoriesLead};
ghost use Rattle.session_meaning.specs.KeptBack.{LocksKeepBack};
ghost use Rattle.session_meaning.specs.OpenCall.{is_running, quiet};
ghost use Rattle.session_meaning.specs.Plan.{Plan};
ghost use Rattle.session_meaning.specs.Schedule.{offered, Schedule};
ghost use Rattle.session_meaning.specs.WellFormed.{WellFormed};
ghost use Rattle.session_meaning.specs.World.{World};

/// In every world each history is legal and leads to what is there.
pub fn histories_lead()
    ensures { (plan : Plan) (events : List Event) (w : World)
        → Worlds plan events w → HistoriesLead plan w }
{}

/// In every world of a well-formed plan the table has the plan's hosts and functions, and a call is open
/// exactly where its record is taken and not finished.
pub fn taken_calls_are_open()
    ensures { (plan : Plan) (events : List Event) (w : World)
        → WellFormed plan → Worlds plan events w → CallsOpen plan w }
{}

/// A lock keeps a question back exactly where one of the entries that it would make may not stand, and the
/// holder that is named is the least maker that blocks this entry.
pub fn locks_keep_back()
    ensures { (w : World) (call host : ℕ) (q : Question) → LocksKeepBack w call host q }
{}

/// A call goes on by its own steps, up to a question or to its end.
pub fn calls_rest()
    ensures goes { (j : Invocation) (p : Progress) → Goes j p [] (quiet j p) }
    ensures rests { (j : Invocation) (p : Progress) → IsFalse (is_running (quiet j p)) }
{}

/// The events that a seed picks may stand where they come, and behind them none is offered.
pub fn schedule_stands()
    ensures stands { (plan : Plan) (seed : ℕ) (es : List Event)
        → Schedule plan seed es → Worlds plan es (world plan es) }
    ensures ends { (plan : Plan) (seed : ℕ) (es : List Event)
        → Schedule plan seed es → offered plan (world plan es) ≡ [] }
{}

/// A seed picks one list of events at most.
pub fn one_schedule()
    ensures { (plan : Plan) (seed : ℕ) (es fs : List Event)
        → Schedule plan seed es → Schedule plan seed fs → es ≡ fs }
{}

/// Of a well-formed plan each seed picks a list of events: a trace ends.
pub fn has_schedule()
    ensures { (plan : Plan) (seed : ℕ) → WellFormed plan → (es : List Event) × Schedule plan seed es }
{}
