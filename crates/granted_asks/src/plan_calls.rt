//! Laws on the calls of a well-formed plan. The bodies are empty: what counts is what they ensure.

ghost use Rattle.std.specs.Prelude.{◌≡◌, ℕ, List, Some, slice_get};
ghost use Rattle.faaslet_meaning.specs.CallState.{State, asks, fresh_state, runs};
ghost use Rattle.faaslet_meaning.specs.Channels.{Question, Transcript};
ghost use Rattle.faaslet_meaning.specs.Configuration.{Configuration};
ghost use Rattle.faaslet_meaning.specs.Fresh.{fresh, makes};
ghost use Rattle.faaslet_meaning.specs.Goes.{Goes};
ghost use Rattle.faaslet_meaning.specs.Runs.{invocation};
ghost use Rattle.session_meaning.specs.Plan.{NamedFunction, Plan};
ghost use Rattle.session_meaning.specs.WellFormed.{WellFormed};
ghost use Rattle.granted_asks.specs.CanStart.{CanStart};
ghost use Rattle.granted_asks.specs.LiesIn.{LiesIn};

/// Of a well-formed plan what a call asks lies in the plan, whatever its input, wherever it comes to, and whatever it
/// was replied that fits.
pub fn asks_are_within()
    ensures { (plan : Plan) (n : ℕ) (f : NamedFunction) (input : List ℕ) (c : Configuration)
        (transcript : Transcript) (s : State) (q : Question)
        → WellFormed plan → slice_get plan.functions n ≡ Some f → fresh f.function ≡ makes c
        → Goes (invocation f.function input) (runs (fresh_state c)) transcript (asks s q)
        → LiesIn plan f.function s q }
{}

/// Of a well-formed plan each function keeps the limits that a Faaslet asks for.
pub fn functions_can_start()
    ensures { (plan : Plan) (n : ℕ) (f : NamedFunction)
        → WellFormed plan → slice_get plan.functions n ≡ Some f → CanStart f.function }
{}
