//! Laws over the definitions of runs. The bodies are empty: what counts is what they ensure.

ghost use Rattle.std.specs.Prelude.{◌≡◌, ◌≢◌, ℕ, ◌+◌, ◌*◌, ◌<◌, ◌≤◌, List, length};
ghost use Rattle.faaslet_meaning.specs.declared.grant.Channel.{Channel};
ghost use Rattle.faaslet_meaning.specs.declared.outcome.Outcome.{Outcome};
ghost use Rattle.faaslet_meaning.specs.declared.outcome.Outcome.TheVariants.{Want};
ghost use Rattle.faaslet_meaning.specs.Bounds.{bound, steps_left, steps_of};
ghost use Rattle.faaslet_meaning.specs.Call.{call_step, replied};
ghost use Rattle.faaslet_meaning.specs.CallState.{Invocation, State, Progress, runs, asks, fresh_state};
ghost use Rattle.faaslet_meaning.specs.Channels.{Question, Reply, Told, Transcript, replies};
ghost use Rattle.faaslet_meaning.specs.Configuration.{Configuration};
ghost use Rattle.faaslet_meaning.specs.Fresh.{Function, fresh, makes};
ghost use Rattle.faaslet_meaning.specs.Runs.{Run, Runs, invocation};

/// With the same replies on each channel a call comes to one outcome at most, want of memory aside, with
/// one output, one number of used fuel, and one list of operations on each channel.
pub fn one_outcome()
    ensures { (f : Function) (input : List ℕ) (told other : Told)
        (o p : Outcome) (x y : List ℕ) (used spent : ℕ) → o ≢ Want → p ≢ Want
        → ((channel : Channel) → replies told channel ≡ replies other channel)
        → Runs f input told o x used → Runs f input other p y spent
        → (o ≡ p) × (x ≡ y) × (used ≡ spent) × ((channel : Channel) → told channel ≡ other channel) }
{}

/// The steps that may still come, before a call has begun its first.
pub fn steps_at_first()
    ensures { (f : Function) (c : Configuration) → fresh f ≡ makes c
        → steps_left (runs (fresh_state c)) ≡ 2 * f.fuel + 1 }
{}

/// Each step leaves fewer.
pub fn each_step_leaves_less()
    ensures { (j : Invocation) (s : State) → steps_left (call_step j s) < steps_left (runs s) }
{}

/// No reply leaves more.
pub fn no_reply_leaves_more()
    ensures { (j : Invocation) (s : State) (q : Question) (r : Reply)
        → steps_left (replied j s r) ≤ steps_left (asks s q) }
{}

/// So a run to its end makes at most twice as many steps as it has fuel, and one, its questions aside.
pub fn few_steps()
    ensures { (f : Function) (input : List ℕ) (c : Configuration) → fresh f ≡ makes c
        → (transcript : Transcript) (last : State) (o : Outcome)
        → (run : Run (invocation f input) (runs (fresh_state c)) transcript last o)
        → steps_of run ≤ 2 * f.fuel + 1 }
{}

/// No step raises the bound on the questions that a call may still ask.
pub fn no_step_asks_more()
    ensures { (j : Invocation) (s : State) → bound j (call_step j s) ≤ bound j (runs s) }
{}

/// Each reply lowers it.
pub fn each_reply_asks_less()
    ensures { (j : Invocation) (s : State) (q : Question) (r : Reply)
        → bound j (replied j s r) < bound j (asks s q) }
{}

/// So a run asks at most so often.
pub fn few_questions()
    ensures { (j : Invocation) (p : Progress) (transcript : Transcript) (last : State) (o : Outcome)
        → Run j p transcript last o → length transcript ≤ bound j p }
{}
