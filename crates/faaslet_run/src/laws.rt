//! Laws of where a Faaslet is. The bodies are empty: what counts is what they ensure.

ghost use Rattle.std.specs.Prelude.{◌≡◌, ℕ, List};
ghost use Rattle.faaslet_meaning.specs.CallState.{Invocation, State, Progress};
ghost use Rattle.faaslet_meaning.specs.Channels.{Transcript};
ghost use Rattle.faaslet_run.specs.Places.{StandsAt};
ghost use Rattle.faaslet_run.specs.declared.faaslet.Faaslet.{Faaslet};

/// With other bytes in its scratch a Faaslet is where it was.
pub fn stands_with_scratch()
    ensures { (f : Faaslet) (j : Invocation) (start : State) (transcript : Transcript) (p : Progress) (bytes : List ℕ)
        → StandsAt f j start transcript p
        → StandsAt (record f { scratch = bytes }) j start transcript p }
{}
