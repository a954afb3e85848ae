//! From what is known when all threads have ended, the session ran. The bodies are empty: what counts is what they ensure.
ghost use Rattle.std.specs.Prelude.{◌≡◌, ℕ, List};
ghost use Rattle.session_meaning.specs.Own.{Session};
ghost use Rattle.session_meaning.specs.Plan.{Plan};
ghost use Rattle.session_meaning.specs.Ran.{Ran};
ghost use Rattle.session_meaning.specs.Seen.{Seen, SpellsSession};
ghost use Rattle.session_meaning.specs.WellFormed.{WellFormed};
ghost use Rattle.session_ends.specs.Session.{EndedSession};

/// What is left of a session of a well-formed plan, once all threads have ended, spells one that ran.
pub fn an_ended_session_ran()
    ensures { (plan : Plan) (seen : Seen) (finals : List (List ℕ)) → WellFormed plan → EndedSession plan seen finals
        → (s : Session) × SpellsSession seen s × Ran plan s finals }
{}

/// No two sessions that ran are spelled by it.
pub fn an_ended_session_is_one()
    ensures { (plan : Plan) (seen : Seen) (finals : List (List ℕ)) → EndedSession plan seen finals
        → (s t : Session) → SpellsSession seen s → SpellsSession seen t → Ran plan s finals → Ran plan t finals → s ≡ t }
{}
