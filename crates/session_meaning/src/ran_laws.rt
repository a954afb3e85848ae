//! Laws over ended sessions of threads. The bodies are empty: what counts is what they ensure.

ghost use Rattle.std.specs.Prelude.{◌≡◌, ℕ, List, Some, slice_get};
ghost use Rattle.faaslet_meaning.specs.Region.{global_value, replica};
ghost use Rattle.session_meaning.specs.Own.{Session, global_history, local_history};
ghost use Rattle.session_meaning.specs.OwnSections.{HasOwnSections, UnlocksHeld};
ghost use Rattle.session_meaning.specs.Plan.{Closed, Key, Names, Plan};
ghost use Rattle.session_meaning.specs.Ran.{Ran};
ghost use Rattle.session_meaning.specs.RanPart.{RanPart};
ghost use Rattle.session_meaning.specs.WellFormed.{WellFormed};

/// In every ended session of a well-formed plan each Unlock finds a lock of its maker, and so between a
/// maker's LockWrite and its Unlock no other maker's entry stands.
pub fn ran_has_own_sections()
    ensures unlocks { (plan : Plan) (s : Session) (finals : List (List ℕ)) → WellFormed plan → Ran plan s finals
        → (host key : ℕ) (k : Key) → slice_get plan.keys key ≡ Some k
        → UnlocksHeld (replica k.size) (local_history s host key)
        × UnlocksHeld (global_value k.size k.init) (global_history plan s k key) }
    ensures sections { (plan : Plan) (s : Session) (finals : List (List ℕ)) → WellFormed plan → Ran plan s finals
        → (host key : ℕ) (k : Key) → slice_get plan.keys key ≡ Some k
        → HasOwnSections (local_history s host key) × HasOwnSections (global_history plan s k key) }
{}

/// In every ended session the entries on the objects of closed keys are of calls of the closed functions,
/// but for the session's last read, and these calls ran with what they were told from the histories of these
/// objects and from the cut of the table's history alone.
pub fn ran_two_worlds()
    ensures { (plan : Plan) (functions keys : Names) (s : Session) (finals : List (List ℕ))
        → Closed plan functions keys → Ran plan s finals → RanPart plan functions keys s }
{}
