//! Laws on what the calls of a world ran. The bodies are empty: what counts is what they ensure.

ghost use Rattle.std.specs.Prelude.{◌≡◌, ℕ, List, Some, slice_get};
ghost use Rattle.faaslet_meaning.specs.Region.{global_value, replica};
ghost use Rattle.faaslet_meaning.specs.Sections.{HasSections};
ghost use Rattle.session_meaning.specs.declared.event.Event.{Event};
ghost use Rattle.session_meaning.specs.Events.{Worlds};
ghost use Rattle.session_meaning.specs.OwnSections.{HasOwnSections, UnlocksHeld};
ghost use Rattle.session_meaning.specs.Plan.{Key, Plan};
ghost use Rattle.session_meaning.specs.WellFormed.{WellFormed};
ghost use Rattle.session_meaning.specs.World.{World};
ghost use Rattle.session_meaning.specs.WorldTold.{CallsFit, CallsRan, global_history, local_history};

/// In every world each finished call came to its outcome, its output and its used fuel as its module says,
/// told of its own entries by the replies at their places, and its counts are those of its entries.
pub fn calls_ran()
    ensures { (plan : Plan) (events : List Event) (w : World)
        → CallsFit plan → Worlds plan events w → CallsRan plan w }
{}

/// In every world the histories of replicas and of global values have write-lock sections: between a call's
/// LockWrite and its Unlock no other call's entry stands, but an Unlock that finds no lock of its call.
pub fn have_sections()
    ensures { (plan : Plan) (events : List Event) (w : World) → Worlds plan events w
        → (host key : ℕ) (k : Key) → slice_get plan.keys key ≡ Some k
        → HasSections (replica k.size) (local_history w host key)
        × HasSections (global_value k.size k.init) (global_history w key) }
{}

/// In every world of a well-formed plan each Unlock finds a lock of its call, and so between a call's
/// LockWrite and its Unlock no other call's entry stands.
pub fn have_own_sections()
    ensures unlocks { (plan : Plan) (events : List Event) (w : World) → WellFormed plan → Worlds plan events w
        → (host key : ℕ) (k : Key) → slice_get plan.keys key ≡ Some k
        → UnlocksHeld (replica k.size) (local_history w host key)
        × UnlocksHeld (global_value k.size k.init) (global_history w key) }
    ensures sections { (plan : Plan) (events : List Event) (w : World) → WellFormed plan → Worlds plan events w
        → (host key : ℕ) (k : Key) → slice_get plan.keys key ≡ Some k
        → HasOwnSections (local_history w host key) × HasOwnSections (global_history w key) }
{}
