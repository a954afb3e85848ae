//! Laws over what is kept of a world. The bodies are empty: what counts is what they ensure.

ghost use Rattle.std.specs.Prelude.{◌≡◌, ℕ, List, filter_map, fold, map};
ghost use Rattle.faaslet_meaning.specs.Channels.{Entry, Question};
ghost use Rattle.faaslet_meaning.specs.Lists.{first};
ghost use Rattle.faaslet_meaning.specs.Region.{halves};
ghost use Rattle.session_meaning.specs.Events.{answer, lock_on};
ghost use Rattle.session_meaning.specs.Plan.{Plan};
ghost use Rattle.session_meaning.specs.World.{World, entered, first_world};
ghost use Rattle.world_objects.specs.declared.objects.KeyStart.{KeyStart};
ghost use Rattle.world_objects.specs.Kept.{objects_of};
ghost use Rattle.world_objects.specs.Served.{entered_at, HasObjects, locks_at, reply_at, start_of, started, told_of};

/// What is kept at the start is what is kept of the world of a plan before any event, where the keys are told as the plan
/// has them.
pub fn starts_as_the_world()
    ensures { (plan : Plan) (keys : List KeyStart) → map told_of keys ≡ map start_of plan.keys
        → started plan.hosts keys ≡ objects_of (first_world plan) }
{}

/// Entries of a call leave what is kept of the world that they leave.
pub fn enters_as_the_world()
    ensures { (w : World) (call host : ℕ) (es : List Entry)
        → objects_of (fold (entered call host) w es) ≡ fold (entered_at call host) (objects_of w) es }
{}

/// A question whose objects are there meets the locks that it meets in the world, and is answered what it is answered
/// there.
pub fn meets_as_the_world()
    ensures locks { (w : World) (call host : ℕ) (q : Question) → HasObjects (objects_of w) host q
        → locks_at (objects_of w) call host q
        ≡ first (filter_map (λ half. lock_on w call host half.0 half.1) (halves q)) }
    ensures answer { (w : World) (call host : ℕ) (q : Question) → HasObjects (objects_of w) host q
        → reply_at (objects_of w) call host q ≡ answer w call host q }
{}
