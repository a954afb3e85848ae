//! Laws over cuts of sessions. The bodies are empty: what counts is what they ensure.

ghost use Rattle.std.specs.Prelude.{◌≡◌, ◌++◌, ℕ, List, Some, option_map, slice_get, true};
ghost use Rattle.faaslet_meaning.specs.declared.call.CallRecord.{CallRecord};
ghost use Rattle.session_meaning.specs.declared.event.Event.{Event};
ghost use Rattle.session_meaning.specs.declared.event.Why.TheVariants.{Child, Holder};
ghost use Rattle.session_meaning.specs.CallNames.{
  CallsApart,
  DistinctLabels,
  DistinctNames,
  PathsApart,
  PlainLabels,
  call_name,
};
ghost use Rattle.session_meaning.specs.Cut.{
  CutStep,
  CutWorld,
  call_of,
  calls_of,
  cut_event,
  cut_why,
  events_cut,
  plan_cut,
  world_cut,
};
ghost use Rattle.session_meaning.specs.Events.{Worlds, why};
ghost use Rattle.session_meaning.specs.NamedCut.{events_by_name, NumbersStand, plan_by_name, world_by_name};
ghost use Rattle.session_meaning.specs.PartMakers.{KinOfPart, MakersOfPart, OfPart};
ghost use Rattle.session_meaning.specs.Plan.{Closed, Names, Plan};
ghost use Rattle.session_meaning.specs.WellFormed.{WellFormed};
ghost use Rattle.session_meaning.specs.World.{World};

/// Of closed functions and keys the cut of a world is the world of the cut plan under the cut events,
/// each of which may stand there.
pub fn cut_is_world()
    ensures { (plan : Plan) (functions keys : Names) (events : List Event) (w : World)
        → Closed plan functions keys → Worlds plan events w → CutWorld plan functions keys events w }
{}

/// Two plans with one cut, and two lists of events with one cut, make two worlds with one cut.
pub fn one_cut()
    ensures { (plan other : Plan) (functions keys : Names) (events more : List Event) (w v : World)
        → Closed plan functions keys → Closed other functions keys
        → Worlds plan events w → Worlds other more v
        → plan_cut plan functions keys ≡ plan_cut other functions keys
        → events_cut plan functions w events ≡ events_cut other functions v more
        → world_cut plan functions keys w ≡ world_cut other functions keys v }
{}

/// An event on a call of these functions is an event of the cut world, and any other leaves the cut as it
/// is.
pub fn one_event()
    ensures { (plan : Plan) (functions keys : Names) (events : List Event) (w : World) (e : Event)
        → Closed plan functions keys → Worlds plan events w → CutStep plan functions keys w e }
{}

/// An event on a call of these functions may stand in the cut world where it may stand, and else the first
/// reason against it is the same, with the same call where it names one.
pub fn one_reason()
    ensures { (plan : Plan) (functions keys : Names) (events : List Event) (w : World) (e : Event)
        → Closed plan functions keys → Worlds plan events w
        → calls_of plan functions w (call_of e) ≡ true
        → why (world_cut plan functions keys w) (cut_event (calls_of plan functions w) e)
        ≡ option_map (cut_why (calls_of plan functions w)) (why w e) }
{}

/// Where the labels of requests differ, different calls of a world have different names.
pub fn distinct_calls()
    ensures { (plan : Plan) (events : List Event) (w : World)
        → DistinctLabels plan → Worlds plan events w → CallsApart plan w.table.records }
{}

/// Where besides no label has a point, they have different paths.
pub fn distinct_paths()
    ensures { (plan : Plan) (events : List Event) (w : World)
        → DistinctLabels plan → PlainLabels plan → Worlds plan events w → PathsApart plan w.table.records }
{}

/// A call keeps its name, whatever events follow.
pub fn calls_keep_names()
    ensures { (plan : Plan) (events more : List Event) (w v : World) (call : ℕ) (r : CallRecord)
        → Worlds plan events w → Worlds plan (events ++ more) v → slice_get w.table.records call ≡ Some r
        → call_name plan v.table.records call ≡ call_name plan w.table.records call }
{}

/// Two plans with one cut by names, and two lists of events with one cut by names, make two worlds with
/// one cut by names.
pub fn one_cut_by_name()
    ensures { (plan other : Plan) (functions keys : Names) (events more : List Event) (w v : World)
        → DistinctNames plan → DistinctLabels plan
        → Closed plan functions keys → Closed other functions keys
        → Worlds plan events w → Worlds other more v
        → plan_by_name plan functions keys ≡ plan_by_name other functions keys
        → events_by_name plan functions w events ≡ events_by_name other functions v more
        → world_by_name plan functions keys w ≡ world_by_name other functions keys v }
{}

/// In a cut by names each number stands for the name that its call, function or key has in the whole.
pub fn numbers_stand()
    ensures { (plan : Plan) (functions keys : Names) (w : World) → NumbersStand plan functions keys w }
{}

/// Who makes entries on the objects of closed keys, and who holds their locks, are calls of the closed
/// functions, and an entry of the table is on such a call exactly where its maker is one. So in a cut the
/// number of each of them stands for its name.
pub fn makers_are_of_part()
    ensures { (plan : Plan) (functions keys : Names) (events : List Event) (w : World)
        → Closed plan functions keys → Worlds plan events w → MakersOfPart plan functions keys w }
{}

/// The parent of a call of the closed functions, and the first call of its request, are such calls.
pub fn kin_are_of_part()
    ensures { (plan : Plan) (functions keys : Names) (events : List Event) (w : World)
        → Closed plan functions keys → Worlds plan events w → KinOfPart plan functions keys w }
{}

/// Whoever holds the lock for which an event on a call of these functions may not stand is such a call, and
/// so, in a well-formed plan, is the child for which it may not.
pub fn reasons_name_the_part()
    ensures holders { (plan : Plan) (functions keys : Names) (events : List Event) (w : World) (e : Event)
        (holder : ℕ) → Closed plan functions keys → Worlds plan events w
        → calls_of plan functions w (call_of e) ≡ true → why w e ≡ Some (Holder holder)
        → OfPart plan functions keys w holder }
    ensures children { (plan : Plan) (functions keys : Names) (events : List Event) (w : World) (e : Event)
        (child : ℕ) → WellFormed plan → Closed plan functions keys → Worlds plan events w
        → calls_of plan functions w (call_of e) ≡ true → why w e ≡ Some (Child child)
        → OfPart plan functions keys w child }
{}
