//! Laws over what is offered. The bodies are empty: what counts is what they ensure.

ghost use Rattle.std.specs.Prelude.{◌≡◌};
ghost use Rattle.session_meaning.specs.Plan.{Plan};
ghost use Rattle.session_meaning.specs.Schedule.{offered};
ghost use Rattle.session_meaning.specs.World.{World};
ghost use Rattle.world_core.specs.Floor.{FloorOf, offered_on};
ghost use Rattle.world_core.specs.declared.floor.Floor.{Floor};

/// What is offered on the floor of a world is what a trace offers there.
pub fn floors_offer()
    ensures { (plan : Plan) (w : World) (f : Floor) → FloorOf plan w f → offered_on f ≡ offered plan w }
{}
