//! A session under the schedule of a seed.

ghost use Rattle.std.specs.Prelude.{◌≡◌, ◌<◌, IfOk, OnOk, length};
ghost use Rattle.session_meaning.specs.Schedule.{Schedule, is_stuck, next_of, offered};
ghost use Rattle.world_core.specs.Tracing.{Picked};
ghost use Rattle.world_core.specs.Whole.{world_after};

use crate::generator::Generator;
use crate::running::StepFault;
use crate::world::World;
use protos::Protos;
use std::alloc::{AllocError, Global};

/// The world behind the last event of a schedule, and whether it is stuck: calls are unfinished, and nothing is offered.
#[derive(Drop)]
pub struct Traced<'s> {
    pub world: World<'s>,
    pub stuck: bool,
}

/// The event that the generator picks comes next.
fn pick_next(world: &mut World<'_>, generator: &mut Generator, count: u32) -> Result<(), AllocError>
    requires count { count ≡ length (offered world.old.plan (world_after world.old)) }
    requires some { 0 < count }
    ensures picked { OnOk result (Picked world.old generator.old world.new) }
    ensures goes_on { generator.new ≡ next_of generator.old }
{
    let event = world.enabled_at(generator.pick(count));
    match world.step(event) {
        Ok(()) => Ok(()),
        Err(StepFault::Want) => Err(AllocError),
        Err(StepFault::NotEnabled(_)) => unreachable!(),
    }
}

/// Runs a session by the events that a seed picks, until none is offered.
pub fn trace_session<'s>(
    alloc: Global,
    protos: &'s Protos<'s>,
    seed: u64,
) -> Result<Traced<'s>, AllocError>
    ensures plan { IfOk result (λ t. t.world.plan ≡ protos.now) }
    ensures schedule { IfOk result (λ t. Schedule protos.now seed t.world.events) }
    ensures stuck { IfOk result (λ t. t.stuck ≡ is_stuck protos.now (world_after t.world)) }
{
    let mut world = World::new(alloc, protos)?;
    let mut generator = Generator::new(seed);
    for _event in 0..u64::MAX {
        let count = world.enabled();
        if count == 0 {
            let stuck = world.is_unfinished();
            return Ok(Traced { world, stuck });
        }
        pick_next(&mut world, &mut generator, count)?;
    }
    // So many events find no memory.
    Err(AllocError)
}
