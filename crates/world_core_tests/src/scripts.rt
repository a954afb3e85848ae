//! What a session is put through, line by line.

ghost use Rattle.std.specs.Prelude.{◌≡◌, IsTrue};
ghost use Rattle.world_core_tests.specs.Leading.{LeadsAt};

use faaslet_meaning::{CallState, Channel, Outcome};
use protos::Protos;
use session_meaning::{Event, Mark, Why};
use session_report::Blocked;
use std::alloc::AllocError;
use world_core::{StepFault, World};

/// A line of a script.
#[derive(Clone, Copy)]
pub enum Line<'s> {
    /// The event may stand.
    Goes(Event),
    /// The event may not stand, for this first reason.
    Stays(Event, Why),
    /// These events are offered.
    Offers(&'s [Event]),
    /// These calls are kept from their next questions.
    Keeps(&'s [Blocked]),
    /// Whether a call is not finished.
    Unfinished(bool),
    /// A call has ended so, with so much fuel used.
    Ended(u32, Outcome, u64),
    /// The history of an object, at a host.
    Trail(Channel, u32, &'s [Mark]),
}

/// The same snapshots, lent for as long as their registry is.
pub fn shorter<'s, 'r: 's>(protos: &'s Protos<'r>) -> &'s Protos<'s>
    ensures { result.now ≡ protos.now }
{
    protos
}

/// Whether an event may stand, and comes behind those before.
fn goes(world: &mut World<'_>, event: Event) -> bool
    ensures { world.new.plan ≡ world.old.plan }
{
    let count = world.events().len();
    world.step(event).is_ok()
        && world.events().len() == count + 1
        && world.events().last() == Some(&event)
}

/// Whether an event may not stand for this reason, and leaves the events as they were.
fn stays(world: &mut World<'_>, event: Event, why: Why) -> bool
    ensures { world.new.plan ≡ world.old.plan }
{
    let count = world.events().len();
    match world.step(event) {
        Err(StepFault::NotEnabled(reason)) => reason == why && world.events().len() == count,
        _ => false,
    }
}

/// Whether these events are offered, in this order.
fn offers(world: &World<'_>, events: &[Event]) -> bool {
    let count = world.enabled();
    if count as usize != events.len() {
        return false;
    }
    for i in 0..count {
        if world.enabled_at(i) != events[i as usize] {
            return false;
        }
    }
    true
}

/// Whether a call has ended so.
fn has_ended(world: &World<'_>, call: u32, end: Outcome, fuel: u64) -> bool {
    if world.calls() <= call {
        return false;
    }
    match &world.record_of(call).state {
        CallState::Finished { outcome, used, .. } => *outcome == end && *used == fuel,
        _ => false,
    }
}

/// Whether a channel leads to an object at a host.
fn leads(protos: &Protos<'_>, channel: Channel, host: u32) -> bool
    ensures { IsTrue result → LeadsAt protos.now host channel }
{
    let registry = protos.registry();
    match channel {
        Channel::Local(key) => host < registry.hosts() && key < registry.keys(),
        Channel::Global(key) => key < registry.keys(),
        Channel::Table => false,
    }
}

/// Whether an object has this history.
fn has_trail(
    protos: &Protos<'_>,
    world: &World<'_>,
    channel: Channel,
    host: u32,
    marks: &[Mark],
) -> bool
    requires { world.now.plan ≡ protos.now }
{
    // Those events make a world in which each key has its objects.
    let _events = world.events();
    leads(protos, channel, host) && world.trail(channel, host) == marks
}

/// Whether a line of a script holds.
pub fn holds(
    protos: &Protos<'_>,
    world: &mut World<'_>,
    line: &Line<'_>,
) -> Result<bool, AllocError>
    requires { world.old.plan ≡ protos.now }
    ensures { world.new.plan ≡ protos.now }
{
    Ok(match *line {
        Line::Goes(event) => goes(world, event),
        Line::Stays(event, why) => stays(world, event, why),
        Line::Offers(events) => offers(world, events),
        Line::Keeps(calls) => world.blocked()?.as_slice() == calls,
        Line::Unfinished(some) => world.is_unfinished() == some,
        Line::Ended(call, outcome, used) => has_ended(world, call, outcome, used),
        Line::Trail(channel, host, marks) => has_trail(protos, world, channel, host, marks),
    })
}
