//! A session over events, on one thread.

ghost use Rattle.std.specs.Prelude.{◌≡◌, ◌<◌, ◌++◌, ◌∷◌, [], IfErr, IfOk, IfSome, IsSome, None, OnErr, OnOk, Some, length, not, slice_get};
ghost use Rattle.faaslet_meaning.specs.Lists.{is_empty};
ghost use Rattle.session_meaning.specs.Cut.{CutStep};
ghost use Rattle.session_meaning.specs.Events.{Worlds, why};
ghost use Rattle.session_meaning.specs.Plan.{Closed, Names};
ghost use Rattle.session_meaning.specs.Schedule.{offered, unfinished_calls};
ghost use Rattle.session_meaning.specs.Trail as said;
ghost use Rattle.world_core.specs.Whole.{Refuses, world_after};
ghost use Rattle.world_objects.specs.Kept.{objects_of};
ghost use Rattle.world_objects.specs.Served.{object_at};

use crate::running::{Running, StepFault};
use faaslet_meaning::{CallRecord, Channel};
use protos::Protos;
use session_meaning::{Event, Mark};
use std::alloc::{AllocError, Global};
use std::marker::Model;

/// A session over events: a world, which is the fold of its events. Contracts see its plan and its events so far.
#[derive(Drop)]
pub struct World<'s> {
    pub(crate) running: Running<'s>,
}

impl<'s> Model for World<'s> {
    ghost use Rattle.world_core.specs.Living.{Lives};
    ghost use Rattle.world_core.specs.Whole.{Session, session_in};

    ghost Value = { Session };

    ghost view = { λ w. session_in w.running };

    ghost invariant = { λ w. Lives w.running };
}

impl<'s> World<'s> {
    /// The world of a registry before any event.
    pub fn new(alloc: Global, protos: &'s Protos<'s>) -> Result<World<'s>, AllocError>
        ensures { IfOk result (λ w. w ≡ record { plan = protos.now; events = [] }) }
    {
        Ok(World {
            running: Running::new(alloc, protos)?,
        })
    }

    /// An event comes behind those before. It goes at most once over the queued and over the open calls, and over no others.
    pub fn step(&mut self, event: Event) -> Result<(), StepFault>
        ensures enabled { OnOk result (why (world_after self.old) event ≡ None) }
        ensures comes { OnOk result (self.new ≡ record self.old { events = self.old.events ++ event ∷ [] }) }
        ensures refused { IfErr result (Refuses (world_after self.old) event) }
        ensures same { OnErr result (self.new ≡ self.old) }
        ensures two_worlds { (functions keys : Names) → Closed self.old.plan functions keys
            → CutStep self.old.plan functions keys (world_after self.old) event }
    {
        self.running.step(event)?;
        self.running.settle();
        Ok(())
    }

    /// How many events are offered.
    pub fn enabled(&self) -> u32
        ensures { result ≡ length (offered self.now.plan (world_after self.now)) }
    {
        self.running.floor.count()
    }

    /// The event at a place of those that are offered: each Take by call and then host, each Ask by call, each End by call.
    pub fn enabled_at(&self, i: u32) -> Event
        requires { i < length (offered self.now.plan (world_after self.now)) }
        ensures { slice_get (offered self.now.plan (world_after self.now)) i ≡ Some result }
    {
        self.running.floor.at(i)
    }

    /// The events so far, each of which may stand where it comes.
    pub fn events(&self) -> &[Event]
        ensures events { result.now ≡ self.now.events }
        ensures stand { Worlds self.now.plan self.now.events (world_after self.now) }
    {
        &self.running.events
    }

    /// The history of a replica or of a global value without bytes.
    pub fn trail(&self, channel: Channel, host: u32) -> &[Mark]
        requires { IsSome (object_at (objects_of (world_after self.now)) host channel) }
        ensures { result.now ≡ said.trail (world_after self.now) channel host }
    {
        self.running.objects.trail(host, channel)
    }

    /// How many calls there are.
    pub fn calls(&self) -> u32
        ensures { result ≡ length (world_after self.now).table.records }
    {
        self.running.table.calls()
    }

    /// The record of a call.
    pub fn record_of(&self, call: u32) -> &CallRecord
        requires { call < length (world_after self.now).table.records }
        ensures { slice_get (world_after self.now).table.records call ≡ Some result.now }
    {
        self.running.table.record_of(call)
    }

    /// Whether a call is not finished.
    pub fn is_unfinished(&self) -> bool
        ensures { result ≡ not (is_empty (unfinished_calls (world_after self.now))) }
    {
        !self.running.is_idle()
    }
}
