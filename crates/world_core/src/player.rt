//! An open call, and where it stands.

ghost use Rattle.std.specs.Prelude.{◌≡◌, ◌<◌, ◌≤◌, ℕ, List, IfOk, IfSome, Some, length, slice_get, take};
ghost use Rattle.proto_faaslet.specs.Entries.{HasRoom};
ghost use Rattle.session_meaning.specs.OpenCall.{opened};
ghost use Rattle.session_meaning.specs.Plan.{NamedFunction};
ghost use Rattle.session_meaning.specs.WellFormed.{WellFormed};
ghost use Rattle.world_core.specs.Played.{FitsFor, IsAt, IsJobOf};

use call_table::Job;
use faaslet_meaning::Broken;
use faaslet_run::{Faaslet, Turn};
use proto_faaslet::room_of;
use protos::Protos;
use std::alloc::{AllocError, Global};

/// Where an open call stands: where its Faaslet told that it is, or its function is broken, so that it never ran.
#[derive(Clone, Copy)]
pub(crate) enum Place {
    Told(Turn),
    Broken(Broken),
}

impl Place {
    ghost use Rattle.world_core.specs.Ending.{is_through};

    /// Whether the call has ended.
    pub(crate) fn is_through(&self) -> bool
        ensures { result ≡ is_through self.now }
    {
        match self {
            Place::Told(Turn::Ended(_)) => true,
            Place::Told(Turn::Asks(_)) => false,
            Place::Broken(_) => true,
        }
    }
}

/// A call that is open, at the host at which it was taken.
#[derive(Drop)]
pub(crate) struct Player<'s> {
    pub(crate) call: u32,
    pub(crate) host: u32,
    pub(crate) faaslet: Faaslet<'s>,
    pub(crate) place: Place,
}

/// A Faaslet with room for a call of a function.
pub(crate) fn faaslet_for<'s>(
    alloc: Global,
    protos: &'s Protos<'s>,
    function: u32,
) -> Result<Faaslet<'s>, AllocError>
    requires { function < length protos.now.functions }
    ensures { IfOk result (λ f. IfSome (slice_get protos.now.functions function) (λ g. FitsFor f g.function)) }
{
    let registry = protos.registry();
    let Some(module) = registry.module(function) else {
        unreachable!()
    };
    Faaslet::open(
        alloc,
        room_of(module),
        registry.function_plan(function).quota,
    )
}

/// Begins a call that was taken, with its input at the front of the Faaslet's, and goes to its first question or to its end.
pub(crate) fn begin<'s>(protos: &'s Protos<'s>, faaslet: &mut Faaslet<'s>, job: Job) -> Place
    requires function { job.function < length protos.now.functions }
    requires rooms { IfSome (slice_get protos.now.functions job.function) (λ g. FitsFor faaslet.old g.function) }
    requires job { IfSome (slice_get protos.now.functions job.function) (λ g. IsJobOf job g.function) }
    ensures { (g : NamedFunction) (host : ℕ) → slice_get protos.now.functions job.function ≡ Some g
        → IsAt (opened g.function (take job.len faaslet.old.input) host) faaslet.new result }
{
    let registry = protos.registry();
    match protos.proto(job.function) {
        Ok(proto) => {
            let grants = registry.grants_of(job.function);
            let callees = registry.callees_of(job.function);
            faaslet.start(proto, grants, callees, job);
            Place::Told(faaslet.next())
        }
        Err(kind) => Place::Broken(kind),
    }
}
