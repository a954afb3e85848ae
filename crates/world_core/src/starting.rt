//! What is kept before any event.

ghost use Rattle.std.specs.Prelude.{◌≡◌, ◌<◌, ◌+◌, [], IfOk, IfSome, OnOk, length, map, slice_get};
ghost use Rattle.session_meaning.specs.WellFormed.{KeepsLimits};
ghost use Rattle.world_core.specs.Living.{Lives};
ghost use Rattle.world_core.specs.Starting.{Requested, callable_in};
ghost use Rattle.world_objects.specs.Served.{told_of, start_of};

use crate::floor::Floor;
use crate::running::Running;
use call_table::CallTable;
use faaslet_meaning::Callable;
use grant_registry::Registry;
use protos::Protos;
use std::alloc::{AllocError, Global};
use world_objects::{KeyStart, Objects};

/// What the call table knows of a function.
fn callable(registry: &Registry, f: u32) -> Callable
    requires limits { KeepsLimits registry.now }
    requires there { f < length registry.now.functions }
    ensures { IfSome (slice_get registry.now.functions f) (λ g. result ≡ callable_in g) }
{
    let plan = registry.function_plan(f);
    let grants = registry.grants_of(f).as_slice().len() as u32;
    Callable {
        fuel: plan.fuel,
        room: plan.room,
        channels: 2 * grants + 1,
    }
}

/// What the call table knows of each function.
fn callables(alloc: Global, registry: &Registry) -> Result<Vec<Callable>, AllocError>
    requires { KeepsLimits registry.now }
    ensures { IfOk result (λ fs. fs.items ≡ map callable_in registry.now.functions) }
{
    let mut all = Vec::new(alloc);
    for f in 0..registry.functions() {
        all.push(callable(registry, f))?;
    }
    Ok(all)
}

/// The size of a key, and the bytes at the front of its global value.
fn key_start(registry: &Registry, k: u32) -> KeyStart<'_>
    requires { k < length registry.now.keys }
    ensures { IfSome (slice_get registry.now.keys k) (λ y. told_of result ≡ start_of y) }
{
    let plan = registry.key_plan(k);
    KeyStart {
        size: plan.size,
        init: plan.init,
    }
}

/// The size of each key, and the bytes at the front of its global value.
fn key_starts(alloc: Global, registry: &Registry) -> Result<Vec<KeyStart<'_>>, AllocError>
    ensures { IfOk result (λ ks. map told_of ks.items ≡ map start_of registry.now.keys) }
{
    let mut all = Vec::new(alloc);
    for k in 0..registry.keys() {
        all.push(key_start(registry, k))?;
    }
    Ok(all)
}

impl<'s> Running<'s> {
    /// What is kept without a request.
    fn empty(alloc: Global, protos: &'s Protos<'s>) -> Result<Running<'s>, AllocError>
        ensures { IfOk result (λ c. Requested protos.now 0 c) }
    {
        let registry = protos.registry();
        let hosts = registry.hosts();
        let functions = callables(alloc, registry)?;
        let keys = key_starts(alloc, registry)?;
        let table = CallTable::new(
            alloc,
            &functions,
            hosts,
            registry.workers(),
            registry.requests(),
        )?;
        Ok(Running {
            alloc,
            protos,
            table,
            objects: Objects::new(alloc, hosts, &keys)?,
            floor: Floor::new(alloc, hosts, hosts * registry.workers()),
            players: Vec::new(alloc),
            events: Vec::new(alloc),
        })
    }

    /// Submits a request, the next one.
    fn submit_request(&mut self, request: u32) -> Result<(), AllocError>
        requires within { request < length self.old.protos.now.requests }
        requires so_far { Requested self.old.protos.now request self.old }
        ensures one_more { OnOk result (Requested self.old.protos.now (request + 1) self.new) }
        ensures protos { self.new.protos ≡ self.old.protos }
    {
        let plan = self.protos.registry().request_plan(request);
        self.floor.make_place()?;
        let call = self
            .table
            .submit_request(plan.function, plan.host, plan.input)?;
        self.floor.add_waiting(call);
        Ok(())
    }

    /// What is kept of the world before any event.
    pub(crate) fn new(alloc: Global, protos: &'s Protos<'s>) -> Result<Running<'s>, AllocError>
        ensures { IfOk result (λ c. Lives c × (c.protos.now ≡ protos.now) × (c.events.items ≡ [])) }
    {
        let mut running = Running::empty(alloc, protos)?;
        for request in 0..protos.registry().requests() {
            running.submit_request(request)?;
        }
        Ok(running)
    }
}
