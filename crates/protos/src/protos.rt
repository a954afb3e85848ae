//! Snapshots of all functions of a registry, by their numbers.

ghost use Rattle.std.specs.Prelude.{◌≡◌, ◌<◌, ◌↔◌, IfErr, IfOk, IfSome, IsTrue, Some, length, slice_get};
ghost use Rattle.faaslet_meaning.specs.Fresh.{breaks, fresh};
ghost use Rattle.proto_faaslet.specs.Snapshots.{IsSnapshotOf};
ghost use Rattle.session_meaning.specs.Draft.{draft_of, plan_of};
ghost use Rattle.session_meaning.specs.WellFormed.{WellFormed, WellFormedDraft};

use crate::kept::{Kept, keep};
use faaslet_meaning::Broken;
use grant_registry::Registry;
use proto_faaslet::Proto;
use std::alloc::{AllocError, Global};
use std::marker::Model;

/// A registry of which each function has its module, and for each function its snapshot, or how it is broken.
/// Contracts see the plan.
#[derive(Drop)]
pub struct Protos<'s> {
    registry: &'s Registry,
    kept: Vec<Kept<'s>>,
}

impl<'s> Model for Protos<'s> {
    ghost use Rattle.session_meaning.specs.Plan.{Plan};
    ghost use Rattle.protos.specs.Keeps.{KeepsAll, plan_in};

    ghost Value = { Plan };

    ghost view = { λ p. plan_in p.registry.now };

    ghost invariant = { λ p. KeepsAll p.registry.now p.kept.items };
}

ghost use Rattle.protos.specs.Keeps.{HasModules};

/// Whether each function has its module.
pub fn has_modules(registry: &Registry) -> bool
    ensures { IsTrue result ↔ HasModules registry.now }
{
    for f in 0..registry.functions() {
        if registry.module(f).is_none() {
            return false;
        }
    }
    true
}

impl<'s> Protos<'s> {
    /// Builds the snapshot of each function, and keeps the registry. `Err` is for want of memory alone.
    pub fn build(alloc: Global, registry: &'s Registry) -> Result<Protos<'s>, AllocError>
        requires formed { WellFormedDraft registry.now }
        requires modules { HasModules registry.now }
        ensures { IfOk result (λ plan. plan_of registry.now ≡ Some plan) }
    {
        let mut kept = Vec::new(alloc);
        for f in 0..registry.functions() {
            kept.push(keep(alloc, registry, f)?)?;
        }
        Ok(Protos { registry, kept })
    }

    /// The registry.
    pub fn registry(&self) -> &'s Registry
        ensures plan { result.now ≡ draft_of self.now }
        ensures formed { WellFormed self.now }
    {
        self.registry
    }

    /// The snapshot of a function, or how it is broken.
    pub fn proto(&self, f: u32) -> Result<&Proto<'s>, Broken>
        requires { f < length self.now.functions }
        ensures ready { IfOk result (λ p. IfSome (slice_get self.now.functions f)
            (λ g. IsSnapshotOf g.function.code g.function.quota g.function.fuel p.now)) }
        ensures broken { IfErr result (λ kind. IfSome (slice_get self.now.functions f)
            (λ g. fresh g.function ≡ breaks kind)) }
    {
        match &self.kept[f as usize] {
            Kept::Ready(proto) => Ok(proto),
            Kept::Broken(kind) => Err(*kind),
        }
    }
}
