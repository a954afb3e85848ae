//! What is kept of one function.

ghost use Rattle.std.specs.Prelude.{◌<◌, IfOk, length};
ghost use Rattle.session_meaning.specs.WellFormed.{WellFormedDraft};

use faaslet_meaning::Broken;
use grant_registry::Registry;
use proto_faaslet::{BuildFault, Proto};
use std::alloc::{AllocError, Global};

/// A function's snapshot, or how it is broken.
#[derive(Drop)]
pub(crate) enum Kept<'s> {
    Ready(Proto<'s>),
    Broken(Broken),
}

ghost use Rattle.protos.specs.Keeps.{HasModules, KeepsAt};

/// Builds the snapshot of a function.
pub(crate) fn keep<'s>(
    alloc: Global,
    registry: &'s Registry,
    f: u32,
) -> Result<Kept<'s>, AllocError>
    requires there { f < length registry.now.functions }
    requires formed { WellFormedDraft registry.now }
    requires modules { HasModules registry.now }
    ensures { IfOk result (KeepsAt registry.now f) }
{
    let Some(module) = registry.module(f) else {
        unreachable!()
    };
    let plan = registry.function_plan(f);
    match Proto::build(alloc, module, plan.quota, plan.fuel) {
        Ok(proto) => Ok(Kept::Ready(proto)),
        Err(BuildFault::Broken(kind)) => Ok(Kept::Broken(kind)),
        Err(BuildFault::Want) => Err(AllocError),
    }
}
