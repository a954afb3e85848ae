//! A law on host calls at which a machine stands. The body is empty: what counts is what it ensures.

ghost use Rattle.std.specs.Prelude.{◌≡◌};
ghost use Rattle.call_laws.specs.HostAsks.{IsHostAsk};
ghost use Rattle.faaslet_meaning.specs.Configuration.{calls, Configuration, Program};
ghost use Rattle.faaslet_meaning.specs.HostCalls.{HostCall};
ghost use Rattle.faaslet_meaning.specs.Step.{step};

/// Where a machine stands at a host call, the call's numbers are below 2 ^ 32 and its buffer is no longer
/// than a buffer may be.
pub fn host_asks_are_carried()
    ensures { (p : Program) (c d : Configuration) (h : HostCall) → step p c ≡ calls d h → IsHostAsk h }
{}
