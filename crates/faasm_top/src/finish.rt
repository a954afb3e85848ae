//! A call from its fresh state to its end.

ghost use Rattle.std.specs.Prelude.{◌≡◌, ◌≢◌, ℕ, List, IfOk};
ghost use Rattle.faaslet_meaning.specs.declared.module.Module.{Module};
ghost use Rattle.faaslet_meaning.specs.Channels.{told_nothing};
ghost use Rattle.faaslet_meaning.specs.Runs.{Runs};
ghost use Rattle.faaslet_meaning.specs.Words.{call_function};
ghost use Rattle.faasm_top.specs.FreshCall.{IsFreshCall};

use faaslet_meaning::Outcome;
use faaslet_run::{Faaslet, Turn};
use std::alloc::{AllocError, Global};

/// What a call came to, the fuel that it used, and its output.
#[derive(Debug, Drop)]
pub struct Ran {
    pub outcome: Outcome,
    pub used: u64,
    pub output: Vec<u8>,
}

/// What the call comes to that a Faaslet is about to run.
pub fn finish(alloc: Global, faaslet: &mut Faaslet<'_>) -> Result<Ran, AllocError>
    requires { (code : Module) × (fuel : ℕ) × (input : List ℕ) × IsFreshCall faaslet.old code fuel input }
    ensures runs { IfOk result (λ r. (code : Module) (fuel : ℕ) (input : List ℕ)
        → IsFreshCall faaslet.old code fuel input
        → Runs (call_function code fuel) input told_nothing r.outcome r.output.items r.used) }
    ensures no_want { IfOk result (λ r. r.outcome ≢ Outcome.Want) }
{
    let Turn::Ended(outcome) = faaslet.next() else {
        // Without grants and callable functions no question comes.
        unreachable!()
    };
    Ok(Ran {
        outcome,
        used: faaslet.used(),
        output: Vec::from_slice(alloc, faaslet.output())?,
    })
}
