//! Valid modules.

ghost use Rattle.std.specs.Prelude.{◌≡◌, ◌<◌, ◌^◌, All, Some, length, map, slice_get, IfOk, IfErr};
ghost use Rattle.faaslet_meaning.specs.declared.module.Body.{Body};
ghost use Rattle.faaslet_meaning.specs.IndexSpaces.{local_count};
ghost use Rattle.faaslet_meaning.specs.Valid.{Valid};
ghost use Rattle.wasm_validate.specs.Causes.{IsCause, Checks};
ghost use Rattle.wasm_validate.specs.Jumps.{JumpsFit, TablesFit};

use crate::bodies::check_bodies;
use crate::fault::Fault;
use crate::invalid::{Invalid, Refused};
use crate::jumps::{Jumps, tables_of};
use crate::locals::counts_of;
use crate::module_rules::check_rules;
use crate::spaces::index_spaces;
use faaslet_meaning::{Body, Module};
use std::alloc::{AllocError, Global};
use std::marker::Model;

/// A module that keeps all rules, with what a call needs of each body: its jumps, and how many locals it
/// has beside its parameters.
#[derive(Debug, Drop)]
pub struct ValidModule {
    module: Module,
    tables: Vec<Jumps>,
    counts: Vec<u64>,
}

impl Model for ValidModule {
    ghost use Rattle.faaslet_meaning.specs.declared.module.Module.{Module};
    ghost use Rattle.faaslet_meaning.specs.Valid.{Valid};

    ghost Value = { Module };

    ghost view = { λ v. v.«module» };

    ghost use Rattle.wasm_validate.specs.Jumps.{ValidWith};

    ghost invariant = { λ v. ValidWith v.«module» v.tables.items v.counts.items };
}

impl ValidModule {
    /// The module, lent.
    pub fn module(&self) -> &Module
        ensures same { result.now ≡ self.now }
        ensures valid { Valid result.now }
    {
        &self.module
    }

    /// Where the places of a body lead. Bodies are numbered from 0, imported functions not counted.
    pub fn jumps(&self, body: usize) -> &Jumps
        requires { body < length self.now.bodies }
        ensures { (b : Body) → slice_get self.now.bodies body ≡ Some b → JumpsFit b.code result.now }
    {
        &self.tables[body]
    }

    /// How many locals a body has beside its parameters: the sum of its groups, which was made once.
    pub fn local_count(&self, body: usize) -> u64
        requires { body < length self.now.bodies }
        ensures { (b : Body) → slice_get self.now.bodies body ≡ Some b → result ≡ local_count b }
    {
        self.counts[body]
    }
}

fn check(alloc: Global, module: &Module) -> Result<(), Invalid>
    ensures { Checks result «module».now }
{
    let Ok(spaces) = index_spaces(alloc, module) else {
        return Err(Invalid::Want);
    };
    match check_rules(alloc, module, &spaces) {
        Ok(()) => check_bodies(alloc, module, &spaces),
        Err(Fault::Invalid) => Err(Invalid::Module),
        Err(Fault::Want) => Err(Invalid::Want),
    }
}

/// The jumps of each body, and its locals.
fn needs_of(alloc: Global, bodies: &[Body]) -> Result<(Vec<Jumps>, Vec<u64>), AllocError>
    requires few { All (λ b. local_count b < 2 ^ 32) bodies.now }
    ensures { IfOk result (λ needs. TablesFit bodies.now needs.0.items × (needs.1.items ≡ map local_count bodies.now)) }
{
    let tables = tables_of(alloc, bodies)?;
    let counts = counts_of(alloc, bodies)?;
    Ok((tables, counts))
}

/// The module as a valid one where it keeps all rules, else the cause with the module.
pub fn validate(alloc: Global, module: Module) -> Result<ValidModule, Refused>
    ensures accepts { IfOk result (λ v. (v ≡ «module») × Valid «module») }
    ensures refuses { IfErr result (λ r. (r.«module» ≡ «module») × IsCause r.fault «module») }
{
    if let Err(fault) = check(alloc, &module) {
        return Err(Refused { fault, module });
    }
    match needs_of(alloc, module.bodies.as_slice()) {
        Ok((tables, counts)) => Ok(ValidModule {
            module,
            tables,
            counts,
        }),
        Err(_) => Err(Refused {
            fault: Invalid::Want,
            module,
        }),
    }
}
