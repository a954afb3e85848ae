//! What a session file gives.

ghost use Rattle.std.specs.Prelude.{◌≡◌, Ok, length, map, IfOk, IfErr, OnOk};
ghost use Rattle.std.specs.String.{string_bytes};
ghost use Rattle.session_meaning.specs.declared.fault.SessionList.TheVariants.{Session};
ghost use Rattle.session_meaning.specs.Draft.{empty};
ghost use Rattle.session_meaning.specs.Registry as calls;
ghost use Rattle.session_meaning.specs.SessionFile as file;
ghost use Rattle.session_file.specs.Filled.{filled};
ghost use Rattle.session_file.specs.Texts.{function_text_of, session_text_of};
ghost use Rattle.session_file.specs.Told.{Tells, planned_of};

use crate::entries::{FunctionText, SessionText};
use crate::faults::at_entry;
use crate::fill::{add_functions, add_keys, add_requests, capped, entitle_all};
use faaslet_meaning::Texts;
use grant_registry::Registry;
use session_meaning::{SessionFault, SessionList};
use std::alloc::{AllocError, Global};

/// A registry without modules, and for each function, in its order, where its module stands.
#[derive(Drop)]
pub struct SessionPlan {
    pub registry: Registry,
    pub paths: Texts,
}

fn open(alloc: Global, hosts: u32, workers: u32) -> Result<Registry, SessionFault>
    ensures ok { IfOk result (λ r. file.on Session 0 (calls.new hosts workers) ≡ Ok r) }
    ensures empty { IfOk result (λ r. r ≡ empty hosts workers) }
    ensures refused { IfErr result (λ e. Tells e (file.on Session 0 (calls.new hosts workers))) }
{
    match Registry::new(alloc, hosts, workers) {
        Ok(registry) => Ok(registry),
        Err(fault) => Err(at_entry(SessionList::Session, 0, fault)),
    }
}

fn check(registry: &Registry) -> Result<(), SessionFault>
    ensures ok { OnOk result (file.on Session 0 (calls.check_budget registry.now) ≡ Ok registry.now) }
    ensures refused { IfErr result (λ e. Tells e (file.on Session 0 (calls.check_budget registry.now))) }
{
    match registry.check_budget() {
        Ok(()) => Ok(()),
        Err(fault) => Err(at_entry(SessionList::Session, 0, fault)),
    }
}

fn fill(alloc: Global, registry: &mut Registry, text: &SessionText<'_>) -> Result<(), SessionFault>
    requires no_keys { length registry.old.keys ≡ 0 }
    requires no_functions { length registry.old.functions ≡ 0 }
    requires no_requests { length registry.old.requests ≡ 0 }
    ensures ok { OnOk result (filled (session_text_of text.now) registry.old ≡ Ok registry.new) }
    ensures refused { IfErr result (λ e. Tells e (filled (session_text_of text.now) registry.old)) }
{
    add_keys(alloc, registry, &text.keys)?;
    add_functions(registry, &text.functions)?;
    entitle_all(registry, &text.functions)?;
    add_requests(alloc, registry, &text.requests)?;
    check(registry)
}

fn registry_of(alloc: Global, text: &SessionText<'_>) -> Result<Registry, SessionFault>
    ensures ok { IfOk result (λ r. file.planned (session_text_of text.now) ≡ Ok r) }
    ensures refused { IfErr result (λ e. Tells e (file.planned (session_text_of text.now))) }
{
    let mut registry = open(alloc, capped(text.hosts), capped(text.workers))?;
    fill(alloc, &mut registry, text)?;
    Ok(registry)
}

fn paths_of(alloc: Global, functions: &[FunctionText<'_>]) -> Result<Texts, AllocError>
    ensures { IfOk result (λ paths. paths ≡ map (λ f. f.path) (map function_text_of functions.now)) }
{
    let mut paths = Vec::new(alloc);
    for function in functions {
        paths.push(String::from_str(alloc, function.head.path)?)?;
    }
    Ok(Texts::of(paths))
}

pub(crate) fn plan_of(alloc: Global, text: &SessionText<'_>) -> Result<SessionPlan, SessionFault>
    ensures ok { IfOk result (λ p. file.plan_of_text (Some (session_text_of text.now)) ≡ Ok (planned_of p)) }
    ensures refused { IfErr result (λ e. Tells e (file.plan_of_text (Some (session_text_of text.now)))) }
{
    let registry = registry_of(alloc, text)?;
    match paths_of(alloc, &text.functions) {
        Ok(paths) => Ok(SessionPlan { registry, paths }),
        Err(_) => Err(SessionFault::Want),
    }
}
