//! How an entry is put in. The rules were tested before.

ghost use Rattle.std.specs.Prelude.{◌≡◌, ◌<◌, ◌∷◌, ◌++◌, [], false, Ok, is_ok, if◌then◌else◌, length, OnOk, OnErr};
ghost use Rattle.session_meaning.specs.Draft as draft;
ghost use Rattle.session_meaning.specs.Registry as registry;
ghost use Rattle.session_meaning.specs.Names.{is_taken};
ghost use Rattle.session_meaning.specs.WellFormed.{KeepsLimits, ModuleFits, labels};

use crate::entries::{FunctionEntry, KeyEntry, RequestEntry};
use crate::registry::Registry;
use faaslet_meaning::{Grant, Grants, Items};
use std::alloc::{AllocError, Global};
use std::mem;
use wasm_validate::ValidModule;

/// Puts a grant at the end.
fn push_onto(alloc: Global, grants: &mut Grants, grant: Grant) -> Result<(), AllocError>
    ensures { grants.new ≡ (if is_ok result then grants.old ++ grant ∷ [] else grants.old) }
{
    let mut items = mem::replace(grants, Items::of(Vec::new(alloc))).into_vec();
    let pushed = items.push(grant);
    *grants = Items::of(items);
    pushed?;
    Ok(())
}

impl Registry {
    pub(crate) fn push_key(&mut self, name: &str, size: u32, init: &[u8]) -> Result<(), AllocError>
        requires { registry.add_key self.old name.now size init.now
            ≡ Ok (draft.with_key self.old (record { name = name.now; size = size; init = init.now })) }
        ensures ok { OnOk result
            (self.new ≡ draft.with_key self.old (record { name = name.now; size = size; init = init.now })) }
        ensures err { OnErr result (self.new ≡ self.old) }
    {
        let name = String::from_str(self.alloc, name)?;
        let init = Items::of(Vec::from_slice(self.alloc, init)?);
        self.keys.insert(name, KeyEntry { size, init })?;
        Ok(())
    }

    pub(crate) fn push_function(
        &mut self,
        name: &str,
        quota: u32,
        fuel: u64,
        room: u32,
    ) -> Result<(), AllocError>
        requires { registry.add_function self.old name.now quota fuel room
            ≡ Ok (draft.with_function self.old (draft.new_function name.now quota fuel room)) }
        ensures ok { OnOk result
            (self.new ≡ draft.with_function self.old (draft.new_function name.now quota fuel room)) }
        ensures err { OnErr result (self.new ≡ self.old) }
    {
        let name = String::from_str(self.alloc, name)?;
        let entry = FunctionEntry {
            module: None,
            quota,
            fuel,
            room,
            grants: Items::of(Vec::new(self.alloc)),
            callees: Vec::new(self.alloc),
        };
        self.functions.insert(name, entry)?;
        Ok(())
    }

    pub(crate) fn push_request(
        &mut self,
        label: &str,
        entry: RequestEntry,
    ) -> Result<(), AllocError>
        requires fresh { is_taken label.now (labels self.old) ≡ false }
        requires keeps { KeepsLimits self.old → KeepsLimits (draft.with_request self.old
            (record { label = label.now; function = entry.function; host = entry.host; input = entry.input })) }
        ensures ok { OnOk result (self.new ≡ draft.with_request self.old
            (record { label = label.now; function = entry.function; host = entry.host; input = entry.input })) }
        ensures err { OnErr result (self.new ≡ self.old) }
    {
        let label = String::from_str(self.alloc, label)?;
        self.requests.insert(label, entry)?;
        Ok(())
    }

    pub(crate) fn push_grant(&mut self, f: u32, grant: Grant) -> Result<(), AllocError>
        requires exists { f < length self.old.functions }
        requires keeps { KeepsLimits self.old → KeepsLimits (draft.with_grant self.old f grant) }
        ensures ok { OnOk result (self.new ≡ draft.with_grant self.old f grant) }
        ensures err { OnErr result (self.new ≡ self.old) }
        ensures functions { length self.new.functions ≡ length self.old.functions }
    {
        push_onto(self.alloc, &mut self.functions[f as usize].grants, grant)?;
        Ok(())
    }

    pub(crate) fn push_callee(&mut self, f: u32, callee: u32) -> Result<(), AllocError>
        requires exists { f < length self.old.functions }
        requires keeps { KeepsLimits self.old → KeepsLimits (draft.with_callee self.old f callee) }
        ensures ok { OnOk result (self.new ≡ draft.with_callee self.old f callee) }
        ensures err { OnErr result (self.new ≡ self.old) }
        ensures functions { length self.new.functions ≡ length self.old.functions }
    {
        self.functions[f as usize].callees.push(callee)?;
        Ok(())
    }

    pub(crate) fn put_module(&mut self, f: u32, module: ValidModule)
        requires exists { f < length self.old.functions }
        requires fits { ModuleFits «module» }
        ensures ok { self.new ≡ draft.with_module self.old f «module» }
        ensures functions { length self.new.functions ≡ length self.old.functions }
    {
        self.functions[f as usize].module = Some(module);
    }
}
