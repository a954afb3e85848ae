//! What is read of the registry's entries.

ghost use Rattle.std.specs.Prelude.{◌≡◌, ◌==◌, ◌<◌, IfSome, length, option_copied, slice_get};
ghost use Rattle.std.specs.List.{list_any};
ghost use Rattle.session_meaning.specs.Registry as registry;
ghost use Rattle.session_meaning.specs.WellFormed.{ModuleFits};

use crate::forms::is_among;
use crate::registry::Registry;
use crate::shown::{FunctionPlan, KeyPlan, RequestPlan};
use faaslet_meaning::Grants;
use wasm_validate::ValidModule;

impl Registry {
    ghost use Rattle.grant_registry.specs.Shows.{ShowsFunction, ShowsKey, ShowsRequest};

    pub(crate) fn size_of(&self, k: u32) -> u32
        requires { k < length self.now.keys }
        ensures { result ≡ registry.size_of self.now k }
    {
        self.keys[k as usize].size
    }

    pub(crate) fn quota_of(&self, f: u32) -> u32
        requires { f < length self.now.functions }
        ensures { result ≡ registry.quota_of self.now f }
    {
        self.functions[f as usize].quota
    }

    /// The grants of a function.
    pub fn grants_of(&self, f: u32) -> &Grants
        requires { f < length self.now.functions }
        ensures { result.now ≡ registry.grants_of self.now f }
    {
        &self.functions[f as usize].grants
    }

    /// The numbers of the functions that a function may call.
    pub fn callees_of(&self, f: u32) -> &[u32]
        requires { f < length self.now.functions }
        ensures { result.now ≡ registry.callees_of self.now f }
    {
        self.functions[f as usize].callees.as_slice()
    }

    /// Whether function `f` may call function `g`.
    pub fn may_call(&self, f: u32, g: u32) -> bool
        requires { f < length self.now.functions }
        ensures { result ≡ list_any (λ c. c == g) (registry.callees_of self.now f) }
    {
        is_among(self.callees_of(f), g)
    }

    /// The number of the function at this place of those that a function may call.
    pub fn callee(&self, f: u32, place: u32) -> Option<u32>
        requires { f < length self.now.functions }
        ensures { result ≡ slice_get (registry.callees_of self.now f) place }
    {
        self.callees_of(f).get(place as usize).copied()
    }

    /// The module of a function, where one was set.
    pub fn module(&self, f: u32) -> Option<&ValidModule>
        requires { f < length self.now.functions }
        ensures value { option_copied result ≡ registry.module_of self.now f }
        ensures fits { IfSome result (λ m. ModuleFits m.now) }
    {
        self.functions[f as usize].module.as_ref()
    }

    pub fn function_plan(&self, f: u32) -> FunctionPlan<'_>
        requires { f < length self.now.functions }
        ensures { IfSome (slice_get self.now.functions f) (λ g. ShowsFunction g result) }
    {
        let (name, entry) = self.functions.get_index(f as usize).unwrap();
        FunctionPlan {
            name: name.as_str(),
            quota: entry.quota,
            fuel: entry.fuel,
            room: entry.room,
        }
    }

    pub fn key_plan(&self, k: u32) -> KeyPlan<'_>
        requires { k < length self.now.keys }
        ensures { IfSome (slice_get self.now.keys k) (λ y. ShowsKey y result) }
    {
        let (name, entry) = self.keys.get_index(k as usize).unwrap();
        KeyPlan {
            name: name.as_str(),
            size: entry.size,
            init: entry.init.as_slice(),
        }
    }

    pub fn request_plan(&self, i: u32) -> RequestPlan<'_>
        requires { i < length self.now.requests }
        ensures { IfSome (slice_get self.now.requests i) (λ r. ShowsRequest r result) }
    {
        let (label, entry) = self.requests.get_index(i as usize).unwrap();
        RequestPlan {
            label: label.as_str(),
            function: entry.function,
            host: entry.host,
            input: entry.input.as_slice(),
        }
    }
}
