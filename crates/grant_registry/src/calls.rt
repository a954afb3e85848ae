//! The calls that make and change the registry. Each tests its rules in the order of its definition.

ghost use Rattle.std.specs.Prelude.{◌≡◌, ◌<◌, length, Ok, IfOk, IfErr, OnOk, OnErr};
ghost use Rattle.session_meaning.specs.Registry as registry;
ghost use Rattle.session_meaning.specs.WellFormed.{WellFormedDraft};

use crate::entries::RequestEntry;
use crate::forms::{is_among, is_granted, is_name, is_within};
use crate::registry::Registry;
use faaslet_meaning::{Grant, Items, Mode};
use session_meaning::RegFault;
use std::alloc::Global;

impl Registry {
    ghost use Rattle.grant_registry.specs.Refuses.{Refuses, RefusesSo};

    /// A registry without keys, functions and requests.
    pub fn new(alloc: Global, hosts: u32, workers: u32) -> Result<Registry, RegFault>
        ensures ok { IfOk result (λ r. registry.new hosts workers ≡ Ok r) }
        ensures refused { IfErr result (λ e. RefusesSo e (registry.new hosts workers)) }
    {
        if !is_within(1, 16, hosts as u64) {
            return Err(RegFault::Range);
        }
        if !is_within(1, 8, workers as u64) {
            return Err(RegFault::Range);
        }
        Ok(Registry::empty(alloc, hosts, workers))
    }

    /// Adds a key, and answers its number.
    pub fn add_key(&mut self, name: &str, size: u32, init: &[u8]) -> Result<u32, RegFault>
        ensures ok { OnOk result (registry.add_key self.old name.now size init.now ≡ Ok self.new) }
        ensures number { IfOk result (λ k. k ≡ length self.old.keys) }
        ensures refused { IfErr result (λ e. Refuses e (registry.add_key self.old name.now size init.now)) }
        ensures unchanged { OnErr result (self.new ≡ self.old) }
    {
        let number = self.keys();
        if number >= 64 {
            return Err(RegFault::Limit);
        }
        if !is_name(name) {
            return Err(RegFault::Name);
        }
        if self.key(name).is_some() {
            return Err(RegFault::Duplicate);
        }
        if !is_within(1, 16_777_216, size as u64) {
            return Err(RegFault::Range);
        }
        if (size as usize) < init.len() {
            return Err(RegFault::TooLong);
        }
        match self.push_key(name, size, init) {
            Ok(()) => Ok(number),
            Err(_) => Err(RegFault::Want),
        }
    }

    /// Adds a function without grants and callable functions, and answers its number.
    pub fn add_function(
        &mut self,
        name: &str,
        quota: u32,
        fuel: u64,
        room: u32,
    ) -> Result<u32, RegFault>
        ensures ok { OnOk result (registry.add_function self.old name.now quota fuel room ≡ Ok self.new) }
        ensures number { IfOk result (λ f. f ≡ length self.old.functions) }
        ensures refused { IfErr result (λ e. Refuses e (registry.add_function self.old name.now quota fuel room)) }
        ensures unchanged { OnErr result (self.new ≡ self.old) }
    {
        let number = self.functions();
        if number >= 256 {
            return Err(RegFault::Limit);
        }
        if !is_name(name) {
            return Err(RegFault::Name);
        }
        if self.function(name).is_some() {
            return Err(RegFault::Duplicate);
        }
        if !is_within(1, 1_024, quota as u64) {
            return Err(RegFault::Range);
        }
        if !is_within(1, 1_099_511_627_776, fuel) {
            return Err(RegFault::Range);
        }
        if !is_within(0, 65_536, room as u64) {
            return Err(RegFault::Range);
        }
        match self.push_function(name, quota, fuel, room) {
            Ok(()) => Ok(number),
            Err(_) => Err(RegFault::Want),
        }
    }

    /// Grants a key to a function.
    pub fn grant(&mut self, f: u32, key: &str, mode: Mode) -> Result<(), RegFault>
        requires { f < length self.old.functions }
        ensures ok { OnOk result (registry.grant self.old f key.now mode ≡ Ok self.new) }
        ensures refused { IfErr result (λ e. Refuses e (registry.grant self.old f key.now mode)) }
        ensures unchanged { OnErr result (self.new ≡ self.old) }
        ensures functions { length self.new.functions ≡ length self.old.functions }
    {
        if self.grants_of(f).as_slice().len() >= 32 {
            return Err(RegFault::Limit);
        }
        let Some(key) = self.key(key) else {
            return Err(RegFault::UnknownName);
        };
        if is_granted(self.grants_of(f).as_slice(), key) {
            return Err(RegFault::Duplicate);
        }
        let size = self.size_of(key);
        match self.push_grant(f, Grant { key, size, mode }) {
            Ok(()) => Ok(()),
            Err(_) => Err(RegFault::Want),
        }
    }

    /// Lets a function call another.
    pub fn allow(&mut self, f: u32, callee: &str) -> Result<(), RegFault>
        requires { f < length self.old.functions }
        ensures ok { OnOk result (registry.allow self.old f callee.now ≡ Ok self.new) }
        ensures refused { IfErr result (λ e. Refuses e (registry.allow self.old f callee.now)) }
        ensures unchanged { OnErr result (self.new ≡ self.old) }
        ensures functions { length self.new.functions ≡ length self.old.functions }
    {
        if self.callees_of(f).len() >= 256 {
            return Err(RegFault::Limit);
        }
        let Some(callee) = self.function(callee) else {
            return Err(RegFault::UnknownName);
        };
        if is_among(self.callees_of(f), callee) {
            return Err(RegFault::Duplicate);
        }
        match self.push_callee(f, callee) {
            Ok(()) => Ok(()),
            Err(_) => Err(RegFault::Want),
        }
    }

    /// Adds a request of the named function at a host, and answers its number.
    pub fn add_request(
        &mut self,
        label: &str,
        function: &str,
        host: u32,
        input: &[u8],
    ) -> Result<u32, RegFault>
        ensures ok { OnOk result (registry.add_request self.old label.now function.now host input.now ≡ Ok self.new) }
        ensures number { IfOk result (λ r. r ≡ length self.old.requests) }
        ensures refused { IfErr result
            (λ e. Refuses e (registry.add_request self.old label.now function.now host input.now)) }
        ensures unchanged { OnErr result (self.new ≡ self.old) }
    {
        let number = self.requests();
        if number >= 1_024 {
            return Err(RegFault::Limit);
        }
        if !is_name(label) {
            return Err(RegFault::Name);
        }
        if self.has_request(label) {
            return Err(RegFault::Duplicate);
        }
        let Some(function) = self.function(function) else {
            return Err(RegFault::UnknownName);
        };
        if host >= self.hosts() {
            return Err(RegFault::Range);
        }
        if 65_536 < input.len() {
            return Err(RegFault::TooLong);
        }
        let Ok(input) = Vec::from_slice(self.alloc, input) else {
            return Err(RegFault::Want);
        };
        let input = Items::of(input);
        let entry = RequestEntry {
            function,
            host,
            input,
        };
        match self.push_request(label, entry) {
            Ok(()) => Ok(number),
            Err(_) => Err(RegFault::Want),
        }
    }

    /// Whether the state and the pages of the session are within their budgets.
    pub fn check_budget(&self) -> Result<(), RegFault>
        ensures ok { OnOk result (registry.check_budget self.now ≡ Ok self.now) }
        ensures well_formed { OnOk result (WellFormedDraft self.now) }
        ensures refused { IfErr result (λ e. RefusesSo e (registry.check_budget self.now)) }
    {
        // What it has keeps the limits.
        let _ = &self.hosts;
        if 8_192 < self.state_pages() {
            return Err(RegFault::StateBudget);
        }
        if 16_384 < self.own_pages() {
            return Err(RegFault::PageBudget);
        }
        Ok(())
    }
}
