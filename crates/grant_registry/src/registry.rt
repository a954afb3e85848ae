//! The registry of one session, how much it has, and the numbers of its names.

ghost use Rattle.std.specs.Prelude.{◌≡◌, ◌<◌, ◌≤◌, length};
ghost use Rattle.session_meaning.specs.Draft as draft;
ghost use Rattle.session_meaning.specs.Names.{number_of, is_taken};
ghost use Rattle.session_meaning.specs.WellFormed.{KeepsLimits, key_names, function_names, labels};

use crate::entries::{FunctionEntry, KeyEntry, RequestEntry};
use indexmap::IndexMap;
use std::alloc::Global;
use std::marker::Model;

/// Hosts and workers, and the keys, functions and requests by name, numbered from 0 in the order in which they came.
#[derive(Drop)]
pub struct Registry {
    pub(crate) alloc: Global,
    pub(crate) hosts: u32,
    pub(crate) workers: u32,
    pub(crate) keys: IndexMap<String, KeyEntry>,
    pub(crate) functions: IndexMap<String, FunctionEntry>,
    pub(crate) requests: IndexMap<String, RequestEntry>,
}

impl Model for Registry {
    ghost use Rattle.session_meaning.specs.Draft.{Draft};
    ghost use Rattle.grant_registry.specs.Entries.{draft, Kept};

    ghost Value = { Draft };

    ghost view = { λ r. draft r.hosts r.workers r.keys.entries r.functions.entries r.requests.entries };

    ghost invariant = { λ r. Kept r.hosts r.workers r.keys.entries r.functions.entries r.requests.entries };
}

impl Registry {
    /// A registry without keys, functions and requests.
    pub(crate) fn empty(alloc: Global, hosts: u32, workers: u32) -> Registry
        requires { KeepsLimits (draft.empty hosts workers) }
        ensures { result ≡ draft.empty hosts workers }
    {
        Registry {
            alloc,
            hosts,
            workers,
            keys: IndexMap::new(alloc),
            functions: IndexMap::new(alloc),
            requests: IndexMap::new(alloc),
        }
    }

    pub fn hosts(&self) -> u32
        ensures value { result ≡ self.now.hosts }
        ensures limits { KeepsLimits self.now }
    {
        self.hosts
    }

    /// The workers of each host.
    pub fn workers(&self) -> u32
        ensures value { result ≡ self.now.workers }
        ensures few { result ≤ 8 }
    {
        self.workers
    }

    /// How many keys there are.
    pub fn keys(&self) -> u32
        ensures value { result ≡ length self.now.keys }
        ensures few { result ≤ 64 }
    {
        self.keys.len() as u32
    }

    /// How many functions there are.
    pub fn functions(&self) -> u32
        ensures value { result ≡ length self.now.functions }
        ensures few { result ≤ 256 }
    {
        self.functions.len() as u32
    }

    /// How many requests there are.
    pub fn requests(&self) -> u32
        ensures value { result ≡ length self.now.requests }
        ensures few { result ≤ 1024 }
    {
        self.requests.len() as u32
    }

    /// The number of the key of this name.
    pub fn key(&self, name: &str) -> Option<u32>
        ensures { result ≡ number_of name.now (key_names self.now) }
    {
        match self.keys.get_index_of(name) {
            Some(i) => Some(i as u32),
            None => None,
        }
    }

    /// The number of the function of this name.
    pub fn function(&self, name: &str) -> Option<u32>
        ensures { result ≡ number_of name.now (function_names self.now) }
    {
        match self.functions.get_index_of(name) {
            Some(i) => Some(i as u32),
            None => None,
        }
    }

    pub(crate) fn has_request(&self, label: &str) -> bool
        ensures { result ≡ is_taken label.now (labels self.now) }
    {
        self.requests.get_index_of(label).is_some()
    }
}
