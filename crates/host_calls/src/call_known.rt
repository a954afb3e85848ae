//! What a call keeps of its children.

ghost use Rattle.std.specs.Prelude.{◌≡◌, ◌<◌, [], ◌∷◌, ◌++◌, None, Some, IfOk, length, slice_set};
ghost use Rattle.host_calls.specs.Children.{noted_at};

use std::alloc::{AllocError, Global};
use std::marker::Model;

/// How many calls a request has at most, less the first.
const CHILD_LIMIT: usize = 1023;

/// The children of a call in their order, with the output length of each that was awaited. Contracts see this list.
#[derive(Drop)]
pub struct CallKnown {
    lengths: Vec<Option<u32>>,
}

impl Model for CallKnown {
    ghost use Rattle.std.specs.Prelude.{ℕ, List, Option, ◌≤◌, vec_capacity};

    ghost Value = { List (Option ℕ) };

    ghost view = { λ k. k.lengths.items };

    ghost invariant = { λ k. 1023 ≤ vec_capacity k.lengths };
}

impl CallKnown {
    /// No children, and room for as many as a call may have.
    pub fn new(alloc: Global) -> Result<CallKnown, AllocError>
        ensures { IfOk result (λ k. k ≡ []) }
    {
        let lengths = Vec::with_capacity(alloc, CHILD_LIMIT)?;
        Ok(CallKnown { lengths })
    }

    /// No children any more.
    pub fn clear(&mut self)
        ensures { self.new ≡ [] }
    {
        self.lengths.clear();
    }

    pub fn count(&self) -> usize
        ensures { result ≡ length self.now }
    {
        self.lengths.len()
    }

    /// How long the output of a child is, where there is such a child and it was awaited.
    pub fn noted(&self, child: u32) -> Option<u32>
        ensures { result ≡ noted_at self.now child }
    {
        match self.lengths.get(child as usize) {
            Some(length) => *length,
            None => None,
        }
    }

    /// One child more.
    pub(crate) fn add(&mut self)
        requires { length self.old < 1023 }
        ensures { self.new ≡ self.old ++ None ∷ [] }
    {
        match self.lengths.push(None) {
            Ok(()) => {}
            Err(_) => unreachable!(),
        }
    }

    /// A child was awaited, and its output is so long.
    pub(crate) fn note(&mut self, child: u32, length: u32)
        ensures { self.new ≡ slice_set self.old child (Some length) }
    {
        if (child as usize) < self.lengths.len() {
            self.lengths[child as usize] = Some(length);
        }
    }
}
