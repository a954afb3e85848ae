//! A shelf in memory of which some calls fail.

ghost use Rattle.std.specs.Prelude.{◌≡◌, ◌≢◌, ◌+◌, ◌≤◌, ◌↔◌, ◌++◌, [], Some, Ok, Err, Bool, true, false, min, take, drop, length, is_some, unwrap_or, option_map, IsSome, IfSome, IsOk, IfOk, OnErr};
ghost use Rattle.fa_outside.specs.Failing.{fails_at, next, shelf_fails, opened_or_failed};
ghost use Rattle.fa_outside.specs.Files.{file_named};
ghost use Rattle.fa_outside.specs.MemShelf.{failed};

use crate::fault::Failed;
use crate::mem_shelf::MemShelf;
use crate::shelf::Shelf;
use std::marker::Model;

/// Whether the call of this number is one of those that fail.
pub fn fails_at(fails: &[u32], call: u64) -> bool
    ensures { result ≡ fails_at fails.now call }
{
    fails.iter().any(|n| u64::from(*n) == call)
}

/// A shelf in memory of which the calls with these numbers fail, counted from 0 over `open` and
/// `read`. Any other call does what it does there.
#[derive(Debug, Drop)]
pub struct FailShelf {
    inner: MemShelf,
    fails: Vec<u32>,
    calls: u64,
}

impl Model for FailShelf {
    ghost use Rattle.fa_outside.specs.Failing.{FailingShelf};

    ghost Value = { FailingShelf };

    ghost view = { λ s. record { shelf = s.inner; fails = s.fails.items; calls = s.calls } };
}

impl FailShelf {
    pub fn new(inner: MemShelf, fails: Vec<u32>) -> FailShelf
        ensures { result ≡ record { shelf = inner; fails = fails.items; calls = 0 } }
    {
        FailShelf {
            inner,
            fails,
            calls: 0,
        }
    }

    /// Counts a call, and answers whether it fails.
    fn count(&mut self) -> bool
        ensures fails { result ≡ shelf_fails self.old }
        ensures state { self.new ≡ record self.old { calls = next self.old.calls } }
    {
        let fails = fails_at(&self.fails, self.calls);
        self.calls = self.calls.saturating_add(1);
        fails
    }
}

impl Shelf for FailShelf {
    ghost told = { λ s. Some s.shelf.files };

    ghost is_open = { λ s. is_some s.shelf.unread };

    ghost rest = { λ s. unwrap_or s.shelf.unread [] };

    ghost faults = { λ s. s.shelf.faults };

    fn open(&mut self, name: &str) -> Result<(), Failed>
        ensures found { IsOk result
            ↔ ((shelf_fails self.old ≡ false) × IsSome (file_named self.old.shelf.files name.now)) }
        ensures state { self.new ≡ opened_or_failed self.old name.now }
        ensures counted { self.old.shelf.faults ≤ self.new.shelf.faults }
    {
        if self.count() {
            return Err(self.inner.fail());
        }
        self.inner.open(name)
    }

    fn read(&mut self, buf: &mut [u8]) -> Result<usize, Failed>
        ensures open { IsOk result ↔ ((shelf_fails self.old ≡ false) × IsSome self.old.shelf.unread) }
        ensures count { IfSome self.old.shelf.unread (λ rest. shelf_fails self.old ≡ false
            → result ≡ Ok (min (length rest) (length buf.old))) }
        ensures front { IfSome self.old.shelf.unread (λ rest.
            IfOk result (λ n. take n buf.new ≡ take n rest)) }
        ensures rest { IfOk result (λ n. self.new ≡ record self.old {
          shelf = record self.old.shelf { unread = option_map (drop n) self.old.shelf.unread };
          calls = next self.old.calls;
        }) }
        ensures closed { OnErr result (self.new
            ≡ record self.old { shelf = failed self.old.shelf; calls = next self.old.calls }) }
        ensures kept { OnErr result (buf.new ≡ buf.old) }
        ensures counted { self.old.shelf.faults ≤ self.new.shelf.faults }
    {
        if self.count() {
            return Err(self.inner.fail());
        }
        self.inner.read(buf)
    }
}
