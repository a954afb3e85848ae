//! A list of lines, each an entry.
ghost use Rattle.std.specs.Prelude.{◌≡◌, ◌++◌, ◌∷◌, [], MatchBool};

use std::alloc::Global;
use std::marker::Model;
use turn_cell::Kept;

/// Lines, which contracts see as a list.
#[derive(Drop)]
pub struct Journal {
    lines: Vec<u64>,
}

impl Model for Journal {
    ghost use Rattle.std.specs.Prelude.{List, ℕ};

    ghost Value = { List ℕ };

    ghost view = { λ j. j.lines.items };
}

impl Kept for Journal {
    ghost use Rattle.std.specs.Prelude.{◌≡◌, ◌++◌};

    ghost makes = { λ maker numbers a b. b ≡ a ++ numbers };
}

impl Journal {
    /// A journal with no line.
    pub fn new(alloc: Global) -> Journal
        ensures { result ≡ [] }
    {
        Journal {
            lines: Vec::new(alloc),
        }
    }

    /// Says whether there was memory for the line.
    pub fn add(&mut self, line: u64) -> bool
        ensures { MatchBool result (self.new ≡ self.old ++ line ∷ []) (self.new ≡ self.old) }
    {
        self.lines.push(line).is_ok()
    }

    /// The lines, oldest first.
    pub fn lines(&self) -> &[u64]
        ensures { result.now ≡ self.now }
    {
        self.lines.as_slice()
    }
}
