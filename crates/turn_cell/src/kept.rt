//! What a cell asks of the type of its value, and how an entry is named.
use std::marker::Brand;

/// A value whose changes are entries. An entry is a list of numbers, which contracts alone know: no code makes, keeps
/// or reads one. Each type says what its entries mean.
pub trait Kept {
    ghost use Rattle.std.specs.Prelude.{ℕ, List};

    // This maker's entry makes the second value of the first. It holds only where the entry may stand.
    ghost makes: { ℕ → List ℕ → Self → Self → Type 0 };
}

/// A type that stands for one entry, as the type argument of `give`. Callers pass `Brand`, and name the entry in the
/// proof of the function that calls (`ghosts-..` in its `Invariants.antt`).
pub trait Named {
    ghost use Rattle.std.specs.Prelude.{ℕ, List};

    ghost entry: { List ℕ };
}

impl Named for Brand {
    ghost use Rattle.std.specs.Prelude.{[]};

    ghost entry = { [] };
}
