//! Texts as contracts see them.

ghost use Rattle.std.specs.Prelude.{◌≡◌, map};
ghost use Rattle.std.specs.String.{string_bytes};

use std::marker::Model;

/// Texts that contracts see as lists of bytes.
#[derive(Debug, Drop)]
pub struct Texts {
    vec: Vec<String>,
}

impl Model for Texts {
    ghost use Rattle.std.specs.Prelude.{ℕ, List, map};
    ghost use Rattle.std.specs.String.{string_bytes};
    ghost use Rattle.std.specs.Coded.{coded_list, coded_ℕ};

    ghost Value = { List (List ℕ) };

    ghost coded = { coded_list (coded_list coded_ℕ) };

    ghost view = { λ it. map (λ s. string_bytes s) it.vec.items };
}

impl Texts {
    /// These texts. Takes no memory.
    pub fn of(vec: Vec<String>) -> Texts
        ensures { result ≡ map (λ s. string_bytes s) vec.items }
    {
        Texts { vec }
    }

    /// The texts, lent.
    pub fn as_slice(&self) -> &[String]
        ensures { map (λ s. string_bytes s) result.now ≡ self.now }
    {
        self.vec.as_slice()
    }

    /// The vector back. Takes no memory.
    pub fn into_vec(self) -> Vec<String>
        ensures { map (λ s. string_bytes s) result.items ≡ self }
    {
        let Texts { vec } = self;
        vec
    }
}
