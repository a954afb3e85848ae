//! Lists as contracts see them.

ghost use Rattle.std.specs.Prelude.{◌≡◌};
ghost use Rattle.std.specs.Cmp.{on_per};
ghost use Rattle.std.specs.Cmp.Lexicographic.{pointwise, lists_per};

use std::marker::Model;

/// A `Vec` that contracts see as the list of its items.
#[derive(Debug, Drop)]
pub struct Items<T> {
    vec: Vec<T>,
}

pub type Bytes = Items<u8>;

pub type Labels = Items<u32>;

pub type Counts = Items<u64>;

pub type Pairs = Items<(u32, u32)>;

impl<T> Model for Items<T> {
    ghost use Rattle.std.specs.Prelude.{List};
    ghost use Rattle.std.specs.Coded.{coded_list};

    ghost Value = { List T };

    ghost coded = { coded_list T.code };

    ghost view = { λ it. it.vec.items };
}

impl<T> Items<T> {
    /// The items of the vector. Takes no memory.
    pub fn of(vec: Vec<T>) -> Items<T>
        ensures { result ≡ vec.items }
    {
        Items { vec }
    }

    /// The items, lent.
    pub fn as_slice(&self) -> &[T]
        ensures { result.now ≡ self.now }
    {
        self.vec.as_slice()
    }

    /// The vector back. Takes no memory.
    pub fn into_vec(self) -> Vec<T>
        ensures { result.items ≡ self }
    {
        let Items { vec } = self;
        vec
    }
}

impl<T: PartialEq> PartialEq for Items<T> {
    ghost eq = { λ x y. pointwise T.eq x y };

    ghost laws = { on_per (λ x. x) (lists_per T.laws) };

    fn eq(&self, other: &Items<T>) -> bool {
        self.vec == other.vec
    }
}
