//! The passes of two makers.
ghost use Rattle.std.specs.Prelude.{◌≡◌, ◌≤◌, [], ◌∷◌, length};
ghost use Rattle.std.specs.Vec.{vec_capacity};

use region_tier::Passes;

/// The passes of two makers, and the emptied list in which they came.
pub fn two_makers(mut rows: Vec<Passes>) -> (Vec<Passes>, Passes, Passes)
    requires { length rows.items ≡ 2 }
    ensures makers { rows.items ≡ result.1 ∷ result.2 ∷ [] }
    ensures emptied { (result.0.items ≡ []) × (2 ≤ vec_capacity result.0) }
{
    let Some(second) = rows.pop() else {
        unreachable!()
    };
    let Some(first) = rows.pop() else {
        unreachable!()
    };
    (rows, first, second)
}
