//! Why no snapshot is built.

ghost use Rattle.std.specs.Prelude.{◌≡◌};
ghost use Rattle.proto_faaslet.specs.declared.fault.BuildFault.TheVariants.{Want};

use faaslet_meaning::Broken;
use std::alloc::AllocError;

/// Why no snapshot of a function is built.
#[derive(Clone, Copy, Debug, PartialEq, Eq)]
pub enum BuildFault {
    /// No call of the function can begin.
    Broken(Broken),
    /// There is no memory for it.
    Want,
}

impl From<AllocError> for BuildFault {
    ghost from_gives = { λ _ r. r ≡ Want };

    fn from(_error: AllocError) -> BuildFault {
        BuildFault::Want
    }
}
