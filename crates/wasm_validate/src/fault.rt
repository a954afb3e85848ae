//! Why a body is not taken.

ghost use Rattle.std.specs.Prelude.{◌≡◌};
ghost use Rattle.wasm_validate.specs.declared.fault.Fault.TheVariants as faults;

use std::alloc::{AllocError, AllocFailed};

#[derive(Clone, Copy, Debug, PartialEq, Eq)]
pub enum Fault {
    Invalid,
    Want,
}

impl From<AllocError> for Fault {
    ghost from_gives = { λ _ e. e ≡ faults.Want };

    fn from(_e: AllocError) -> Fault {
        Fault::Want
    }
}

impl<T: Drop> From<AllocFailed<T>> for Fault {
    ghost from_gives = { λ _ e. e ≡ faults.Want };

    fn from(_e: AllocFailed<T>) -> Fault {
        Fault::Want
    }
}
