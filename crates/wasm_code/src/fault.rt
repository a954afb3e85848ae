//! Why a body could not be read.

ghost use Rattle.std.specs.Prelude.{◌≡◌};
ghost use Rattle.wasm_code.specs.declared.fault.BodyFault.TheVariants as faults;

use crate::number::Malformed;
use std::alloc::{AllocError, AllocFailed};
use thiserror::Error;

#[derive(Clone, Copy, Debug, PartialEq, Eq, Error)]
pub enum BodyFault {
    /// The bytes are not what the format has in this place.
    #[error("malformed")]
    Malformed,
    /// There is not enough memory.
    #[error("out of memory")]
    Want,
}

impl From<Malformed> for BodyFault {
    ghost from_gives = { λ _ e. e ≡ faults.Malformed };

    fn from(_e: Malformed) -> BodyFault {
        BodyFault::Malformed
    }
}

impl From<AllocError> for BodyFault {
    ghost from_gives = { λ _ e. e ≡ faults.Want };

    fn from(_e: AllocError) -> BodyFault {
        BodyFault::Want
    }
}

impl<T: Drop> From<AllocFailed<T>> for BodyFault {
    ghost from_gives = { λ _ e. e ≡ faults.Want };

    fn from(_e: AllocFailed<T>) -> BodyFault {
        BodyFault::Want
    }
}
