//! How a shelf, a sink or the reading of a file fails.

ghost use Rattle.std.specs.Prelude.{◌≡◌};
ghost use Rattle.fa_outside.specs.declared.fault.ReadFault.TheVariants as fault;

use std::alloc::AllocError;
use thiserror::Error;

/// A call of a shelf or of a sink failed.
#[derive(Clone, Copy, Debug, PartialEq, Eq, Error)]
#[error("the outside failed")]
pub struct Failed;

/// Why a file was not read whole.
#[derive(Clone, Copy, Debug, PartialEq, Eq, Error)]
pub enum ReadFault {
    #[error("the file can't be read")]
    Failed,
    #[error("the file is too long")]
    TooLong,
    #[error("out of memory")]
    Want,
}

impl From<Failed> for ReadFault {
    ghost from_gives = { λ _ e. e ≡ fault.Failed };

    fn from(_: Failed) -> ReadFault {
        ReadFault::Failed
    }
}

impl From<AllocError> for ReadFault {
    ghost from_gives = { λ _ e. e ≡ fault.Want };

    fn from(_: AllocError) -> ReadFault {
        ReadFault::Want
    }
}
