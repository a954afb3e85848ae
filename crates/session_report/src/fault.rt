//! Why a report is not written whole.

ghost use Rattle.std.specs.Prelude.{◌≡◌};
ghost use Rattle.session_report.specs.declared.fault.WriteFault.TheVariants as fault;

use fa_outside::Failed;
use std::alloc::AllocError;

/// Why a report is not written whole.
#[derive(Clone, Copy, Debug, PartialEq, Eq)]
pub enum WriteFault {
    /// The sink failed.
    Failed,
    /// There is no memory for the next line.
    Want,
}

impl From<Failed> for WriteFault {
    ghost from_gives = { λ _ e. e ≡ fault.Failed };

    fn from(_: Failed) -> WriteFault {
        WriteFault::Failed
    }
}

impl From<AllocError> for WriteFault {
    ghost from_gives = { λ _ e. e ≡ fault.Want };

    fn from(_: AllocError) -> WriteFault {
        WriteFault::Want
    }
}
