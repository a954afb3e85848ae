//! Why the reading of a session stops.

ghost use Rattle.std.specs.Prelude.{◌≡◌};
ghost use Rattle.faasm_top.specs.declared.stop.Stop.TheVariants as stop;

use std::alloc::AllocError;

/// Why a session is not run.
#[derive(Debug, Drop)]
pub enum Stop {
    /// This line refuses it.
    Refused(String),
    /// A file can't be read.
    Unreadable,
    /// There is no memory.
    Want,
}

impl From<AllocError> for Stop {
    ghost from_gives = { λ _ e. e ≡ stop.Want };

    fn from(_: AllocError) -> Stop {
        Stop::Want
    }
}
