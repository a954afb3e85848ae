//! Why a module is refused.

use faaslet_meaning::Module;
use thiserror::Error;

#[derive(Clone, Copy, Debug, PartialEq, Eq, Error)]
pub enum Invalid {
    /// A rule other than the typing of bodies does not hold.
    #[error("invalid module")]
    Module,
    /// The first function whose body is not typed, the imported ones counted.
    #[error("invalid function {0}")]
    Function(u32),
    /// There is not enough memory.
    #[error("out of memory")]
    Want,
}

/// A module that was not taken, handed back.
#[derive(Debug, Drop)]
pub struct Refused {
    pub fault: Invalid,
    pub module: Module,
}
