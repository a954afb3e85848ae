//! Why a module is refused.

ghost use Rattle.std.specs.Prelude.{◌≡◌};
ghost use Rattle.wasm_decode.specs.Decoded.{fault_of};

use thiserror::Error;
use wasm_code::BodyFault;

/// The limits of a module, in the order in which they are looked at.
#[derive(Clone, Copy, Debug, PartialEq, Eq)]
pub enum Which {
    /// The parameters of a function type.
    Params,
    /// The locals of a function, its parameters included.
    Locals,
    /// The elements that a table has at first.
    Table,
    /// The globals that the module defines.
    Globals,
}

#[derive(Clone, Copy, Debug, PartialEq, Eq, Error)]
pub enum DecodeFault {
    /// There are more bytes than a module may have.
    #[error("too long")]
    TooLong,
    /// The bytes spell no module.
    #[error("malformed")]
    Malformed,
    /// The module has a float type or a float instruction.
    #[error("float")]
    Float,
    /// The module passes this limit, and none before it.
    #[error("limit")]
    Limit(Which),
    /// There is not enough memory.
    #[error("out of memory")]
    Want,
}

impl From<BodyFault> for DecodeFault {
    ghost from_gives = { λ f e. e ≡ fault_of f };

    fn from(fault: BodyFault) -> DecodeFault {
        match fault {
            BodyFault::Malformed => DecodeFault::Malformed,
            BodyFault::Want => DecodeFault::Want,
        }
    }
}
