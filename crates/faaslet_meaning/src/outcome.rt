//! How a call ends.

/// Why a call was ended by the machine or by a host call.
#[derive(Clone, Copy, Debug, PartialEq, Eq)]
pub enum Trap {
    Unreachable,
    OutOfBounds,
    DivideByZero,
    IntegerOverflow,
    UndefinedElement,
    UninitializedElement,
    TypeMismatch,
    StackExhausted,
    Denied,
    BadKey,
    BadFunction,
    BadChild,
    BufferTooLong,
    StateRange,
    AppendFull,
    LockMisuse,
    TooManyLocks,
    TooManyMappings,
    MapFull,
    CallRange,
    OutputFull,
    ChainFull,
}

/// Why no call of a function can begin.
#[derive(Clone, Copy, Debug, PartialEq, Eq)]
pub enum Broken {
    Segment,
    Quota,
    Trap(Trap),
    Fuel,
    HostCall,
}

#[derive(Clone, Copy, Debug, PartialEq, Eq)]
pub enum Outcome {
    /// The result of `main`.
    Done(i32),
    Trap(Trap),
    FuelOut,
    Broken(Broken),
    /// There was no memory for a call that this one chained.
    Want,
}
