//! Refusals of the registry and of a session file.

/// Why a call of the registry changed nothing. The first eight are rules of its calls, the next three those of a
/// function's module: the first import that is no host call, no `main`, an `init` that does not fit. `Want` is
/// want of memory.
#[derive(Clone, Copy, PartialEq, Eq)]
pub enum RegFault {
    Limit,
    Name,
    Duplicate,
    Range,
    TooLong,
    UnknownName,
    StateBudget,
    PageBudget,
    BadImport(u32),
    NoMain,
    BadInit,
    Want,
}

/// What is wrong with a session file.
#[derive(Clone, Copy, PartialEq, Eq)]
pub enum Kind {
    Long,
    Json,
    Shape,
    Many,
    Name,
    Duplicate,
    Range,
    Unknown,
    StateBudget,
    PageBudget,
    Hex,
}

/// A list of a session file, or the session as a whole.
#[derive(Clone, Copy, PartialEq, Eq)]
pub enum SessionList {
    Keys,
    Functions,
    Requests,
    Session,
}

/// Why a session file gives no plan. The entry has its place in the list from 0.
#[derive(Clone, Copy, PartialEq, Eq)]
pub enum SessionFault {
    Refused {
        kind: Kind,
        list: SessionList,
        place: u32,
    },
    Want,
}
