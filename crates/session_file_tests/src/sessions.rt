//! Session texts, and what they are answered.

use session_file::read_session;
use session_meaning::{Kind, SessionFault, SessionList};
use std::alloc::{AllocError, Global};

/// Why the text gives no plan, if it gives none.
pub(crate) fn answer(alloc: Global, text: &[u8]) -> Option<SessionFault> {
    match read_session(alloc, text) {
        Ok(plan) => {
            drop(plan);
            None
        }
        Err(fault) => Some(fault),
    }
}

pub(crate) fn at(kind: Kind, list: SessionList, place: u32) -> Option<SessionFault> {
    Some(SessionFault::Refused { kind, list, place })
}

pub(crate) fn of_file(kind: Kind) -> Option<SessionFault> {
    at(kind, SessionList::Session, 0)
}

/// One host with one worker, and these lists.
pub(crate) fn session(
    alloc: Global,
    keys: &str,
    functions: &str,
    requests: &str,
) -> Result<String, AllocError> {
    format!(in alloc;
        "{{\"hosts\":1,\"workers\":1,\"keys\":[{keys}],\"functions\":[{functions}],\"requests\":[{requests}]}}"
    )
}
