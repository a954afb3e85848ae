//! The room that a call's output and counts take when it is finished.

ghost use Rattle.std.specs.Prelude.{◌≡◌, ◌≤◌, [], IfOk, length, vec_capacity};
ghost use Rattle.call_table.specs.Spare.{HasRoom};

use faaslet_meaning::Items;
use std::alloc::{AllocError, Global};

/// Two empty vectors with room.
#[derive(Drop)]
pub(crate) struct Spare {
    pub(crate) output: Vec<u8>,
    pub(crate) counts: Vec<u64>,
}

impl Spare {
    pub(crate) fn new(alloc: Global, room: usize, channels: usize) -> Result<Spare, AllocError>
        ensures { IfOk result (HasRoom room channels) }
    {
        let output = Vec::with_capacity(alloc, room)?;
        let counts = Vec::with_capacity(alloc, channels)?;
        Ok(Spare { output, counts })
    }
}

/// The items in a vector that has room for them.
pub(crate) fn filled<T: Copy>(mut room: Vec<T>, items: &[T]) -> Items<T>
    requires empty { room.items ≡ [] }
    requires enough { length items.now ≤ vec_capacity room }
    ensures { result ≡ items.now }
{
    match room.extend_from_slice(items) {
        Ok(()) => {}
        Err(_) => unreachable!(),
    }
    Items::of(room)
}
