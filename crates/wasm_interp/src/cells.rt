//! A list with a fixed room.

ghost use Rattle.std.specs.Prelude.{◌≡◌, ◌<◌, ◌≤◌, [], length, Some, slice_get, slice_set, IfOk};
ghost use Rattle.wasm_interp.specs.Cells.{Held};

use std::alloc::{AllocError, Global};
use std::marker::Model;

/// Items with room for so many, which take no memory once the room is reserved.
#[derive(Drop)]
pub struct Cells<T> {
    room: u32,
    items: Vec<T>,
}

impl<T> Model for Cells<T> {
    ghost use Rattle.std.specs.Prelude.{◌≤◌, vec_capacity};
    ghost use Rattle.wasm_interp.specs.Cells.{Held};

    ghost Value = { Held T };

    ghost view = { λ s. record { room = s.room; items = s.items.items } };

    ghost invariant = { λ s. s.room ≤ vec_capacity s.items };
}

impl<T: Copy> Cells<T> {
    /// No cells, with room for so many.
    pub fn new(alloc: Global, room: u32) -> Result<Self, AllocError>
        ensures { IfOk result (λ s. s ≡ record { room = room; items = [] }) }
    {
        let items = Vec::with_capacity(alloc, room as usize)?;
        Ok(Cells { room, items })
    }

    /// How many cells there are.
    #[inline(always)]
    pub fn len(&self) -> usize
        ensures { result ≡ length self.now.items }
    {
        self.items.len()
    }

    /// All cells, in order.
    pub fn as_slice(&self) -> &[T]
        ensures { result.now ≡ self.now.items }
    {
        self.items.as_slice()
    }

    /// The cell of this number.
    #[inline(always)]
    pub fn get(&self, k: usize) -> T
        requires { k < length self.now.items }
        ensures { slice_get self.now.items k ≡ Some result }
    {
        self.items[k]
    }

    /// Another item in the cell of this number.
    #[inline(always)]
    pub fn set(&mut self, k: usize, x: T)
        requires { k < length self.old.items }
        ensures { self.new ≡ record self.old { items = slice_set self.old.items k x } }
    {
        self.items[k] = x;
    }

    /// These items in place of all.
    pub fn fill(&mut self, items: &[T])
        requires { length items.now ≤ self.old.room }
        ensures { self.new ≡ record self.old { items = items.now } }
    {
        self.items.clear();
        for x in items {
            match self.items.push(*x) {
                Ok(()) => {}
                Err(_) => unreachable!(),
            }
        }
    }
}
