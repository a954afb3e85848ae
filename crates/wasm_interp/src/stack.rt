//! A stack that contracts see as a list, the topmost item first.

ghost use Rattle.std.specs.Prelude.{◌≡◌, ◌<◌, ◌≤◌, [], ◌∷◌, length, drop, Some, slice_get, IfOk};

use std::alloc::{AllocError, Global};
use std::marker::Model;

/// A stack with room for so many items, which takes no memory once it is made.
#[derive(Drop)]
pub struct Stack<T, const ROOM: usize> {
    items: Vec<T>,
}

impl<T, const ROOM: usize> Model for Stack<T, ROOM> {
    ghost use Rattle.std.specs.Prelude.{List, reverse, ◌≤◌, vec_capacity};

    ghost Value = { List T };

    ghost view = { λ s. reverse s.items.items };

    ghost invariant = { λ s. ROOM ≤ vec_capacity s.items };
}

impl<T: Copy, const ROOM: usize> Stack<T, ROOM> {
    /// An empty stack, with all the memory that it ever takes.
    pub fn new(alloc: Global) -> Result<Self, AllocError>
        ensures { IfOk result (λ s. s ≡ []) }
    {
        let items = Vec::with_capacity(alloc, ROOM)?;
        Ok(Stack { items })
    }

    /// How many items there are.
    #[inline(always)]
    pub fn len(&self) -> usize
        ensures { result ≡ length self.now }
    {
        self.items.len()
    }

    /// One more item, on top.
    #[inline(always)]
    pub fn push(&mut self, x: T)
        requires { length self.old < ROOM }
        ensures { self.new ≡ x ∷ self.old }
    {
        match self.items.push(x) {
            Ok(()) => {}
            Err(_) => unreachable!(),
        }
    }

    /// Takes the topmost item off.
    #[inline(always)]
    pub fn pop(&mut self) -> T
        requires { 0 < length self.old }
        ensures { self.old ≡ result ∷ self.new }
    {
        match self.items.pop() {
            Some(x) => x,
            None => unreachable!(),
        }
    }

    /// The item with so many above it.
    #[inline(always)]
    pub fn get(&self, below: usize) -> T
        requires { below < length self.now }
        ensures { slice_get self.now below ≡ Some result }
    {
        self.items[self.items.len() - 1 - below]
    }

    /// Drops so many of the topmost items.
    #[inline(always)]
    pub fn cut(&mut self, count: usize)
        requires { count ≤ length self.old }
        ensures { self.new ≡ drop count self.old }
    {
        self.items.truncate(self.items.len() - count);
    }
}
