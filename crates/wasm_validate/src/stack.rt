//! A stack that contracts see as a list, the topmost item first.

ghost use Rattle.std.specs.Prelude.{◌≡◌, ◌-◌, ◌≤◌, ◌<◌, [], ◌∷◌, length, drop, slice_get, is_ok, if◌then◌else◌};
ghost use Rattle.wasm_validate.specs.Stacks.{Pops};

use std::alloc::{AllocFailed, Global};
use std::marker::Model;

#[derive(Debug, Drop)]
pub struct Stack<T> {
    items: Vec<T>,
}

impl<T> Model for Stack<T> {
    ghost use Rattle.std.specs.Prelude.{List, reverse};
    ghost use Rattle.std.specs.Coded.{coded_list};

    ghost Value = { List T };

    ghost coded = { coded_list T.code };

    ghost view = { λ s. reverse s.items.items };
}

impl<T: Copy> Stack<T> {
    pub fn new(alloc: Global) -> Stack<T>
        ensures { result ≡ [] }
    {
        Stack {
            items: Vec::new(alloc),
        }
    }

    pub fn len(&self) -> usize
        ensures { result ≡ length self.now }
    {
        self.items.len()
    }

    #[tactic(auto, using(crate::proofs::Piles::stack_steps))]
    pub fn push(&mut self, x: T) -> Result<(), AllocFailed<T>>
        ensures { self.new ≡ (if is_ok result then x ∷ self.old else self.old) }
    {
        self.items.push(x)
    }

    #[tactic(auto, using(crate::proofs::Piles::stack_steps))]
    pub fn pop(&mut self) -> Option<T>
        ensures { Pops result self.old self.new }
    {
        self.items.pop()
    }

    /// The item with so many above it.
    #[tactic(auto, using(crate::proofs::Piles::stack_steps))]
    pub fn get(&self, below: usize) -> Option<T>
        ensures { result ≡ slice_get self.now below }
    {
        let len = self.items.len();
        if below < len {
            Some(self.items[len - 1 - below])
        } else {
            None
        }
    }

    /// Another item in place of the topmost.
    pub fn replace(&mut self, x: T)
        requires { 0 < length self.old }
        ensures { self.new ≡ x ∷ drop 1 self.old }
    {
        let len = self.items.len();
        self.items[len - 1] = x;
    }

    /// Drops all but so many of the lowest items.
    pub fn cut(&mut self, height: usize)
        requires { height ≤ length self.old }
        ensures { self.new ≡ drop (length self.old - height) self.old }
    {
        self.items.truncate(height);
    }
}
