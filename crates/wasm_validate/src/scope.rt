//! What the instructions of a body may name.

ghost use Rattle.std.specs.Prelude.{◌≡◌, slice_get, option_copied};
ghost use Rattle.faaslet_meaning.specs.Tree.{types_of};

use crate::locals::Locals;
use faaslet_meaning::{FuncType, GlobalType, ValType};
use std::marker::Model;

/// The parts of a module that bodies name, with the locals and the result of one body. Functions are
/// the numbers of their types.
#[derive(Drop)]
pub struct Scope<'m> {
    pub types: &'m [FuncType],
    pub functions: &'m [u32],
    pub globals: &'m [GlobalType],
    pub has_table: bool,
    pub has_memory: bool,
    pub locals: &'m Locals<'m>,
    pub leaves: Option<ValType>,
}

impl<'m> Model for Scope<'m> {
    ghost use Rattle.faaslet_meaning.specs.Typing.{Context};

    ghost Value = { Context };

    ghost use Rattle.wasm_validate.specs.Scopes.{context_at, NamesTypes};

    ghost view = { context_at };

    ghost invariant = { NamesTypes };
}

impl<'m> Scope<'m> {
    pub fn function(&self, f: u32) -> Option<&FuncType>
        ensures { option_copied result ≡ slice_get self.now.functions f }
    {
        match self.functions.get(f as usize) {
            Some(t) => self.types.get(*t as usize),
            None => None,
        }
    }

    pub fn func_type(&self, t: u32) -> Option<&FuncType>
        ensures { option_copied result ≡ slice_get self.now.types t }
    {
        self.types.get(t as usize)
    }

    pub fn global(&self, k: u32) -> Option<GlobalType>
        ensures { result ≡ slice_get self.now.globals k }
    {
        self.globals.get(k as usize).copied()
    }

    pub fn local(&self, k: u32) -> Option<ValType>
        ensures { result ≡ slice_get self.now.locals k }
    {
        self.locals.get(k)
    }

    pub fn has_table(&self) -> bool
        ensures { result ≡ self.now.has_table }
    {
        self.has_table
    }

    pub fn has_memory(&self) -> bool
        ensures { result ≡ self.now.has_memory }
    {
        self.has_memory
    }

    /// The result of the function.
    pub fn leaves(&self) -> Option<ValType>
        ensures { types_of result ≡ self.now.results }
    {
        self.leaves
    }
}
