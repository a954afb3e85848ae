//! The module that the tests run: a memory, a table of two elements, and a function with two locals.

ghost use Rattle.std.specs.Prelude.{◌≡◌, [], ◌∷◌, IfOk};
ghost use Rattle.wasm_interp_tests.specs.Trials.{trial};

use faaslet_meaning::{Body, FuncType, Instr, Items, Limits, LocalGroup, Module, ValType};
use std::alloc::{AllocError, Global};
use std::test::Fail;
use wasm_validate::{ValidModule, validate};

pub fn none<T>(alloc: Global) -> Items<T>
    ensures { result ≡ [] }
{
    Items::of(Vec::new(alloc))
}

pub fn one<T: Drop>(alloc: Global, item: T) -> Result<Items<T>, AllocError>
    ensures { IfOk result (λ items. items ≡ item ∷ []) }
{
    let mut vec = Vec::new(alloc);
    vec.push(item)?;
    Ok(Items::of(vec))
}

/// Function 0 has two locals and an i32 as its result; a type without results, a table of two
/// elements, and a memory.
pub fn module_of(alloc: Global, code: Vec<Instr>) -> Result<Module, AllocError>
    ensures { IfOk result (λ m. m ≡ trial code.items) }
{
    let first = FuncType {
        params: none(alloc),
        results: one(alloc, ValType::I32)?,
    };
    let second = FuncType {
        params: none(alloc),
        results: none(alloc),
    };
    let mut types = Vec::new(alloc);
    types.push(first)?;
    types.push(second)?;
    let locals = one(
        alloc,
        LocalGroup {
            count: 2,
            kind: ValType::I32,
        },
    )?;
    Ok(Module {
        types: Items::of(types),
        imports: none(alloc),
        functions: one(alloc, 0)?,
        tables: one(alloc, Limits { min: 2, max: None })?,
        memories: one(alloc, Limits { min: 0, max: None })?,
        globals: none(alloc),
        exports: none(alloc),
        start: None,
        elements: none(alloc),
        bodies: one(
            alloc,
            Body {
                locals,
                code: Items::of(code),
            },
        )?,
        segments: none(alloc),
    })
}

pub fn valid(alloc: Global, code: Vec<Instr>) -> Result<ValidModule, Fail>
    ensures { IfOk result (λ v. v ≡ trial code.items) }
{
    let module = module_of(alloc, code)?;
    match validate(alloc, module) {
        Ok(valid) => Ok(valid),
        Err(_) => Err(Fail::new("no module or memory")),
    }
}
