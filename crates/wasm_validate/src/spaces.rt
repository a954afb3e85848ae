//! The index spaces of a module. W3C WebAssembly Core Specification 1.0, section 3.4.10.

ghost use Rattle.std.specs.Prelude.{◌≡◌, ◌++◌, IfOk, OnOk, filter_map, map};
ghost use Rattle.faaslet_meaning.specs.IndexSpaces.{imported_function, imported_table, imported_memory, imported_global};
ghost use Rattle.wasm_validate.specs.Spaces.{AreSpaces};

use faaslet_meaning::{GlobalDef, GlobalType, Import, ImportKind, Limits, Module};
use std::alloc::{AllocError, Global};

/// What the indices of a module name; each space begins with the imports. Functions are the numbers
/// of their types.
#[derive(Debug, Drop)]
pub struct Spaces {
    pub functions: Vec<u32>,
    pub tables: Vec<Limits>,
    pub memories: Vec<Limits>,
    pub globals: Vec<GlobalType>,
    pub imported_functions: usize,
    pub imported_globals: Vec<GlobalType>,
}

fn function_of(kind: &ImportKind) -> Option<u32>
    ensures { result ≡ imported_function kind.now }
{
    match kind {
        ImportKind::Function(t) => Some(*t),
        _ => None,
    }
}

fn table_of(kind: &ImportKind) -> Option<Limits>
    ensures { result ≡ imported_table kind.now }
{
    match kind {
        ImportKind::Table(limits) => Some(*limits),
        _ => None,
    }
}

fn memory_of(kind: &ImportKind) -> Option<Limits>
    ensures { result ≡ imported_memory kind.now }
{
    match kind {
        ImportKind::Memory(limits) => Some(*limits),
        _ => None,
    }
}

fn global_of(kind: &ImportKind) -> Option<GlobalType>
    ensures { result ≡ imported_global kind.now }
{
    match kind {
        ImportKind::Global(global) => Some(*global),
        _ => None,
    }
}

fn imported_functions(alloc: Global, imports: &[Import]) -> Result<Vec<u32>, AllocError>
    ensures { IfOk result (λ v. v.items ≡ filter_map (λ i. imported_function i.kind) imports.now) }
{
    imports
        .iter()
        .filter_map(|i| function_of(&i.kind))
        .collect(alloc)
}

fn imported_tables(alloc: Global, imports: &[Import]) -> Result<Vec<Limits>, AllocError>
    ensures { IfOk result (λ v. v.items ≡ filter_map (λ i. imported_table i.kind) imports.now) }
{
    imports
        .iter()
        .filter_map(|i| table_of(&i.kind))
        .collect(alloc)
}

fn imported_memories(alloc: Global, imports: &[Import]) -> Result<Vec<Limits>, AllocError>
    ensures { IfOk result (λ v. v.items ≡ filter_map (λ i. imported_memory i.kind) imports.now) }
{
    imports
        .iter()
        .filter_map(|i| memory_of(&i.kind))
        .collect(alloc)
}

fn imported_globals(alloc: Global, imports: &[Import]) -> Result<Vec<GlobalType>, AllocError>
    ensures { IfOk result (λ v. v.items ≡ filter_map (λ i. imported_global i.kind) imports.now) }
{
    imports
        .iter()
        .filter_map(|i| global_of(&i.kind))
        .collect(alloc)
}

/// Adds the types of these globals.
fn add_globals(globals: &mut Vec<GlobalType>, defined: &[GlobalDef]) -> Result<(), AllocError>
    ensures { OnOk result (globals.new.items ≡ globals.old.items ++ map (λ d. d.kind) defined.now) }
{
    for global in defined {
        globals.push(global.kind)?;
    }
    Ok(())
}

pub fn index_spaces(alloc: Global, module: &Module) -> Result<Spaces, AllocError>
    ensures { IfOk result (AreSpaces module.now) }
{
    let imports = module.imports.as_slice();
    let mut functions = imported_functions(alloc, imports)?;
    let imported_functions = functions.len();
    functions.extend_from_slice(module.functions.as_slice())?;
    let mut tables = imported_tables(alloc, imports)?;
    tables.extend_from_slice(module.tables.as_slice())?;
    let mut memories = imported_memories(alloc, imports)?;
    memories.extend_from_slice(module.memories.as_slice())?;
    let imported_globals = imported_globals(alloc, imports)?;
    let mut globals = Vec::from_slice(alloc, imported_globals.as_slice())?;
    add_globals(&mut globals, module.globals.as_slice())?;
    Ok(Spaces {
        functions,
        tables,
        memories,
        globals,
        imported_functions,
        imported_globals,
    })
}
