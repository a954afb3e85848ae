//! Exports: each names something, and no two have one name. W3C WebAssembly Core Specification 1.0,
//! sections 3.4.8 and 3.4.10.

ghost use Rattle.std.specs.Prelude.{◌≢◌, ◌<◌, ◌↔◌, IsTrue, IfOk, All, AllPairs, map};
ghost use Rattle.faaslet_meaning.specs.declared.module.Export.{Export};
ghost use Rattle.wasm_validate.specs.Rules.{count_in};

use crate::spaces::Spaces;
use faaslet_meaning::{Export, ExportKind};
use std::alloc::{AllocError, Global};
use std::collections::BTreeSet;

fn exists(spaces: &Spaces, export: &Export) -> bool
    ensures { IsTrue result ↔ (export.now.index < count_in spaces.now export.now.kind) }
{
    let count = match export.kind {
        ExportKind::Function => spaces.functions.len(),
        ExportKind::Table => spaces.tables.len(),
        ExportKind::Memory => spaces.memories.len(),
        ExportKind::Global => spaces.globals.len(),
    };
    (export.index as usize) < count
}

pub fn exist(spaces: &Spaces, exports: &[Export]) -> bool
    ensures { IsTrue result ↔ All (λ (e : Export). e.index < count_in spaces.now e.kind) exports.now }
{
    exports.iter().all(|e| exists(spaces, e))
}

/// Whether no two exports have one name.
pub fn differ(alloc: Global, exports: &[Export]) -> Result<bool, AllocError>
    ensures { IfOk result (λ b. IsTrue b ↔ AllPairs (λ a b. a ≢ b) (map (λ e. e.name) exports.now)) }
{
    let mut names = BTreeSet::new(alloc);
    for export in exports {
        if !names.insert(export.name.as_slice())? {
            return Ok(false);
        }
    }
    Ok(true)
}
