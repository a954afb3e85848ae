//! Types, imports and exports. W3C WebAssembly Core Specification 1.0, sections 5.3 and 5.5.

ghost use Rattle.std.specs.Prelude.{◌≡◌};
ghost use Rattle.wasm_code.specs.Reading.{Gives, GivesOrWants};
ghost use Rattle.faaslet_meaning.specs.Reading as reading;
ghost use Rattle.faaslet_meaning.specs.ModuleReading as modules;

use crate::names::name_at;
use crate::vectors::{Part, vec_at};
use faaslet_meaning::{
    Export, ExportKind, FuncType, GlobalType, Import, ImportKind, Limits, ValType,
};
use std::alloc::Global;
use wasm_code::{BodyFault, Malformed, byte_at, u32_at, val_type_at};

impl Part for u32 {
    type Value = u32;

    ghost at = { reading.unsigned_at 32 };

    fn read(_alloc: Global, bytes: &[u8]) -> Result<(u32, &[u8]), BodyFault> {
        Ok(u32_at(bytes)?)
    }
}

impl Part for ValType {
    type Value = ValType;

    ghost at = { reading.val_type_at };

    fn read(_alloc: Global, bytes: &[u8]) -> Result<(ValType, &[u8]), BodyFault> {
        Ok(val_type_at(bytes)?)
    }
}

impl Part for FuncType {
    type Value = FuncType;

    ghost at = { modules.func_type_at };

    #[tactic(auto, unfolding(faaslet_meaning::specs::ModuleReading::func_type_at, faaslet_meaning::specs::Reading::byte_at))]
    fn read(alloc: Global, bytes: &[u8]) -> Result<(FuncType, &[u8]), BodyFault> {
        let (tag, rest) = byte_at(bytes)?;
        if tag != 0x60 {
            return Err(BodyFault::Malformed);
        }
        let (params, rest) = vec_at::<ValType>(alloc, rest)?;
        let (results, rest) = vec_at::<ValType>(alloc, rest)?;
        Ok((FuncType { params, results }, rest))
    }
}

/// The limits at the front, and the bytes behind them.
#[tactic(auto, unfolding(faaslet_meaning::specs::ModuleReading::limits_at, faaslet_meaning::specs::Reading::pair_at, faaslet_meaning::specs::Reading::byte_at))]
fn limits_at(bytes: &[u8]) -> Result<(Limits, &[u8]), Malformed>
    ensures { Gives (λ x. (x.0, x.1.now)) result (modules.limits_at bytes.now) }
{
    let (tag, rest) = byte_at(bytes)?;
    match tag {
        0x00 => {
            let (min, rest) = u32_at(rest)?;
            Ok((Limits { min, max: None }, rest))
        }
        0x01 => {
            let (min, rest) = u32_at(rest)?;
            let (max, rest) = u32_at(rest)?;
            Ok((
                Limits {
                    min,
                    max: Some(max),
                },
                rest,
            ))
        }
        _ => Err(Malformed),
    }
}

/// The limits of a memory.
impl Part for Limits {
    type Value = Limits;

    ghost at = { modules.limits_at };

    fn read(_alloc: Global, bytes: &[u8]) -> Result<(Limits, &[u8]), BodyFault> {
        Ok(limits_at(bytes)?)
    }
}

/// The limits of the table type at the front, and the bytes behind it.
#[tactic(auto, unfolding(faaslet_meaning::specs::ModuleReading::table_type_at, faaslet_meaning::specs::Reading::byte_at))]
fn table_type_at(bytes: &[u8]) -> Result<(Limits, &[u8]), Malformed>
    ensures { Gives (λ x. (x.0, x.1.now)) result (modules.table_type_at bytes.now) }
{
    let (tag, rest) = byte_at(bytes)?;
    if tag != 0x70 {
        return Err(Malformed);
    }
    limits_at(rest)
}

/// A table type, of which the limits are kept.
pub struct TableType;

impl Part for TableType {
    type Value = Limits;

    ghost at = { modules.table_type_at };

    fn read(_alloc: Global, bytes: &[u8]) -> Result<(Limits, &[u8]), BodyFault> {
        Ok(table_type_at(bytes)?)
    }
}

/// Whether the global may be set, and the bytes behind that.
#[tactic(auto, unfolding(faaslet_meaning::specs::ModuleReading::mutability_at, faaslet_meaning::specs::Reading::byte_at))]
fn mutability_at(bytes: &[u8]) -> Result<(bool, &[u8]), Malformed>
    ensures { Gives (λ x. (x.0, x.1.now)) result (modules.mutability_at bytes.now) }
{
    let (b, rest) = byte_at(bytes)?;
    match b {
        0x00 => Ok((false, rest)),
        0x01 => Ok((true, rest)),
        _ => Err(Malformed),
    }
}

/// The global type at the front, and the bytes behind it.
#[tactic(auto, unfolding(faaslet_meaning::specs::ModuleReading::global_type_at))]
pub fn global_type_at(bytes: &[u8]) -> Result<(GlobalType, &[u8]), Malformed>
    ensures { Gives (λ x. (x.0, x.1.now)) result (modules.global_type_at bytes.now) }
{
    let (value, rest) = val_type_at(bytes)?;
    let (mutable, rest) = mutability_at(rest)?;
    Ok((GlobalType { value, mutable }, rest))
}

/// What an import is, and the bytes behind that.
#[tactic(auto, unfolding(faaslet_meaning::specs::ModuleReading::import_kind_at, faaslet_meaning::specs::Reading::byte_at))]
fn import_kind_at(bytes: &[u8]) -> Result<(ImportKind, &[u8]), Malformed>
    ensures { Gives (λ x. (x.0, x.1.now)) result (modules.import_kind_at bytes.now) }
{
    let (b, rest) = byte_at(bytes)?;
    match b {
        0x00 => {
            let (index, rest) = u32_at(rest)?;
            Ok((ImportKind::Function(index), rest))
        }
        0x01 => {
            let (limits, rest) = table_type_at(rest)?;
            Ok((ImportKind::Table(limits), rest))
        }
        0x02 => {
            let (limits, rest) = limits_at(rest)?;
            Ok((ImportKind::Memory(limits), rest))
        }
        0x03 => {
            let (kind, rest) = global_type_at(rest)?;
            Ok((ImportKind::Global(kind), rest))
        }
        _ => Err(Malformed),
    }
}

impl Part for Import {
    type Value = Import;

    ghost at = { modules.import_at };

    #[tactic(auto, unfolding(faaslet_meaning::specs::ModuleReading::import_at))]
    fn read(alloc: Global, bytes: &[u8]) -> Result<(Import, &[u8]), BodyFault> {
        let (module, rest) = name_at(alloc, bytes)?;
        let (name, rest) = name_at(alloc, rest)?;
        let (kind, rest) = import_kind_at(rest)?;
        Ok((Import { module, name, kind }, rest))
    }
}

/// What an export is, and the bytes behind that.
#[tactic(auto, unfolding(faaslet_meaning::specs::ModuleReading::export_kind_at, faaslet_meaning::specs::Reading::byte_at))]
fn export_kind_at(bytes: &[u8]) -> Result<(ExportKind, &[u8]), Malformed>
    ensures { Gives (λ x. (x.0, x.1.now)) result (modules.export_kind_at bytes.now) }
{
    let (b, rest) = byte_at(bytes)?;
    match b {
        0x00 => Ok((ExportKind::Function, rest)),
        0x01 => Ok((ExportKind::Table, rest)),
        0x02 => Ok((ExportKind::Memory, rest)),
        0x03 => Ok((ExportKind::Global, rest)),
        _ => Err(Malformed),
    }
}

impl Part for Export {
    type Value = Export;

    ghost at = { modules.export_at };

    #[tactic(auto, unfolding(faaslet_meaning::specs::ModuleReading::export_at))]
    fn read(alloc: Global, bytes: &[u8]) -> Result<(Export, &[u8]), BodyFault> {
        let (name, rest) = name_at(alloc, bytes)?;
        let (kind, rest) = export_kind_at(rest)?;
        let (index, rest) = u32_at(rest)?;
        Ok((Export { name, kind, index }, rest))
    }
}
