//! Modules and their parts, in the terms of the binary format.

use crate::instr::{Instr, ValType};
use crate::items::{Bytes, Items, Labels};

pub type Types = Items<ValType>;

pub type Code = Items<Instr>;

pub type FuncTypes = Items<FuncType>;

pub type Imports = Items<Import>;

pub type LimitsList = Items<Limits>;

pub type GlobalDefs = Items<GlobalDef>;

pub type Exports = Items<Export>;

pub type Elements = Items<Element>;

pub type LocalGroups = Items<LocalGroup>;

pub type Bodies = Items<Body>;

pub type Segments = Items<Segment>;

#[derive(Debug, Drop, PartialEq)]
pub struct FuncType {
    pub params: Types,
    pub results: Types,
}

#[derive(Clone, Copy, Debug, PartialEq, Eq)]
pub struct Limits {
    pub min: u32,
    pub max: Option<u32>,
}

#[derive(Clone, Copy, Debug, PartialEq, Eq)]
pub struct GlobalType {
    pub value: ValType,
    pub mutable: bool,
}

#[derive(Debug, Drop, PartialEq)]
pub enum ImportKind {
    Function(u32),
    Table(Limits),
    Memory(Limits),
    Global(GlobalType),
}

#[derive(Debug, Drop, PartialEq)]
pub struct Import {
    pub module: Bytes,
    pub name: Bytes,
    pub kind: ImportKind,
}

#[derive(Debug, Drop, PartialEq)]
pub struct GlobalDef {
    pub kind: GlobalType,
    pub init: Code,
}

#[derive(Clone, Copy, Debug, PartialEq, Eq)]
pub enum ExportKind {
    Function,
    Table,
    Memory,
    Global,
}

#[derive(Debug, Drop, PartialEq)]
pub struct Export {
    pub name: Bytes,
    pub kind: ExportKind,
    pub index: u32,
}

#[derive(Debug, Drop, PartialEq)]
pub struct Element {
    pub table: u32,
    pub offset: Code,
    pub functions: Labels,
}

/// A number of locals of one type.
#[derive(Clone, Copy, Debug, PartialEq, Eq)]
pub struct LocalGroup {
    pub count: u32,
    pub kind: ValType,
}

#[derive(Debug, Drop, PartialEq)]
pub struct Body {
    pub locals: LocalGroups,
    pub code: Code,
}

#[derive(Debug, Drop, PartialEq)]
pub struct Segment {
    pub memory: u32,
    pub offset: Code,
    pub bytes: Bytes,
}

#[derive(Debug, Drop, PartialEq)]
pub struct Module {
    pub types: FuncTypes,
    pub imports: Imports,
    pub functions: Labels,
    pub tables: LimitsList,
    pub memories: LimitsList,
    pub globals: GlobalDefs,
    pub exports: Exports,
    pub start: Option<u32>,
    pub elements: Elements,
    pub bodies: Bodies,
    pub segments: Segments,
}
