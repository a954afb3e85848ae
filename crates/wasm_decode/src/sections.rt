//! Sections, one after another. W3C WebAssembly Core Specification 1.0, sections 5.5.2 and 5.5.15.

ghost use Rattle.std.specs.Prelude.{◌≡◌, [], ◌++◌, take, Some, None, IfOk, IsErrOf, MatchOption};
ghost use Rattle.faaslet_meaning.specs.Grammar.{IsModule, header};
ghost use Rattle.faaslet_meaning.specs.Productions.{NoSpelling};
ghost use Rattle.faaslet_meaning.specs.Reading as reading;
ghost use Rattle.faaslet_meaning.specs.ModuleReading as modules;
ghost use Rattle.wasm_code.specs.Reading.{Gives, GivesOrWants};
ghost use Rattle.wasm_decode.specs.Sections.{no_module, next_id, filled, put};

use crate::names::{blob_at, name_bytes_at};
use crate::parts::TableType;
use crate::vectors::whole_vec;
use faaslet_meaning::{
    Body, Element, Export, FuncType, GlobalDef, Import, Items, Limits, Module, Segment,
};
use std::alloc::Global;
use wasm_code::{BodyFault, Malformed, byte_at, u32_at};

/// The module so far, and the last id other than 0.
#[derive(Drop)]
pub struct SoFar {
    pub last: u8,
    pub built: Module,
}

/// The last id other than 0 after a section with this id, which has to be one that may stand there.
#[tactic(auto, unfolding(crate::specs::Sections::next_id))]
pub fn next_id(last: u8, id: u8) -> Result<u8, Malformed>
    ensures { Gives (λ x. x) result (next_id last id) }
{
    if id == 0 {
        return Ok(last);
    }
    if id <= last || id > 11 {
        return Err(Malformed);
    }
    Ok(id)
}

/// The one index that fills the bytes.
fn whole_index(content: &[u8]) -> Result<u32, Malformed>
    ensures { Gives (λ x. x) result (modules.whole (reading.unsigned_at 32 content.now)) }
{
    let (index, rest) = u32_at(content)?;
    if !rest.is_empty() {
        return Err(Malformed);
    }
    Ok(index)
}

/// The module with the content of a section.
#[tactic(auto, unfolding(crate::specs::Sections::filled))]
pub fn filled(alloc: Global, module: Module, id: u8, content: &[u8]) -> Result<Module, BodyFault>
    ensures { GivesOrWants (λ x. x) result (filled «module» id content.now) }
{
    let mut module = module;
    match id {
        0 => {
            let (_name, _rest) = name_bytes_at(content)?;
        }
        1 => module.types = whole_vec::<FuncType>(alloc, content)?,
        2 => module.imports = whole_vec::<Import>(alloc, content)?,
        3 => module.functions = whole_vec::<u32>(alloc, content)?,
        4 => module.tables = whole_vec::<TableType>(alloc, content)?,
        5 => module.memories = whole_vec::<Limits>(alloc, content)?,
        6 => module.globals = whole_vec::<GlobalDef>(alloc, content)?,
        7 => module.exports = whole_vec::<Export>(alloc, content)?,
        8 => module.start = Some(whole_index(content)?),
        9 => module.elements = whole_vec::<Element>(alloc, content)?,
        10 => module.bodies = whole_vec::<Body>(alloc, content)?,
        11 => module.segments = whole_vec::<Segment>(alloc, content)?,
        _ => return Err(BodyFault::Malformed),
    }
    Ok(module)
}

/// Takes one section more.
#[tactic(auto, unfolding(crate::specs::Sections::put))]
pub fn take_section(
    alloc: Global,
    so_far: SoFar,
    id: u8,
    content: &[u8],
) -> Result<SoFar, BodyFault>
    ensures { GivesOrWants (λ s. s) result (put so_far id content.now) }
{
    let SoFar { last, built } = so_far;
    let last = next_id(last, id)?;
    let built = filled(alloc, built, id, content)?;
    Ok(SoFar { last, built })
}

/// The id and the content of the section at the front, and the bytes behind it.
#[tactic(auto, unfolding(faaslet_meaning::specs::ModuleReading::section_at, faaslet_meaning::specs::Reading::byte_at))]
pub fn section_at(bytes: &[u8]) -> Result<(u8, &[u8], &[u8]), Malformed>
    ensures { Gives (λ x. ((x.0, x.1.now), x.2.now)) result (modules.section_at bytes.now) }
{
    let (id, rest) = byte_at(bytes)?;
    let (content, rest) = blob_at(rest)?;
    Ok((id, content, rest))
}

impl SoFar {
    /// Before the first section.
    pub fn start(alloc: Global) -> SoFar
        ensures last { result.last ≡ 0 }
        ensures built { result.built ≡ no_module }
    {
        let built = Module {
            types: Items::of(Vec::new(alloc)),
            imports: Items::of(Vec::new(alloc)),
            functions: Items::of(Vec::new(alloc)),
            tables: Items::of(Vec::new(alloc)),
            memories: Items::of(Vec::new(alloc)),
            globals: Items::of(Vec::new(alloc)),
            exports: Items::of(Vec::new(alloc)),
            start: None,
            elements: Items::of(Vec::new(alloc)),
            bodies: Items::of(Vec::new(alloc)),
            segments: Items::of(Vec::new(alloc)),
        };
        SoFar { last: 0, built }
    }
}

const HEADER: [u8; 8] = [0x00, 0x61, 0x73, 0x6D, 0x01, 0x00, 0x00, 0x00];

/// The bytes behind the header.
fn after_header(bytes: &[u8]) -> Option<&[u8]>
    ensures { MatchOption result (take 8 bytes.now ≡ header → ⊥) (λ rest. bytes.now ≡ header ++ rest.now) }
{
    if bytes.len() < 8 {
        return None;
    }
    let (front, rest) = bytes.split_at(8);
    if front != HEADER.as_slice() {
        return None;
    }
    Some(rest)
}

/// The module that the bytes spell.
pub fn read_module(alloc: Global, bytes: &[u8]) -> Result<Module, BodyFault>
    ensures found { IfOk result (λ m. IsModule m bytes.now) }
    ensures malformed { IsErrOf result BodyFault.Malformed → NoSpelling IsModule bytes.now }
{
    let Some(body) = after_header(bytes) else {
        return Err(BodyFault::Malformed);
    };
    let mut so_far = SoFar::start(alloc);
    let mut rest = body;
    while !rest.is_empty() {
        let (id, content, after) = section_at(rest)?;
        so_far = take_section(alloc, so_far, id, content)?;
        rest = after;
    }
    let SoFar { last: _, built } = so_far;
    if built.functions.as_slice().len() != built.bodies.as_slice().len() {
        return Err(BodyFault::Malformed);
    }
    Ok(built)
}
