//! Constant expressions, and the parts of a module that have them. W3C WebAssembly Core
//! Specification 1.0, sections 3.3.7, 3.4.4, 3.4.5 and 3.4.6.

ghost use Rattle.std.specs.Prelude.{◌≡◌, ◌↔◌, IsTrue, All};
ghost use Rattle.faaslet_meaning.specs.IndexSpaces.{imported_globals};
ghost use Rattle.faaslet_meaning.specs.Valid.{GivesConstant, IsConstant, ElementOk, SegmentOk};
ghost use Rattle.wasm_validate.specs.Spaces.{AreSpaces};
ghost use Rattle.wasm_validate.specs.Rules.{ElementIn, SegmentIn};

use crate::rules::are_below;
use crate::spaces::Spaces;
use faaslet_meaning::{Element, GlobalDef, GlobalType, Instr, Module, Segment, ValType};

/// Whether the instruction gives a constant of this type; a global has to be immutable.
fn gives_constant(globals: &[GlobalType], instr: &Instr, kind: ValType) -> bool
    ensures { IsTrue result ↔ GivesConstant globals.now instr.now kind }
{
    match instr {
        Instr::I32Const(_) => kind == ValType::I32,
        Instr::I64Const(_) => kind == ValType::I64,
        Instr::GlobalGet(k) => match globals.get(*k as usize) {
            Some(g) => !g.mutable && g.value == kind,
            None => false,
        },
        _ => false,
    }
}

/// One instruction that gives a constant, and the end.
fn is_constant(globals: &[GlobalType], kind: ValType, code: &[Instr]) -> bool
    ensures { IsTrue result ↔ IsConstant globals.now kind code.now }
{
    match code {
        [instr, Instr::End] => gives_constant(globals, instr, kind),
        _ => false,
    }
}

fn begins_constant(imported: &[GlobalType], global: &GlobalDef) -> bool
    ensures { IsTrue result ↔ IsConstant imported.now global.now.kind.value global.now.init }
{
    is_constant(imported, global.kind.value, global.init.as_slice())
}

fn are_constant(imported: &[GlobalType], globals: &[GlobalDef]) -> bool
    ensures { IsTrue result ↔ All (λ d. IsConstant imported.now d.kind.value d.init) globals.now }
{
    for global in globals {
        if !begins_constant(imported, global) {
            return false;
        }
    }
    true
}

fn element_holds(spaces: &Spaces, element: &Element) -> bool
    ensures { IsTrue result ↔ ElementIn spaces.now element.now }
{
    (element.table as usize) < spaces.tables.len()
        && is_constant(
            spaces.globals.as_slice(),
            ValType::I32,
            element.offset.as_slice(),
        )
        && are_below(element.functions.as_slice(), spaces.functions.len())
}

fn are_elements(spaces: &Spaces, elements: &[Element]) -> bool
    ensures { IsTrue result ↔ All (ElementIn spaces.now) elements.now }
{
    elements.iter().all(|e| element_holds(spaces, e))
}

fn segment_holds(spaces: &Spaces, segment: &Segment) -> bool
    ensures { IsTrue result ↔ SegmentIn spaces.now segment.now }
{
    (segment.memory as usize) < spaces.memories.len()
        && is_constant(
            spaces.globals.as_slice(),
            ValType::I32,
            segment.offset.as_slice(),
        )
}

fn are_segments(spaces: &Spaces, segments: &[Segment]) -> bool
    ensures { IsTrue result ↔ All (SegmentIn spaces.now) segments.now }
{
    for segment in segments {
        if !segment_holds(spaces, segment) {
            return false;
        }
    }
    true
}

/// Each global begins as a constant of its type, by the imported globals.
pub fn globals_hold(module: &Module, spaces: &Spaces) -> bool
    requires { AreSpaces «module».now spaces.now }
    ensures { IsTrue result ↔ All (λ d. IsConstant (imported_globals «module».now) d.kind.value d.init) «module».now.globals }
{
    are_constant(
        spaces.imported_globals.as_slice(),
        module.globals.as_slice(),
    )
}

pub fn elements_hold(module: &Module, spaces: &Spaces) -> bool
    requires { AreSpaces «module».now spaces.now }
    ensures { IsTrue result ↔ All (ElementOk «module».now) «module».now.elements }
{
    are_elements(spaces, module.elements.as_slice())
}

pub fn segments_hold(module: &Module, spaces: &Spaces) -> bool
    requires { AreSpaces «module».now spaces.now }
    ensures { IsTrue result ↔ All (SegmentOk «module».now) «module».now.segments }
{
    are_segments(spaces, module.segments.as_slice())
}
