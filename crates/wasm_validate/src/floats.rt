//! Floats, which no module may have. W3C WebAssembly Core Specification 1.0, sections 5.3.1 and 5.4.

ghost use Rattle.std.specs.Prelude.{◌≡◌, ◌||◌};
ghost use Rattle.std.specs.List.{list_any};
ghost use Rattle.faaslet_meaning.specs.declared.module.FuncType.{FuncType};
ghost use Rattle.faaslet_meaning.specs.Floats.{is_float, is_float_result, is_float_opcode, is_float_instr, is_float_code, is_float_import, has_float};

use faaslet_meaning::{
    Body, Element, FuncType, GlobalDef, Import, ImportKind, Instr, LocalGroup, Module, Segment,
    ValType,
};

fn is_float(t: ValType) -> bool
    ensures { result ≡ is_float t }
{
    match t {
        ValType::I32 | ValType::I64 => false,
        ValType::F32 | ValType::F64 => true,
    }
}

fn is_float_result(t: Option<ValType>) -> bool
    ensures { result ≡ is_float_result t }
{
    match t {
        Some(t) => is_float(t),
        None => false,
    }
}

fn is_float_opcode(op: u8) -> bool
    ensures { result ≡ is_float_opcode op }
{
    match op {
        0x5B..=0x66 | 0x8B..=0xA6 | 0xA8..=0xAB | 0xAE..=0xBF => true,
        _ => false,
    }
}

fn is_float_instr(instr: &Instr) -> bool
    ensures { result ≡ is_float_instr instr.now }
{
    match instr {
        Instr::Block(t) | Instr::Loop(t) | Instr::If(t) => is_float_result(*t),
        Instr::Load(op, _, _) => *op == 0x2A || *op == 0x2B,
        Instr::Store(op, _, _) => *op == 0x38 || *op == 0x39,
        Instr::F32Const(_) | Instr::F64Const(_) => true,
        Instr::Num(op) => is_float_opcode(*op),
        _ => false,
    }
}

fn is_float_code(code: &[Instr]) -> bool
    ensures { result ≡ is_float_code code.now }
{
    code.iter().any(|instr| is_float_instr(instr))
}

fn any_float(types: &[ValType]) -> bool
    ensures { result ≡ list_any is_float types.now }
{
    types.iter().any(|t| is_float(*t))
}

fn in_type(t: &FuncType) -> bool
    ensures { result ≡ (list_any is_float t.now.params || list_any is_float t.now.results) }
{
    any_float(t.params.as_slice()) || any_float(t.results.as_slice())
}

fn in_types(types: &[FuncType]) -> bool
    ensures { result ≡ list_any (λ (t : FuncType). list_any is_float t.params || list_any is_float t.results) types.now }
{
    types.iter().any(|t| in_type(t))
}

fn in_import(import: &Import) -> bool
    ensures { result ≡ is_float_import import.now.kind }
{
    match &import.kind {
        ImportKind::Global(g) => is_float(g.value),
        _ => false,
    }
}

fn in_imports(imports: &[Import]) -> bool
    ensures { result ≡ list_any (λ i. is_float_import i.kind) imports.now }
{
    imports.iter().any(|i| in_import(i))
}

fn in_global(global: &GlobalDef) -> bool
    ensures { result ≡ (is_float global.now.kind.value || is_float_code global.now.init) }
{
    is_float(global.kind.value) || is_float_code(global.init.as_slice())
}

fn in_globals(globals: &[GlobalDef]) -> bool
    ensures { result ≡ list_any (λ d. is_float d.kind.value || is_float_code d.init) globals.now }
{
    globals.iter().any(|d| in_global(d))
}

fn in_element(element: &Element) -> bool
    ensures { result ≡ is_float_code element.now.offset }
{
    is_float_code(element.offset.as_slice())
}

fn in_elements(elements: &[Element]) -> bool
    ensures { result ≡ list_any (λ e. is_float_code e.offset) elements.now }
{
    elements.iter().any(|e| in_element(e))
}

fn in_groups(groups: &[LocalGroup]) -> bool
    ensures { result ≡ list_any (λ g. is_float g.kind) groups.now }
{
    groups.iter().any(|g| is_float(g.kind))
}

fn in_body(body: &Body) -> bool
    ensures { result ≡ (list_any (λ g. is_float g.kind) body.now.locals || is_float_code body.now.code) }
{
    in_groups(body.locals.as_slice()) || is_float_code(body.code.as_slice())
}

fn in_bodies(bodies: &[Body]) -> bool
    ensures { result ≡ list_any (λ b. list_any (λ g. is_float g.kind) b.locals || is_float_code b.code) bodies.now }
{
    bodies.iter().any(|b| in_body(b))
}

fn in_segment(segment: &Segment) -> bool
    ensures { result ≡ is_float_code segment.now.offset }
{
    is_float_code(segment.offset.as_slice())
}

fn in_segments(segments: &[Segment]) -> bool
    ensures { result ≡ list_any (λ s. is_float_code s.offset) segments.now }
{
    segments.iter().any(|s| in_segment(s))
}

/// Whether a float type or a float instruction stands somewhere in the module.
pub fn has_float(module: &Module) -> bool
    ensures { result ≡ has_float module.now }
{
    in_types(module.types.as_slice())
        || in_imports(module.imports.as_slice())
        || in_globals(module.globals.as_slice())
        || in_elements(module.elements.as_slice())
        || in_bodies(module.bodies.as_slice())
        || in_segments(module.segments.as_slice())
}
