//! Whether a module has floats, which are not run.

ghost use Rattle.std.specs.Prelude.{◌≡◌, ◌||◌};
ghost use Rattle.std.specs.List.{list_any};
ghost use Rattle.faaslet_meaning.specs.Floats as floats;

use faaslet_meaning::{
    Body, Element, FuncType, GlobalDef, Import, ImportKind, Instr, LocalGroup, Module, Segment,
    ValType,
};

fn is_float(kind: ValType) -> bool
    ensures { result ≡ floats.is_float kind }
{
    match kind {
        ValType::I32 | ValType::I64 => false,
        ValType::F32 | ValType::F64 => true,
    }
}

/// Of the type of a block, where it has one.
fn is_float_result(kind: Option<ValType>) -> bool
    ensures { result ≡ floats.is_float_result kind }
{
    match kind {
        None => false,
        Some(kind) => is_float(kind),
    }
}

/// Whether a numeric instruction takes or leaves a float.
fn is_float_opcode(op: u8) -> bool
    ensures { result ≡ floats.is_float_opcode op }
{
    (op >= 0x5B && op <= 0x66)
        || (op >= 0x8B && op <= 0xA6)
        || (op >= 0xA8 && op <= 0xAB)
        || (op >= 0xAE && op <= 0xBF)
}

fn is_float_instr(instr: &Instr) -> bool
    ensures { result ≡ floats.is_float_instr instr.now }
{
    match instr {
        Instr::Block(kind) | Instr::Loop(kind) | Instr::If(kind) => is_float_result(*kind),
        Instr::Load(op, _, _) => *op == 0x2A || *op == 0x2B,
        Instr::Store(op, _, _) => *op == 0x38 || *op == 0x39,
        Instr::F32Const(_) | Instr::F64Const(_) => true,
        Instr::Num(op) => is_float_opcode(*op),
        _ => false,
    }
}

fn is_float_code(code: &[Instr]) -> bool
    ensures { result ≡ floats.is_float_code code.now }
{
    code.iter().any(is_float_instr)
}

fn are_floats(kinds: &[ValType]) -> bool
    ensures { result ≡ list_any floats.is_float kinds.now }
{
    kinds.iter().any(|kind| is_float(*kind))
}

/// Whether a type of a function has a float.
fn in_types(types: &[FuncType]) -> bool
    ensures { result ≡ list_any (λ t. list_any floats.is_float t.params || list_any floats.is_float t.results) types.now }
{
    types.iter().any(|kind| are_floats(kind.params.as_slice())
        || are_floats(kind.results.as_slice()))
}

/// Whether a global of a float type is imported.
fn in_imports(imports: &[Import]) -> bool
    ensures { result ≡ list_any (λ i. floats.is_float_import i.kind) imports.now }
{
    imports.iter().any(|import| match &import.kind {
        ImportKind::Global(kind) => is_float(kind.value),
        _ => false,
    })
}

/// Whether a global has a float type, or a float in its expression.
fn in_globals(globals: &[GlobalDef]) -> bool
    ensures { result ≡ list_any (λ d. floats.is_float d.kind.value || floats.is_float_code d.init) globals.now }
{
    globals.iter().any(|global| is_float(global.kind.value)
        || is_float_code(global.init.as_slice()))
}

/// Whether the place of some elements is an expression with a float.
fn in_elements(elements: &[Element]) -> bool
    ensures { result ≡ list_any (λ e. floats.is_float_code e.offset) elements.now }
{
    elements
        .iter()
        .any(|element| is_float_code(element.offset.as_slice()))
}

/// Whether some locals have a float type.
fn in_locals(groups: &[LocalGroup]) -> bool
    ensures { result ≡ list_any (λ g. floats.is_float g.kind) groups.now }
{
    groups.iter().any(|group| is_float(group.kind))
}

/// Whether a body has a float, in its locals or its instructions.
fn in_bodies(bodies: &[Body]) -> bool
    ensures { result ≡ list_any (λ b. list_any (λ g. floats.is_float g.kind) b.locals || floats.is_float_code b.code) bodies.now }
{
    bodies.iter().any(|body| in_locals(body.locals.as_slice())
        || is_float_code(body.code.as_slice()))
}

/// Whether the place of some data is an expression with a float.
fn in_segments(segments: &[Segment]) -> bool
    ensures { result ≡ list_any (λ s. floats.is_float_code s.offset) segments.now }
{
    segments
        .iter()
        .any(|segment| is_float_code(segment.offset.as_slice()))
}

/// Whether a float type or a float instruction stands somewhere in the module.
pub fn has_float(module: &Module) -> bool
    ensures { result ≡ floats.has_float «module».now }
{
    in_types(module.types.as_slice())
        || in_imports(module.imports.as_slice())
        || in_globals(module.globals.as_slice())
        || in_elements(module.elements.as_slice())
        || in_bodies(module.bodies.as_slice())
        || in_segments(module.segments.as_slice())
}
