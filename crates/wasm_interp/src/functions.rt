//! The functions of a module: host calls, and behind them those with a body.

ghost use Rattle.std.specs.Prelude.{◌≡◌, ◌<◌, ◌≤◌, Some, bytes_eq, length, map, slice_get};
ghost use Rattle.faaslet_meaning.specs.ControlRules.{same_type, type_code};
ghost use Rattle.faaslet_meaning.specs.Configuration.{Func, type_of};
ghost use Rattle.faaslet_meaning.specs.IndexSpaces.{type_at};
ghost use Rattle.faaslet_meaning.specs.Program.{functions_of};
ghost use Rattle.faaslet_meaning.specs.Runnable.{HostImports};
ghost use Rattle.faaslet_meaning.specs.Valid.{Valid};
ghost use Rattle.wasm_interp.specs.Callees.{CalleeIs};

use crate::host_calls::host_number;
use faaslet_meaning::{FuncType, ImportKind, Instr, Module, ValType};
use wasm_validate::{Jump, ValidModule};

/// A function with a body: its code and the jumps of its places, how many parameters and other locals it
/// has, and how many results.
#[derive(Clone, Copy)]
pub struct Own<'m> {
    pub code: &'m [Instr],
    pub jumps: &'m [Jump],
    pub params: usize,
    pub locals: u64,
    pub results: u32,
}

/// What a call goes on with: a host call, by its number and with so many arguments, or a body.
#[derive(Clone, Copy)]
pub enum Callee<'m> {
    Host(usize, usize),
    Own(Own<'m>),
}

// The number of a function's type.
fn type_index(code: &Module, f: usize) -> usize
    requires valid { Valid code.now }
    requires imports { HostImports code.now }
    requires there { (g : Func) × (slice_get (functions_of code.now) f ≡ Some g) }
    ensures is { (g : Func) → slice_get (functions_of code.now) f ≡ Some g → type_of g ≡ type_at code.now result }
    ensures within { result < length code.now.types }
{
    let imports = code.imports.as_slice();
    if f < imports.len() {
        let import = &imports[f];
        match import.kind {
            ImportKind::Function(t) => t as usize,
            _ => unreachable!(),
        }
    } else {
        let own = code.functions.as_slice();
        own[f - imports.len()] as usize
    }
}

/// The type of a function.
pub fn function_type<'m>(code: &'m Module, f: usize) -> &'m FuncType
    requires valid { Valid code.now }
    requires imports { HostImports code.now }
    requires there { (g : Func) × (slice_get (functions_of code.now) f ≡ Some g) }
    ensures is { (g : Func) → slice_get (functions_of code.now) f ≡ Some g → type_of g ≡ result.now }
    ensures few { length result.now.results ≤ 1 }
{
    &code.types.as_slice()[type_index(code, f)]
}

/// What a call of a function goes on with.
pub fn find_function<'m>(code: &'m ValidModule, f: usize) -> Callee<'m>
    requires imports { HostImports code.now }
    requires there { (g : Func) × (slice_get (functions_of code.now) f ≡ Some g) }
    ensures { (g : Func) → slice_get (functions_of code.now) f ≡ Some g → CalleeIs g result }
{
    let module = code.module();
    let t = function_type(module, f);
    let params = t.params.as_slice().len();
    let imports = module.imports.as_slice();
    if f < imports.len() {
        let import = &imports[f];
        return Callee::Host(host_number(import.name.as_slice()), params);
    }
    let place = f - imports.len();
    let body = &module.bodies.as_slice()[place];
    Callee::Own(Own {
        code: body.code.as_slice(),
        jumps: code.jumps(place).as_slice(),
        params,
        locals: code.local_count(place),
        results: t.results.as_slice().len() as u32,
    })
}

fn are_same(a: &[ValType], b: &[ValType]) -> bool
    ensures { result ≡ bytes_eq (map type_code a.now) (map type_code b.now) }
{
    a == b
}

/// Whether two functions have one type.
pub fn have_same_type(s: &FuncType, t: &FuncType) -> bool
    ensures { result ≡ same_type s.now t.now }
{
    are_same(s.params.as_slice(), t.params.as_slice())
        && are_same(s.results.as_slice(), t.results.as_slice())
}
