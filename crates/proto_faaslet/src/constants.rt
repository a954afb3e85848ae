//! Constant expressions and globals.

ghost use Rattle.std.specs.Prelude.{◌≡◌, IfOk, unwrap_or};
ghost use Rattle.faaslet_meaning.specs.Program.{constant_by};
ghost use Rattle.proto_faaslet.specs.Instances.{value_of, globals_of};

use faaslet_meaning::{GlobalDef, Instr};
use std::alloc::{AllocError, Global};

fn constant(globals: &[u64], instr: &Instr) -> Option<u64>
    ensures { result ≡ constant_by globals.now instr.now }
{
    match instr {
        Instr::I32Const(n) => Some(u64::from(n.cast_unsigned())),
        Instr::I64Const(n) => Some(n.cast_unsigned()),
        Instr::GlobalGet(k) => globals.get(*k as usize).copied(),
        _ => None,
    }
}

/// The value of a constant expression, with the globals known so far. Code that is none counts as 0.
pub fn value(globals: &[u64], code: &[Instr]) -> u64
    ensures { result ≡ value_of globals.now code.now }
{
    match code {
        [instr, ..] => constant(globals, instr).unwrap_or(0),
        [] => 0,
    }
}

/// The values of globals, each by those before it.
pub fn global_values(alloc: Global, globals: &[GlobalDef]) -> Result<Vec<u64>, AllocError>
    ensures { IfOk result (λ v. v.items ≡ globals_of globals.now) }
{
    let mut values = Vec::new(alloc);
    for global in globals {
        let value = value(values.as_slice(), global.init.as_slice());
        values.push(value)?;
    }
    Ok(values)
}
