//! Expressions and bodies, as flat lists. W3C WebAssembly Core Specification 1.0, sections 5.4.6 and 5.5.13.

ghost use Rattle.std.specs.Prelude.{◌≡◌, IfOk, IsErrOf};
ghost use Rattle.faaslet_meaning.specs.Productions.{Front, NoFront, NoSpelling};
ghost use Rattle.faaslet_meaning.specs.Instructions.{IsExpression};
ghost use Rattle.faaslet_meaning.specs.Grammar.{IsBody};
ghost use Rattle.faaslet_meaning.specs.ModuleReading as modules;
ghost use Rattle.wasm_code.specs.Reading.{GivesOrWants};

use crate::fault::BodyFault;
use crate::instr::instr_at;
use crate::locals::{are_few, local_groups_at};
use crate::nesting::Open;
use faaslet_meaning::{Body, Code, Instr, Items};
use std::alloc::Global;

/// Instructions up to the end of the expression that the first of them begins.
fn flats(alloc: Global, bytes: &[u8]) -> Result<(Code, &[u8]), BodyFault>
    ensures found { IfOk result (λ x. Front IsExpression bytes.now x.0 x.1.now) }
    ensures malformed { IsErrOf result BodyFault.Malformed → NoFront IsExpression bytes.now }
{
    let mut code: Vec<Instr> = Vec::new(alloc);
    let mut open = Open::new(alloc)?;
    let mut rest = bytes;
    'instrs: while !open.is_closed() {
        let (instr, after) = instr_at(alloc, rest)?;
        open.step(&instr)?;
        code.push(instr)?;
        rest = after;
    }
    Ok((Items::of(code), rest))
}

/// The expression at the front, and the bytes behind it.
#[tactic(auto, using(crate::proofs::Loop::gives_expression))]
pub fn expression_at(alloc: Global, bytes: &[u8]) -> Result<(Code, &[u8]), BodyFault>
    ensures { GivesOrWants (λ x. (x.0, x.1.now)) result (modules.expression_at bytes.now) }
{
    flats(alloc, bytes)
}

/// Locals and an expression at the front, and the bytes behind them.
#[tactic(auto, unfolding(faaslet_meaning::specs::ModuleReading::entry_at))]
fn entry_at(alloc: Global, bytes: &[u8]) -> Result<(Body, &[u8]), BodyFault>
    ensures { GivesOrWants (λ x. (x.0, x.1.now)) result (modules.entry_at bytes.now) }
{
    let (locals, rest) = local_groups_at(alloc, bytes)?;
    if !are_few(locals.as_slice()) {
        return Err(BodyFault::Malformed);
    }
    let (code, rest) = expression_at(alloc, rest)?;
    Ok((Body { locals, code }, rest))
}

/// The body that fills the bytes: what an entry of the code section has behind its size.
pub fn read_body(alloc: Global, bytes: &[u8]) -> Result<Body, BodyFault>
    ensures found { IfOk result (λ body. IsBody body bytes.now) }
    ensures malformed { IsErrOf result BodyFault.Malformed → NoSpelling IsBody bytes.now }
{
    let (body, rest) = entry_at(alloc, bytes)?;
    if !rest.is_empty() {
        return Err(BodyFault::Malformed);
    }
    Ok(body)
}
