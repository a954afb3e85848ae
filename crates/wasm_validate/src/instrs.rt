//! What each instruction does to the stacks.

ghost use Rattle.std.specs.Prelude.{◌≡◌, [], ◌∷◌, Some, None, cond, reverse, slice_get, option_map, option_and_then};
ghost use Rattle.faaslet_meaning.specs.Typing.{Context};
ghost use Rattle.faaslet_meaning.specs.declared.instr.ValType.TheVariants.{I32, I64};
ghost use Rattle.wasm_validate.specs.Frames.{push, pop_any, pop};
ghost use Rattle.wasm_validate.specs.Gives.{Leaves};
ghost use Rattle.wasm_validate.specs.Opcodes.{signature_at, operands, load_at, store_at};
ghost use Rattle.wasm_validate.specs.Steps.{arrow, select_first, settable, accessed, go_at, step_at, run_at};

use crate::blocks::Blocks;
use crate::branches::{br, br_if, br_table, end, leave_by, open_if, other};
use crate::fault::Fault;
use crate::kind::Kind;
use crate::opcodes::{Access, load, numeric, store};
use crate::operands::{pop, pop_all, push_all, same, unary};
use crate::scope::Scope;
use faaslet_meaning::{Instr, ValType};

fn drop_top(blocks: &mut Blocks) -> Result<(), Fault>
    ensures { Leaves result blocks.new (option_map (λ x. x.1) (pop_any blocks.old)) }
{
    blocks.pop_any()?;
    Ok(())
}

fn select(blocks: &mut Blocks) -> Result<(), Fault>
    ensures { Leaves result blocks.new (option_and_then select_first (pop I32 blocks.old)) }
{
    pop(blocks, ValType::I32)?;
    let upper = blocks.pop_any()?;
    let lower = blocks.pop_any()?;
    match upper {
        None => blocks.push(lower),
        Some(t) => match lower {
            None => blocks.push(upper),
            Some(s) => {
                if same(s, t) {
                    blocks.push(upper)
                } else {
                    Err(Fault::Invalid)
                }
            }
        },
    }
}

fn call(scope: &Scope, blocks: &mut Blocks, f: u32) -> Result<(), Fault>
    ensures { Leaves result blocks.new (option_and_then (λ g. arrow (reverse g.params) g.results blocks.old) (slice_get scope.now.functions f)) }
{
    match scope.function(f) {
        Some(g) => {
            pop_all(blocks, g.params.as_slice())?;
            push_all(blocks, g.results.as_slice())
        }
        None => Err(Fault::Invalid),
    }
}

fn call_indirect(scope: &Scope, blocks: &mut Blocks, t: u32) -> Result<(), Fault>
    ensures { Leaves result blocks.new (option_and_then (λ g. arrow (I32 ∷ reverse g.params) g.results blocks.old) (cond scope.now.has_table (slice_get scope.now.types t) None)) }
{
    if !scope.has_table() {
        return Err(Fault::Invalid);
    }
    match scope.func_type(t) {
        Some(g) => {
            pop(blocks, ValType::I32)?;
            pop_all(blocks, g.params.as_slice())?;
            push_all(blocks, g.results.as_slice())
        }
        None => Err(Fault::Invalid),
    }
}

fn local_get(scope: &Scope, blocks: &mut Blocks, k: u32) -> Result<(), Fault>
    ensures { Leaves result blocks.new (option_map (λ t. push (Some t) blocks.old) (slice_get scope.now.locals k)) }
{
    match scope.local(k) {
        Some(t) => blocks.push(Some(t)),
        None => Err(Fault::Invalid),
    }
}

fn local_set(scope: &Scope, blocks: &mut Blocks, k: u32) -> Result<(), Fault>
    ensures { Leaves result blocks.new (option_and_then (λ t. arrow (t ∷ []) [] blocks.old) (slice_get scope.now.locals k)) }
{
    match scope.local(k) {
        Some(t) => pop(blocks, t),
        None => Err(Fault::Invalid),
    }
}

fn local_tee(scope: &Scope, blocks: &mut Blocks, k: u32) -> Result<(), Fault>
    ensures { Leaves result blocks.new (option_and_then (λ t. arrow (t ∷ []) (t ∷ []) blocks.old) (slice_get scope.now.locals k)) }
{
    match scope.local(k) {
        Some(t) => unary(blocks, t, t),
        None => Err(Fault::Invalid),
    }
}

fn global_get(scope: &Scope, blocks: &mut Blocks, k: u32) -> Result<(), Fault>
    ensures { Leaves result blocks.new (option_and_then (λ g. arrow [] (g.value ∷ []) blocks.old) (slice_get scope.now.globals k)) }
{
    match scope.global(k) {
        Some(g) => blocks.push(Some(g.value)),
        None => Err(Fault::Invalid),
    }
}

fn settable(scope: &Scope, k: u32) -> Option<ValType>
    ensures { result ≡ settable scope.now k }
{
    match scope.global(k) {
        Some(g) => { if g.mutable { Some(g.value) } else { None } }
        None => None,
    }
}

fn global_set(scope: &Scope, blocks: &mut Blocks, k: u32) -> Result<(), Fault>
    ensures { Leaves result blocks.new (option_and_then (λ t. arrow (t ∷ []) [] blocks.old) (settable scope.now k)) }
{
    match settable(scope, k) {
        Some(t) => pop(blocks, t),
        None => Err(Fault::Invalid),
    }
}

/// The type that is loaded or stored, where there is a memory and the alignment is not too large.
fn accessed(scope: &Scope, found: Option<Access>, align: u32) -> Option<ValType>
    ensures { result ≡ accessed scope.now found align }
{
    match found {
        Some(a) => {
            if scope.has_memory() && align <= a.align {
                Some(a.value)
            } else {
                None
            }
        }
        None => None,
    }
}

fn loads(scope: &Scope, blocks: &mut Blocks, op: u8, align: u32) -> Result<(), Fault>
    ensures { Leaves result blocks.new (option_and_then (λ t. arrow (I32 ∷ []) (t ∷ []) blocks.old) (accessed scope.now (load_at op) align)) }
{
    match accessed(scope, load(op), align) {
        Some(t) => unary(blocks, ValType::I32, t),
        None => Err(Fault::Invalid),
    }
}

fn stores(scope: &Scope, blocks: &mut Blocks, op: u8, align: u32) -> Result<(), Fault>
    ensures { Leaves result blocks.new (option_and_then (λ t. arrow (t ∷ (I32 ∷ [])) [] blocks.old) (accessed scope.now (store_at op) align)) }
{
    match accessed(scope, store(op), align) {
        Some(t) => {
            pop(blocks, t)?;
            pop(blocks, ValType::I32)
        }
        None => Err(Fault::Invalid),
    }
}

fn memory_size(scope: &Scope, blocks: &mut Blocks) -> Result<(), Fault>
    ensures { Leaves result blocks.new (cond scope.now.has_memory (arrow [] (I32 ∷ []) blocks.old) None) }
{
    if scope.has_memory() {
        blocks.push(Some(ValType::I32))
    } else {
        Err(Fault::Invalid)
    }
}

fn memory_grow(scope: &Scope, blocks: &mut Blocks) -> Result<(), Fault>
    ensures { Leaves result blocks.new (cond scope.now.has_memory (arrow (I32 ∷ []) (I32 ∷ []) blocks.old) None) }
{
    if scope.has_memory() {
        unary(blocks, ValType::I32, ValType::I32)
    } else {
        Err(Fault::Invalid)
    }
}

fn num(blocks: &mut Blocks, op: u8) -> Result<(), Fault>
    ensures { Leaves result blocks.new (option_and_then (λ g. arrow (operands g.operand g.two) (g.leaves ∷ []) blocks.old) (signature_at op)) }
{
    let Some(g) = numeric(op) else {
        return Err(Fault::Invalid);
    };
    pop(blocks, g.operand)?;
    if g.two {
        pop(blocks, g.operand)?;
    }
    blocks.push(Some(g.leaves))
}

fn go(scope: &Scope, instr: &Instr, blocks: &mut Blocks) -> Result<(), Fault>
    ensures { Leaves result blocks.new (go_at scope.now instr.now blocks.old) }
{
    match instr {
        Instr::Unreachable => {
            blocks.die();
            Ok(())
        }
        Instr::Nop => Ok(()),
        Instr::Block(t) => blocks.open(Kind::Body, *t),
        Instr::Loop(t) => blocks.open(Kind::Again, *t),
        Instr::If(t) => open_if(blocks, *t),
        Instr::Else => other(blocks),
        Instr::End => end(blocks),
        Instr::Br(n) => br(blocks, *n),
        Instr::BrIf(n) => br_if(blocks, *n),
        Instr::BrTable(labels, n) => br_table(blocks, labels.as_slice(), *n),
        Instr::Return => leave_by(blocks, scope.leaves()),
        Instr::Call(f) => call(scope, blocks, *f),
        Instr::CallIndirect(t) => call_indirect(scope, blocks, *t),
        Instr::Drop => drop_top(blocks),
        Instr::Select => select(blocks),
        Instr::LocalGet(k) => local_get(scope, blocks, *k),
        Instr::LocalSet(k) => local_set(scope, blocks, *k),
        Instr::LocalTee(k) => local_tee(scope, blocks, *k),
        Instr::GlobalGet(k) => global_get(scope, blocks, *k),
        Instr::GlobalSet(k) => global_set(scope, blocks, *k),
        Instr::Load(op, align, _) => loads(scope, blocks, *op, *align),
        Instr::Store(op, align, _) => stores(scope, blocks, *op, *align),
        Instr::MemorySize => memory_size(scope, blocks),
        Instr::MemoryGrow => memory_grow(scope, blocks),
        Instr::I32Const(_) => blocks.push(Some(ValType::I32)),
        Instr::I64Const(_) => blocks.push(Some(ValType::I64)),
        Instr::F32Const(_) | Instr::F64Const(_) => Err(Fault::Invalid),
        Instr::Num(op) => num(blocks, *op),
    }
}

/// One instruction of a body that has not ended.
fn step(scope: &Scope, instr: &Instr, blocks: &mut Blocks) -> Result<(), Fault>
    ensures { Leaves result blocks.new (step_at scope.now instr.now blocks.old) }
{
    if blocks.is_closed() {
        return Err(Fault::Invalid);
    }
    go(scope, instr, blocks)
}

/// All of a body's instructions.
pub fn run(scope: &Scope, code: &[Instr], blocks: &mut Blocks) -> Result<(), Fault>
    ensures { Leaves result blocks.new (run_at scope.now code.now blocks.old) }
{
    for instr in code {
        step(scope, instr, blocks)?;
    }
    Ok(())
}
