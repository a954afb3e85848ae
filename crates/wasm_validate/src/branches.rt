//! Branches, and the beginnings and ends of blocks.

ghost use Rattle.std.specs.Prelude.{◌≡◌, ◌∷◌, None, cond, option_map, option_and_then};
ghost use Rattle.faaslet_meaning.specs.Tree.{types_of};
ghost use Rattle.faaslet_meaning.specs.declared.instr.ValType.TheVariants.{I32};
ghost use Rattle.wasm_validate.specs.declared.kind.Kind.TheVariants.{Choice};
ghost use Rattle.wasm_validate.specs.Frames.{pop, opened, close};
ghost use Rattle.wasm_validate.specs.Gives.{Gives, Leaves};
ghost use Rattle.wasm_validate.specs.Steps.{same_type, label, is_label, all_labels, arrow, leaves_by, other_side, ended};

use crate::blocks::Blocks;
use crate::fault::Fault;
use crate::kind::Kind;
use crate::operands::{pop, pop_type, push_type, same};
use faaslet_meaning::ValType;

fn same_type(s: Option<ValType>, t: Option<ValType>) -> bool
    ensures { result ≡ same_type s t }
{
    match s {
        None => match t {
            None => true,
            Some(_) => false,
        },
        Some(a) => match t {
            None => false,
            Some(b) => same(a, b),
        },
    }
}

/// A branch that is always taken.
pub fn leave_by(blocks: &mut Blocks, t: Option<ValType>) -> Result<(), Fault>
    ensures { Leaves result blocks.new (leaves_by (types_of t) blocks.old) }
{
    pop_type(blocks, t)?;
    blocks.die();
    Ok(())
}

pub fn br(blocks: &mut Blocks, n: u32) -> Result<(), Fault>
    ensures { Leaves result blocks.new (option_and_then (λ t. leaves_by (types_of t) blocks.old) (label n blocks.old)) }
{
    let Some(t) = blocks.label(n) else {
        return Err(Fault::Invalid);
    };
    leave_by(blocks, t)
}

pub fn br_if(blocks: &mut Blocks, n: u32) -> Result<(), Fault>
    ensures { Leaves result blocks.new (option_and_then (λ t. arrow (I32 ∷ types_of t) (types_of t) blocks.old) (label n blocks.old)) }
{
    let Some(t) = blocks.label(n) else {
        return Err(Fault::Invalid);
    };
    pop(blocks, ValType::I32)?;
    pop_type(blocks, t)?;
    push_type(blocks, t)
}

fn is_label(blocks: &Blocks, n: u32, t: Option<ValType>) -> bool
    ensures { result ≡ is_label t (label n blocks.now) }
{
    match blocks.label(n) {
        Some(s) => same_type(s, t),
        None => false,
    }
}

fn all_labels(blocks: &Blocks, labels: &[u32], t: Option<ValType>) -> bool
    ensures { result ≡ all_labels t labels.now blocks.now }
{
    for n in labels {
        if !is_label(blocks, *n, t) {
            return false;
        }
    }
    true
}

pub fn br_table(blocks: &mut Blocks, labels: &[u32], n: u32) -> Result<(), Fault>
    ensures { Leaves result blocks.new (option_and_then (λ t. cond (all_labels t labels.now blocks.old) (leaves_by (I32 ∷ types_of t) blocks.old) None) (label n blocks.old)) }
{
    let Some(t) = blocks.label(n) else {
        return Err(Fault::Invalid);
    };
    if !all_labels(blocks, labels, t) {
        return Err(Fault::Invalid);
    }
    pop(blocks, ValType::I32)?;
    leave_by(blocks, t)
}

fn close(blocks: &mut Blocks) -> Result<(Kind, Option<ValType>), Fault>
    ensures { Gives result blocks.new (close blocks.old) }
{
    let ends = blocks.ends();
    pop_type(blocks, ends)?;
    blocks.shut()
}

pub fn open_if(blocks: &mut Blocks, t: Option<ValType>) -> Result<(), Fault>
    ensures { Leaves result blocks.new (option_map (opened Choice t) (pop I32 blocks.old)) }
{
    pop(blocks, ValType::I32)?;
    blocks.open(Kind::Choice, t)
}

/// The other side of an if.
pub fn other(blocks: &mut Blocks) -> Result<(), Fault>
    ensures { Leaves result blocks.new (option_and_then other_side (close blocks.old)) }
{
    let (kind, ends) = close(blocks)?;
    match kind {
        Kind::Choice => blocks.open(Kind::Body, ends),
        Kind::Body | Kind::Again => Err(Fault::Invalid),
    }
}

pub fn end(blocks: &mut Blocks) -> Result<(), Fault>
    ensures { Leaves result blocks.new (option_and_then ended (close blocks.old)) }
{
    let (kind, ends) = close(blocks)?;
    match kind {
        Kind::Choice => match ends {
            None => Ok(()),
            Some(_) => Err(Fault::Invalid),
        },
        Kind::Body | Kind::Again => push_type(blocks, ends),
    }
}
