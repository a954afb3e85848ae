//! Operands taken and left.

ghost use Rattle.std.specs.Prelude.{◌≡◌, [], ◌∷◌, Some, reverse};
ghost use Rattle.faaslet_meaning.specs.Tree.{types_of};
ghost use Rattle.wasm_validate.specs.Frames.{same, push_type, pop, pops};
ghost use Rattle.wasm_validate.specs.Gives.{Leaves};
ghost use Rattle.wasm_validate.specs.Steps.{arrow, pushes};

use crate::blocks::Blocks;
use crate::fault::Fault;
use faaslet_meaning::ValType;

pub fn same(s: ValType, t: ValType) -> bool
    ensures { result ≡ same s t }
{
    s == t
}

pub fn pop(blocks: &mut Blocks, t: ValType) -> Result<(), Fault>
    ensures { Leaves result blocks.new (pop t blocks.old) }
{
    match blocks.pop_any()? {
        None => Ok(()),
        Some(s) => {
            if same(s, t) {
                Ok(())
            } else {
                Err(Fault::Invalid)
            }
        }
    }
}

pub fn pop_type(blocks: &mut Blocks, t: Option<ValType>) -> Result<(), Fault>
    ensures { Leaves result blocks.new (pops (types_of t) blocks.old) }
{
    match t {
        None => Ok(()),
        Some(t) => pop(blocks, t),
    }
}

pub fn push_type(blocks: &mut Blocks, t: Option<ValType>) -> Result<(), Fault>
    ensures { Leaves result blocks.new (Some (push_type t blocks.old)) }
{
    match t {
        None => Ok(()),
        Some(t) => blocks.push(Some(t)),
    }
}

/// Takes operands of these types, the last one topmost. It stops where any may be taken, so that the
/// time of a body does not grow with the parameters of calls that can't be reached.
pub fn pop_all(blocks: &mut Blocks, types: &[ValType]) -> Result<(), Fault>
    ensures { Leaves result blocks.new (pops (reverse types.now) blocks.old) }
{
    let mut left = types.len();
    'types: while left > 0 {
        if blocks.is_bare() {
            return Ok(());
        }
        left -= 1;
        match pop(blocks, types[left]) {
            Ok(()) => {}
            Err(fault) => return Err(fault),
        }
    }
    Ok(())
}

/// Leaves operands of these types, the first one topmost.
pub fn push_all(blocks: &mut Blocks, types: &[ValType]) -> Result<(), Fault>
    ensures { Leaves result blocks.new (Some (pushes types.now blocks.old)) }
{
    let mut left = types.len();
    'types: while left > 0 {
        left -= 1;
        match blocks.push(Some(types[left])) {
            Ok(()) => {}
            Err(fault) => return Err(fault),
        }
    }
    Ok(())
}

/// Takes one operand and leaves one.
pub fn unary(blocks: &mut Blocks, t: ValType, u: ValType) -> Result<(), Fault>
    ensures { Leaves result blocks.new (arrow (t ∷ []) (u ∷ []) blocks.old) }
{
    pop(blocks, t)?;
    blocks.push(Some(u))
}
