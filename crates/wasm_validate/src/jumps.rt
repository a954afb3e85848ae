//! Where the places of a body lead, found from its end in one pass.

ghost use Rattle.std.specs.Prelude.{◌≡◌, ℕ, List, ◌∷◌, ◌+◌, ◌<◌, ◌^◌, drop, IfOk, OnOk};
ghost use Rattle.faaslet_meaning.specs.declared.instr.Instr.{Instr};
ghost use Rattle.faaslet_meaning.specs.Parse.{parts};
ghost use Rattle.wasm_validate.specs.Jumps.{JumpFits, JumpsFit, OpensStand, TablesFit};

use crate::stack::Stack;
use faaslet_meaning::{Body, Instr, Items};
use std::alloc::{AllocError, Global};

/// Where the innermost block that is open behind an instruction leads: `after` is the place behind
/// its `end`, and `other` that of its other side, or of its `end` where it has none. A place is the
/// number of an instruction in its body. Nothing is said where no block is open.
#[derive(Clone, Copy, Debug, PartialEq, Eq)]
pub struct Jump {
    pub after: usize,
    pub other: usize,
}

/// A jump for each instruction of a body.
pub type Jumps = Items<Jump>;

/// The jump at a place behind which these blocks are open.
fn jump_of(opens: &Stack<Jump>) -> Jump
    ensures { (code : List Instr) (place : ℕ) → OpensStand code opens.now (parts (drop (place + 1) code)) → JumpFits code place result }
{
    match opens.get(0) {
        Some(jump) => jump,
        None => Jump { after: 0, other: 0 },
    }
}

/// Passes one instruction, towards the beginning.
fn pass(opens: &mut Stack<Jump>, place: usize, instr: &Instr) -> Result<(), AllocError>
    requires { place + 1 < 2 ^ 64 }
    ensures { OnOk result ((code : List Instr) → drop place code ≡ instr.now ∷ drop (place + 1) code → OpensStand code opens.old (parts (drop (place + 1) code)) → OpensStand code opens.new (parts (drop place code))) }
{
    match instr {
        Instr::End => {
            opens.push(Jump {
                after: place + 1,
                other: place,
            })?;
            Ok(())
        }
        Instr::Else => match opens.pop() {
            Some(jump) => {
                opens.push(Jump {
                    after: jump.after,
                    other: place + 1,
                })?;
                Ok(())
            }
            None => Ok(()),
        },
        Instr::Block(_) | Instr::Loop(_) | Instr::If(_) => {
            opens.pop();
            Ok(())
        }
        _ => Ok(()),
    }
}

/// A jump for each instruction of the code.
fn jumps_of(alloc: Global, code: &[Instr]) -> Result<Jumps, AllocError>
    ensures { IfOk result (JumpsFit code.now) }
{
    let mut jumps = vec![in alloc; Jump { after: 0, other: 0 }; code.len()]?;
    let mut opens = Stack::new(alloc);
    let mut place = code.len();
    'places: while place > 0 {
        place -= 1;
        jumps[place] = jump_of(&opens);
        pass(&mut opens, place, &code[place])?;
    }
    Ok(Items::of(jumps))
}

/// The jumps of each body.
pub fn tables_of(alloc: Global, bodies: &[Body]) -> Result<Vec<Jumps>, AllocError>
    ensures { IfOk result (λ tables. TablesFit bodies.now tables.items) }
{
    let mut tables = Vec::new(alloc);
    for body in bodies {
        tables.push(jumps_of(alloc, body.code.as_slice())?)?;
    }
    Ok(tables)
}
