//! What is open at a place of a flat list of instructions.

ghost use Rattle.std.specs.Prelude.{◌≡◌, [], ◌∷◌, IfOk, OnOk, IsErrOf, reverse, IsTrue, ◌↔◌, Some, None, true, false};
ghost use Rattle.faaslet_meaning.specs.Nesting.{step};

use crate::fault::BodyFault;
use faaslet_meaning::Instr;
use std::alloc::{AllocError, Global};
use std::marker::Model;

/// What is open, the innermost first: true is an if whose else may still come.
#[derive(Drop)]
pub struct Open {
    stack: Vec<bool>,
}

impl Model for Open {
    ghost use Rattle.std.specs.Prelude.{List, Bool, reverse};

    ghost Value = { List Bool };

    ghost view = { λ o. reverse o.stack.items };
}

/// Goes over one instruction, where so much is open, the innermost last.
#[tactic(auto, using(crate::proofs::Stack::open_steps))]
fn step_over(stack: &mut Vec<bool>, instr: &Instr) -> Result<(), BodyFault>
    ensures kept { OnOk result (step (reverse stack.old.items) instr.now ≡ Some (reverse stack.new.items)) }
    ensures malformed { IsErrOf result BodyFault.Malformed → step (reverse stack.old.items) instr.now ≡ None }
{
    let Some(may_else) = stack.pop() else {
        return Err(BodyFault::Malformed);
    };
    match instr {
        Instr::Block(_) | Instr::Loop(_) => {
            stack.push(may_else)?;
            stack.push(false)?;
        }
        Instr::If(_) => {
            stack.push(may_else)?;
            stack.push(true)?;
        }
        Instr::Else => {
            if !may_else {
                return Err(BodyFault::Malformed);
            }
            stack.push(false)?;
        }
        Instr::End => {}
        _ => stack.push(may_else)?,
    }
    Ok(())
}

impl Open {
    /// At the start of an expression.
    #[tactic(auto, using(crate::proofs::Stack::open_steps))]
    pub fn new(alloc: Global) -> Result<Open, AllocError>
        ensures { IfOk result (λ o. o ≡ false ∷ []) }
    {
        let mut stack = Vec::new(alloc);
        stack.push(false)?;
        Ok(Open { stack })
    }

    /// Whether the expression has ended.
    #[tactic(auto, using(crate::proofs::Stack::open_steps))]
    pub fn is_closed(&self) -> bool
        ensures { IsTrue result ↔ (self.now ≡ []) }
    {
        self.stack.is_empty()
    }

    /// Goes over one instruction, which has to be one that may stand here.
    pub fn step(&mut self, instr: &Instr) -> Result<(), BodyFault>
        ensures kept { OnOk result (step self.old instr.now ≡ Some self.new) }
        ensures malformed { IsErrOf result BodyFault.Malformed → step self.old instr.now ≡ None }
    {
        step_over(&mut self.stack, instr)
    }
}
