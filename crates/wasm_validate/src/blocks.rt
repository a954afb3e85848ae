//! The control stack and the operand stack.

ghost use Rattle.std.specs.Prelude.{◌≡◌, [], ◌∷◌, length, Some, None, IsTrue, ◌↔◌, option_map, slice_get};
ghost use Rattle.wasm_validate.specs.Frames.{push, pop_any, dead, opened, closed, label_of, ends_of};
ghost use Rattle.wasm_validate.specs.Gives.{Gives, Leaves};

use crate::fault::Fault;
use crate::kind::{Control, Kind};
use crate::stack::Stack;
use faaslet_meaning::ValType;
use std::alloc::Global;
use std::marker::Model;

/// The blocks that are open, innermost first, with their operands.
#[derive(Debug, Drop)]
pub struct Blocks {
    controls: Stack<Control>,
    operands: Stack<Option<ValType>>,
}

impl Model for Blocks {
    ghost use Rattle.std.specs.Prelude.{List, length};
    ghost use Rattle.wasm_validate.specs.Frames.{Frame};

    ghost Value = { List Frame };

    ghost use Rattle.wasm_validate.specs.Views.{frames, Rises};

    ghost view = { λ b. frames b.controls b.operands };

    ghost invariant = { λ b. Rises b.controls (length b.operands) };
}

impl Blocks {
    pub fn new(alloc: Global) -> Blocks
        ensures { result ≡ [] }
    {
        Blocks {
            controls: Stack::new(alloc),
            operands: Stack::new(alloc),
        }
    }

    pub fn is_closed(&self) -> bool
        ensures { IsTrue result ↔ (self.now ≡ []) }
    {
        self.controls.len() == 0
    }

    pub fn push(&mut self, operand: Option<ValType>) -> Result<(), Fault>
        ensures { Leaves result self.new (Some (push operand self.old)) }
    {
        self.operands.push(operand)?;
        Ok(())
    }

    pub fn open(&mut self, kind: Kind, ends: Option<ValType>) -> Result<(), Fault>
        ensures { Leaves result self.new (Some (opened kind ends self.old)) }
    {
        let height = self.operands.len();
        self.controls.push(Control {
            kind,
            ends,
            height,
            unreachable: false,
        })?;
        Ok(())
    }

    /// Whether the innermost block can't be reached and has no operands, so that any may be taken.
    pub fn is_bare(&self) -> bool
        ensures { IsTrue result → pop_any self.now ≡ Some (None, self.now) }
    {
        match self.controls.get(0) {
            Some(control) => control.unreachable && self.operands.len() == control.height,
            None => false,
        }
    }

    pub fn pop_any(&mut self) -> Result<Option<ValType>, Fault>
        ensures { Gives result self.new (pop_any self.old) }
    {
        match self.controls.get(0) {
            Some(control) => {
                if self.operands.len() == control.height {
                    if control.unreachable {
                        return Ok(None);
                    }
                    return Err(Fault::Invalid);
                }
                match self.operands.pop() {
                    Some(operand) => return Ok(operand),
                    None => return Err(Fault::Invalid),
                }
            }
            None => Err(Fault::Invalid),
        }
    }

    /// Leaves the innermost block, which has no operands.
    pub fn shut(&mut self) -> Result<(Kind, Option<ValType>), Fault>
        ensures { Gives result self.new (closed self.old) }
    {
        match self.controls.get(0) {
            Some(control) => {
                if self.operands.len() != control.height {
                    return Err(Fault::Invalid);
                }
                match self.controls.pop() {
                    Some(_) => {}
                    None => {}
                }
                Ok((control.kind, control.ends))
            }
            None => Err(Fault::Invalid),
        }
    }

    /// The results of the innermost block.
    pub fn ends(&self) -> Option<ValType>
        ensures { result ≡ ends_of self.now }
    {
        match self.controls.get(0) {
            Some(control) => control.ends,
            None => None,
        }
    }

    /// The rest of the block can't be reached.
    pub fn die(&mut self)
        ensures { self.new ≡ dead self.old }
    {
        if let Some(control) = self.controls.get(0) {
            self.operands.cut(control.height);
            self.controls.replace(Control {
                unreachable: true,
                ..control
            });
        }
    }

    /// What a branch to the nth block carries.
    pub fn label(&self, n: u32) -> Option<Option<ValType>>
        ensures { result ≡ option_map label_of (slice_get self.now n) }
    {
        match self.controls.get(n as usize) {
            Some(control) => match control.kind {
                Kind::Again => Some(None),
                Kind::Body | Kind::Choice => Some(control.ends),
            },
            None => None,
        }
    }
}
