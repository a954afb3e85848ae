//! The typing of one body.

ghost use Rattle.std.specs.Prelude.{IfOk};
ghost use Rattle.std.specs.Result.{IsErrOf};
ghost use Rattle.faaslet_meaning.specs.Typing.{IsTyped};
ghost use Rattle.wasm_validate.specs.Admits.{of_body};
ghost use Rattle.wasm_validate.specs.declared.fault.Fault.TheVariants as faults;

use crate::blocks::Blocks;
use crate::fault::Fault;
use crate::instrs::run;
use crate::kind::Kind;
use crate::scope::Scope;
use faaslet_meaning::Instr;
use std::alloc::Global;

/// Whether the body is typed.
pub fn validate_body(alloc: Global, scope: &Scope, code: &[Instr]) -> Result<(), Fault>
    ensures typed { IfOk result (λ _. IsTyped (of_body scope.now) code.now) }
    ensures untyped { IsErrOf result faults.Invalid → IsTyped (of_body scope.now) code.now → ⊥ }
{
    let mut blocks = Blocks::new(alloc);
    blocks.open(Kind::Body, scope.leaves())?;
    match run(scope, code, &mut blocks) {
        Ok(()) => {
            if blocks.is_closed() {
                Ok(())
            } else {
                Err(Fault::Invalid)
            }
        }
        Err(fault) => Err(fault),
    }
}
