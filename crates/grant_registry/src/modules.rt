//! The modules of functions.

ghost use Rattle.std.specs.Prelude.{◌≡◌, ◌<◌, None, OnOk, OnErr, IfErr, IfNone, IfSome, length};
ghost use Rattle.faaslet_meaning.specs.Decoding.{first_passed};
ghost use Rattle.faaslet_meaning.specs.Runnable.{Runnable};
ghost use Rattle.faaslet_meaning.specs.Valid.{Valid};
ghost use Rattle.session_meaning.specs.Draft as draft;
ghost use Rattle.grant_registry.specs.Refuses.{IsUnfitFor};

use crate::registry::Registry;
use function_rules::{Unfit, fits};
use session_meaning::RegFault;
use wasm_validate::ValidModule;

/// Why a function may not have the module, if it may not.
fn reason_against(module: &ValidModule) -> Option<RegFault>
    ensures valid { Valid «module».now }
    ensures fits { IfNone result (Runnable «module».now) }
    ensures unfit { IfSome result (λ e. IsUnfitFor e «module».now) }
{
    // It is valid, as the call ensures.
    let _ = module.module();
    match fits(module) {
        Ok(()) => None,
        Err(Unfit::BadImport(k)) => Some(RegFault::BadImport(k)),
        Err(Unfit::NoMain) => Some(RegFault::NoMain),
        Err(Unfit::BadInit) => Some(RegFault::BadInit),
    }
}

impl Registry {
    /// Gives a function its module, in place of one that it may have. Where it may not have it the module comes
    /// back. Takes no memory.
    pub fn set_module(&mut self, f: u32, module: ValidModule) -> Result<(), (RegFault, ValidModule)>
        requires exists { f < length self.old.functions }
        requires decodes { first_passed «module» ≡ None }
        ensures ok { OnOk result (self.new ≡ draft.with_module self.old f «module») }
        ensures runnable { OnOk result (Runnable «module») }
        ensures refused { IfErr result (λ e. IsUnfitFor e.0 «module») }
        ensures returned { IfErr result (λ e. e.1 ≡ «module») }
        ensures unchanged { OnErr result (self.new ≡ self.old) }
        ensures functions { length self.new.functions ≡ length self.old.functions }
    {
        match reason_against(&module) {
            Some(fault) => Err((fault, module)),
            None => {
                self.put_module(f, module);
                Ok(())
            }
        }
    }
}
