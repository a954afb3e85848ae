//! Whether a function may have a module.

ghost use Rattle.std.specs.Prelude.{◌↔◌, IsTrue, IfOk, IfErr};
ghost use Rattle.faaslet_meaning.specs.Runnable.{HostImports, MainFits, InitFits, Runnable, IsUnfit};
ghost use Rattle.function_rules.specs.Reasons.{reason_of};

use crate::exports::{exports_own, is_named};
use crate::imports::first_bad_import;
use crate::signature::Signature;
use faaslet_meaning::{Module, ValType};
use wasm_validate::ValidModule;

const MAIN: Signature = Signature {
    params: 0,
    result: Some(ValType::I32),
};

const INIT: Signature = Signature {
    params: 0,
    result: None,
};

/// Why a function may not have a module.
#[derive(Clone, Copy, Debug, PartialEq, Eq)]
pub enum Unfit {
    /// This import is the first that is no host call.
    BadImport(u32),
    /// It exports no function `main` of its own from nothing to an i32.
    NoMain,
    /// What it exports as `init` is no function of its own from nothing to nothing.
    BadInit,
}

fn main_fits(module: &Module) -> bool
    requires { HostImports «module».now }
    ensures { IsTrue result ↔ MainFits «module».now }
{
    exports_own(module, b"main", MAIN)
}

fn init_fits(module: &Module) -> bool
    requires { HostImports «module».now }
    ensures { IsTrue result ↔ InitFits «module».now }
{
    !is_named(module, b"init") || exports_own(module, b"init", INIT)
}

/// Whether a function may have the module, or else the first reason against it. Takes no memory.
pub fn fits(module: &ValidModule) -> Result<(), Unfit>
    ensures fits { IfOk result (λ _. Runnable «module».now) }
    ensures refuses { IfErr result (λ u. IsUnfit (reason_of u) «module».now) }
{
    let module = module.module();
    if let Some(k) = first_bad_import(module) {
        return Err(Unfit::BadImport(k as u32));
    }
    if !main_fits(module) {
        return Err(Unfit::NoMain);
    }
    if !init_fits(module) {
        return Err(Unfit::BadInit);
    }
    Ok(())
}
