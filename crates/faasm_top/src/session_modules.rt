//! The modules of a session's functions, which are read in their order.

ghost use Rattle.std.specs.Prelude.{◌≡◌, ◌+◌, ◌<◌, ◌≤◌, [], None, Some, IsSome, IsTrue, IfOk, IfErr, OnOk, length};
ghost use Rattle.std.specs.String.{string_bytes};
ghost use Rattle.faaslet_meaning.specs.Decoding.{module_limit};
ghost use Rattle.faaslet_meaning.specs.Runnable.{IsUnfit};
ghost use Rattle.function_rules.specs.Reasons.{reason_of};
ghost use Rattle.grant_registry.specs.Refuses.{IsUnfitFor};
ghost use Rattle.session_meaning.specs.SessionLimits.{modules_limit};
ghost use Rattle.session_meaning.specs.WellFormed.{WellFormedDraft, function_names};
ghost use Rattle.faaslet_meaning.specs.declared.module.Module.{Module};
ghost use Rattle.faasm_top.specs.Commands.{texts};
ghost use Rattle.faasm_top.specs.ModuleFiles.{IsUnusable};
ghost use Rattle.faasm_top.specs.Sessions.{GetModules, GivesFile, GivesModule, IsFunctionLine, IsOver, TakesFile, RefusesBytes, RefusesFile, ModulesCome, StopsBy};

use crate::module_files::{MODULE_LIMIT, read_valid};
use crate::refusals::unfit;
use crate::report::Report;
use crate::session_lines::{function_line, modules_line};
use crate::stop::Stop;
use fa_outside::{ReadFault, Shelf, read_file};
use function_rules::Unfit;
use grant_registry::Registry;
use session_meaning::RegFault;
use std::alloc::{AllocError, Global};

/// The bytes of all module files of a session.
const MODULES_LIMIT: usize = 16_777_216;

/// The rule of a function's module that does not hold.
fn unfit_of(fault: RegFault) -> Unfit
    requires { (m : Module) × IsUnfitFor fault m }
    ensures { (m : Module) → IsUnfitFor fault m → IsUnfit (reason_of result) m }
{
    match fault {
        RegFault::BadImport(k) => Unfit::BadImport(k),
        RegFault::NoMain => Unfit::NoMain,
        RegFault::BadInit => Unfit::BadInit,
        _ => unreachable!(),
    }
}

/// Gives a function the module in these bytes, or tells the first reason against it.
fn give_module(
    alloc: Global,
    registry: &mut Registry,
    f: u32,
    bytes: &[u8],
) -> Result<Result<(), Report>, AllocError>
    requires { f < length registry.old.functions }
    ensures given { IfOk result (λ r. OnOk r (GivesModule bytes.now f registry.old registry.new)) }
    ensures refused { IfOk result (λ r. IfErr r (λ x. IsUnusable bytes.now (string_bytes x.line))) }
    ensures names { function_names registry.new ≡ function_names registry.old }
    ensures functions { length registry.new.functions ≡ length registry.old.functions }
{
    let module = match read_valid(alloc, bytes)? {
        Ok(module) => module,
        Err(report) => return Ok(Err(report)),
    };
    match registry.set_module(f, module) {
        Ok(()) => Ok(Ok(())),
        Err((fault, _)) => Ok(Err(unfit(alloc, unfit_of(fault))?)),
    }
}

/// A refusal, with the name of the function before it.
fn named_line(
    alloc: Global,
    registry: &Registry,
    f: u32,
    refusal: &str,
) -> Result<String, AllocError>
    requires { f < length registry.now.functions }
    ensures { IfOk result (λ l. IsFunctionLine (function_names registry.now) f refusal.now (string_bytes l)) }
{
    let plan = registry.function_plan(f);
    let line = function_line(alloc, plan.name, refusal)?;
    Ok(line)
}

/// Gives a function the module in these bytes, behind so many bytes of other modules, or tells the
/// line that refuses it.
fn take_bytes(
    alloc: Global,
    registry: &mut Registry,
    f: u32,
    before: usize,
    bytes: &[u8],
) -> Result<Result<(), String>, AllocError>
    requires exists { f < length registry.old.functions }
    requires few { before ≤ modules_limit }
    requires short { length bytes.now ≤ module_limit }
    ensures not_over { IfOk result (λ r. OnOk r (before + length bytes.now ≤ modules_limit)) }
    ensures given { IfOk result (λ r. OnOk r (GivesModule bytes.now f registry.old registry.new)) }
    ensures refused { IfOk result (λ r. IfErr r (λ l.
        RefusesBytes (function_names registry.old) f before bytes.now (string_bytes l))) }
    ensures names { function_names registry.new ≡ function_names registry.old }
    ensures functions { length registry.new.functions ≡ length registry.old.functions }
{
    if MODULES_LIMIT - before < bytes.len() {
        return Ok(Err(modules_line(alloc, f)?));
    }
    match give_module(alloc, registry, f, bytes)? {
        Ok(()) => Ok(Ok(())),
        Err(report) => {
            let line = named_line(alloc, registry, f, report.line.as_str())?;
            Ok(Err(line))
        }
    }
}

/// Reads the module of a function and gives it to the function, behind so many bytes of other
/// modules, and answers how many bytes it has.
fn take_module<F: Shelf>(
    alloc: Global,
    shelf: &mut F,
    registry: &mut Registry,
    f: u32,
    before: usize,
    path: &str,
) -> Result<usize, Stop>
    requires exists { f < length registry.old.functions }
    requires few { before ≤ modules_limit }
    ensures taken { IfOk result (λ n. TakesFile (F.told shelf.old) before path.now n) }
    ensures given { OnOk result (GivesFile (F.told shelf.old) path.now f registry.old registry.new) }
    ensures few { IfOk result (λ n. before + n ≤ modules_limit) }
    ensures open { OnOk result (IsTrue (F.is_open shelf.new)) }
    ensures ended { OnOk result (IsSome (F.told shelf.old) → F.rest shelf.new ≡ []) }
    ensures stopped { IfErr result (λ e. StopsBy e (F.faults shelf.old) (F.faults shelf.new) (F.is_open shelf.new)
        (λ line. RefusesFile (F.told shelf.old) (function_names registry.old) f before path.now line)) }
    ensures names { function_names registry.new ≡ function_names registry.old }
    ensures functions { length registry.new.functions ≡ length registry.old.functions }
    ensures told { F.told shelf.new ≡ F.told shelf.old }
    ensures counted { F.faults shelf.old ≤ F.faults shelf.new }
{
    let bytes = match read_file(alloc, shelf, path, MODULE_LIMIT) {
        Ok(bytes) => bytes,
        Err(ReadFault::Failed) => return Err(Stop::Unreadable),
        Err(ReadFault::TooLong) => {
            let line = named_line(alloc, registry, f, "too long\n")?;
            return Err(Stop::Refused(line));
        }
        Err(ReadFault::Want) => return Err(Stop::Want),
    };
    match take_bytes(alloc, registry, f, before, &bytes)? {
        Ok(()) => Ok(bytes.len()),
        Err(line) => Err(Stop::Refused(line)),
    }
}

/// Reads the module of each function from its file, in the order of functions, and gives it to the
/// function. The shelf has a file open, which is read to its end.
pub fn take_modules<F: Shelf>(
    alloc: Global,
    shelf: &mut F,
    registry: &mut Registry,
    paths: &[String],
) -> Result<(), Stop>
    requires each { length paths.now ≡ length registry.old.functions }
    requires formed { WellFormedDraft registry.old }
    requires open { IsTrue (F.is_open shelf.old) }
    requires ended { IsSome (F.told shelf.old) → F.rest shelf.old ≡ [] }
    ensures taken { OnOk result
        (ModulesCome (F.told shelf.old) (function_names registry.old) 0 0 (texts paths.now) None) }
    ensures given { OnOk result
        (GetModules (F.told shelf.old) (texts paths.now) registry.old.functions registry.new.functions) }
    ensures rest { OnOk result (registry.new ≡ record registry.old { functions = registry.new.functions }) }
    ensures formed { OnOk result (WellFormedDraft registry.new) }
    ensures open { OnOk result (IsTrue (F.is_open shelf.new)) }
    ensures ended { OnOk result (IsSome (F.told shelf.old) → F.rest shelf.new ≡ []) }
    ensures stopped { IfErr result (λ e. StopsBy e (F.faults shelf.old) (F.faults shelf.new) (F.is_open shelf.new)
        (λ line. ModulesCome (F.told shelf.old) (function_names registry.old) 0 0 (texts paths.now) (Some line))) }
    ensures told { F.told shelf.new ≡ F.told shelf.old }
    ensures counted { F.faults shelf.old ≤ F.faults shelf.new }
{
    let mut before = 0;
    'functions: for f in 0..registry.functions() {
        let path = paths[f as usize].as_str();
        before += take_module(alloc, shelf, registry, f, before, path)?;
    }
    Ok(())
}
