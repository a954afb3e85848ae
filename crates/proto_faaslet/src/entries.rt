//! Entries into an instance: the start function and `init`.

ghost use Rattle.std.specs.Prelude.{◌≡◌, ℕ, List, [], Option, None, Some, IfOk, IfErr};
ghost use Rattle.faaslet_meaning.specs.declared.grant.Grant.{Grant};
ghost use Rattle.faaslet_meaning.specs.declared.module.Module.{Module};
ghost use Rattle.faaslet_meaning.specs.Configuration.{Configuration, Next, goes};
ghost use Rattle.faaslet_meaning.specs.Decoding.{first_passed};
ghost use Rattle.faaslet_meaning.specs.Fresh.{Function, through};
ghost use Rattle.faaslet_meaning.specs.Runnable.{HostImports, Runnable};
ghost use Rattle.proto_faaslet.specs.Entries.{
  CanEnter,
  IsKept,
  IsFor,
  Passes,
  begun,
  initialized,
  IsInitialized,
  fault_of,
  IsAlone,
  HasRoom,
};
ghost use Rattle.proto_faaslet.specs.Instances.{store_of, IsFault};
ghost use Rattle.wasm_interp.specs.Grants.{grants_of};
ghost use Rattle.wasm_interp.specs.Rooms.{SameRooms};
ghost use Rattle.wasm_interp.specs.StandsFor.{StandsFor, Ran, config_of};

use crate::fault::BuildFault;
use crate::instantiation::Instance;
use faaslet_meaning::{Broken, Items, Linear, Outcome};
use function_rules::export_of;
use std::alloc::{AllocError, Global};
use wasm_interp::{Event, Machine};
use wasm_validate::ValidModule;

/// How the end of an entry breaks the function; a host call breaks it too.
fn fault_of(event: Event) -> Option<Broken>
    requires { IsAlone event }
    ensures { result ≡ fault_of event }
{
    match event {
        Event::Ended(Outcome::Done(_)) => None,
        Event::Ended(Outcome::Trap(trap)) => Some(Broken::Trap(trap)),
        Event::Ended(Outcome::FuelOut) => Some(Broken::Fuel),
        Event::Host(_) => Some(Broken::HostCall),
        _ => unreachable!(),
    }
}

/// Runs a function of the module to its end, or to a host call.
fn run_entry<'m, M: Linear>(
    machine: &mut Machine<'m, M>,
    module: &'m ValidModule,
    kept: &Instance,
    entry: u32,
    fuel: u64,
) -> Event
    requires imports { HostImports «module».now }
    requires kept { IsKept «module».now (M.memory machine.old.memory).quota (store_of kept.now (M.memory machine.old.memory)) }
    requires room { HasRoom machine.old «module».now }
    requires entry { CanEnter «module».now entry }
    ensures ran { (e : CanEnter «module».now entry) → Ran M.memory machine.new «module».now (grants_of machine.old.writable) fuel
        (goes (begun e (store_of kept.now (M.memory machine.old.memory)) fuel)) result }
    ensures own { IsAlone result }
    ensures rooms { SameRooms machine.old.thread machine.new.thread }
{
    machine.begin(
        module,
        kept.globals.as_slice(),
        kept.table.as_slice(),
        entry,
        fuel,
    );
    machine.run()
}

/// The globals and the table as a machine has them.
fn kept_by<M: Linear>(alloc: Global, machine: &Machine<'_, M>) -> Result<Instance, AllocError>
    ensures { IfOk result (λ i. (code : Module) (grants : List Grant) (given : ℕ) (n : Next) (c : Configuration)
        → StandsFor M.memory machine.now code grants given n → config_of n ≡ Some c
        → (i.globals ≡ c.globals) × (i.table ≡ c.table)) }
{
    let globals = Vec::from_slice(alloc, machine.globals())?;
    let table = Vec::from_slice(alloc, machine.table())?;
    Ok(Instance {
        globals: Items::of(globals),
        table: Items::of(table),
    })
}

/// What the start function or `init` leaves, with the whole fuel, or how it breaks the function.
pub fn pass<'m, M: Linear>(
    alloc: Global,
    machine: &mut Machine<'m, M>,
    module: &'m ValidModule,
    kept: Instance,
    entry: Option<u32>,
    fuel: u64,
) -> Result<Instance, BuildFault>
    requires imports { HostImports «module».now }
    requires kept { IsKept «module».now (M.memory machine.old.memory).quota (store_of kept (M.memory machine.old.memory)) }
    requires room { HasRoom machine.old «module».now }
    requires entry { (k : ℕ) → entry ≡ Some k → CanEnter «module».now k }
    ensures passed { IfOk result (λ i. Passes «module».now (M.memory machine.old.memory).quota fuel entry
        (store_of kept (M.memory machine.old.memory)) (store_of i (M.memory machine.new.memory))) }
    ensures broken { IfErr result (λ e. (f : Function) → IsFor f «module».now (M.memory machine.old.memory).quota fuel
        → IsFault e (through f entry (store_of kept (M.memory machine.old.memory)))) }
    ensures rooms { SameRooms machine.old.thread machine.new.thread }
{
    let Some(entry) = entry else {
        return Ok(kept);
    };
    let event = run_entry(machine, module, &kept, entry, fuel);
    match fault_of(event) {
        Some(kind) => Err(BuildFault::Broken(kind)),
        None => Ok(kept_by(alloc, machine)?),
    }
}

/// What the start function and then `init` leave, each with the whole fuel, or how they break the function.
pub fn initialize<'m, M: Linear>(
    alloc: Global,
    machine: &mut Machine<'m, M>,
    module: &'m ValidModule,
    kept: Instance,
    fuel: u64,
) -> Result<Instance, BuildFault>
    requires runnable { Runnable «module».now }
    requires limits { first_passed «module».now ≡ None }
    requires kept { IsKept «module».now (M.memory machine.old.memory).quota (store_of kept (M.memory machine.old.memory)) }
    requires room { HasRoom machine.old «module».now }
    ensures done { IfOk result (λ i. IsInitialized «module».now (M.memory machine.old.memory).quota fuel
        (store_of kept (M.memory machine.old.memory)) (store_of i (M.memory machine.new.memory))) }
    ensures broken { IfErr result (λ e. (f : Function) → IsFor f «module».now (M.memory machine.old.memory).quota fuel
        → IsFault e (initialized f (store_of kept (M.memory machine.old.memory)))) }
{
    let start = module.module().start;
    let kept = pass(alloc, machine, module, kept, start, fuel)?;
    let init = export_of(module.module(), b"init");
    pass(alloc, machine, module, kept, init, fuel)
}
