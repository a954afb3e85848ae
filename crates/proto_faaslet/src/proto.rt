//! Snapshots.

ghost use Rattle.std.specs.Prelude.{◌≡◌, ◌+◌, ◌≤◌, None, Some, IfOk, IfErr, length};
ghost use Rattle.faaslet_meaning.specs.Decoding.{first_passed};
ghost use Rattle.faaslet_meaning.specs.Fresh.{Function, fresh};
ghost use Rattle.faaslet_meaning.specs.IndexSpaces as spaces;
ghost use Rattle.faaslet_meaning.specs.Memory.{page_limit};
ghost use Rattle.faaslet_meaning.specs.Program.{table_size};
ghost use Rattle.faaslet_meaning.specs.Runnable.{HostImports, Runnable};
ghost use Rattle.proto_faaslet.specs.Entries.{HasRoom, IsFor, IsKept};
ghost use Rattle.proto_faaslet.specs.Instances.{IsFault, no_pages, store_of};
ghost use Rattle.proto_faaslet.specs.Snapshots.{IsSnapshotOf, IsRestored, Keeps, image_memory};

use crate::entries::initialize;
use crate::fault::BuildFault;
use crate::image::image_of;
use crate::instantiation::{Instance, elements_of, instantiate};
use function_rules::export_of;
use region_map::{Image, PrivatePages, SegmentedMemory};
use std::alloc::{AllocError, Global};
use std::marker::Model;
use wasm_interp::{Machine, Room};
use wasm_validate::ValidModule;

/// A function's module with what it keeps where it is about to run `main`: its globals, its table and
/// the whole content of its memory.
#[derive(Drop)]
pub struct Proto<'s> {
    module: &'s ValidModule,
    quota: u32,
    kept: Instance,
    pub(crate) image: Image,
    main: u32,
}

impl<'s> Model for Proto<'s> {
    ghost use Rattle.proto_faaslet.specs.Snapshots.{Snapshot, snapshot_in, IsSnapshot};

    ghost Value = { Snapshot };

    ghost view = { snapshot_in };

    ghost invariant = { λ p. IsSnapshot (snapshot_in p) };
}

/// How much room a machine needs for the module.
pub fn room_of(module: &ValidModule) -> Room
    requires imports { HostImports «module».now }
    requires limits { first_passed «module».now ≡ None }
    ensures globals { result.globals ≡ length (spaces.globals «module».now) }
    ensures table { result.table ≡ table_size «module».now }
{
    let module = module.module();
    Room {
        globals: module.globals.as_slice().len() as u32,
        table: elements_of(module),
    }
}

/// A memory without a page.
pub fn empty_memory<'s>(alloc: Global, quota: u32) -> Result<SegmentedMemory<'s>, AllocError>
    requires { quota ≤ page_limit }
    ensures memory { IfOk result (λ m. m.memory ≡ no_pages quota) }
    ensures room { IfOk result (λ m. m.room ≡ quota) }
{
    let pages = PrivatePages::with_room(alloc, quota)?;
    SegmentedMemory::new(alloc, pages)
}

/// A machine over this memory.
pub fn machine_over<'s>(
    alloc: Global,
    module: &ValidModule,
    memory: SegmentedMemory<'s>,
) -> Result<Machine<'s, SegmentedMemory<'s>>, AllocError>
    requires imports { HostImports «module».now }
    requires limits { first_passed «module».now ≡ None }
    ensures memory { IfOk result (λ m. m.memory ≡ memory.entry) }
    ensures room { IfOk result (λ m. HasRoom m «module».now) }
    ensures writable { IfOk result (λ m. m.writable ≡ 0) }
{
    match Machine::new(alloc, memory, room_of(module)) {
        Ok(machine) => Ok(machine),
        Err(_) => Err(AllocError),
    }
}

impl<'s> Proto<'s> {
    fn keep(
        alloc: Global,
        module: &'s ValidModule,
        quota: u32,
        kept: Instance,
        memory: &SegmentedMemory<'s>,
    ) -> Result<Proto<'s>, AllocError>
        requires runnable { Runnable «module».now }
        requires limits { first_passed «module».now ≡ None }
        requires kept { IsKept «module».now quota (store_of kept memory.now.memory) }
        ensures { IfOk result (λ p. Keeps p «module».now quota (store_of kept memory.now.memory)) }
    {
        let Some(main) = export_of(module.module(), b"main") else {
            unreachable!()
        };
        let image = image_of(alloc, memory)?;
        Ok(Proto {
            module,
            quota,
            kept,
            image,
            main,
        })
    }

    /// Instantiates the module and runs its start function and then `init`, each with the whole fuel, and
    /// keeps what they leave; or says how the function is broken.
    pub fn build(
        alloc: Global,
        module: &'s ValidModule,
        quota: u32,
        fuel: u64,
    ) -> Result<Proto<'s>, BuildFault>
        requires runnable { Runnable «module».now }
        requires limits { first_passed «module».now ≡ None }
        requires quota { quota ≤ page_limit }
        ensures snapshot { IfOk result (IsSnapshotOf «module».now quota fuel) }
        ensures broken { IfErr result (λ e. (f : Function) → IsFor f «module».now quota fuel → IsFault e (fresh f)) }
    {
        let mut memory = empty_memory(alloc, quota)?;
        let kept = instantiate(alloc, module, &mut memory)?;
        let mut machine = machine_over(alloc, module, memory)?;
        let kept = match initialize(alloc, &mut machine, module, kept, fuel) {
            Ok(kept) => kept,
            Err(fault) => return Err(fault),
        };
        Ok(Proto::keep(alloc, module, quota, kept, machine.memory_mut())?)
    }

    // About to run `main`, over a memory that is as the snapshot has it.
    fn begin(&'s self, machine: &mut Machine<'s, SegmentedMemory<'s>>, fuel: u64)
        requires room { HasRoom machine.old self.now.code }
        requires memory { machine.old.memory.memory ≡ image_memory self.now.image self.now.quota }
        requires last { machine.old.memory.last ≡ Some self.now.image }
        ensures restored { IsRestored self.now fuel machine.old machine.new }
        ensures memory { machine.new.memory ≡ machine.old.memory }
    {
        machine.begin(
            self.module,
            self.kept.globals.as_slice(),
            self.kept.table.as_slice(),
            self.main,
            fuel,
        );
    }

    /// Makes a machine's memory, globals and table as the snapshot has them, about to run `main` with so
    /// much fuel.
    pub fn restore(&'s self, machine: &mut Machine<'s, SegmentedMemory<'s>>, fuel: u64)
        requires room { HasRoom machine.old self.now.code }
        requires pages { self.now.quota ≤ machine.old.memory.room }
        ensures restored { IsRestored self.now fuel machine.old machine.new }
        ensures dirty { machine.new.memory.dirty ≡ 0 }
        ensures work { machine.new.memory.work ≤ machine.old.memory.work + machine.old.memory.dirty }
    {
        machine.memory_mut().restore(&self.image, self.quota);
        self.begin(machine, fuel);
    }

    /// The same where this snapshot was the last that was restored to the machine, whatever was run since.
    pub fn reset(&'s self, machine: &mut Machine<'s, SegmentedMemory<'s>>, fuel: u64)
        requires room { HasRoom machine.old self.now.code }
        requires last { machine.old.memory.last ≡ Some self.now.image }
        requires quota { machine.old.memory.memory.quota ≡ self.now.quota }
        ensures restored { IsRestored self.now fuel machine.old machine.new }
        ensures dirty { machine.new.memory.dirty ≡ 0 }
        ensures work { machine.new.memory.work ≤ machine.old.memory.work + machine.old.memory.dirty }
    {
        machine.memory_mut().reset();
        self.begin(machine, fuel);
    }
}
