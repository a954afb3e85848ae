//! Calls of modules in bytes, each with the same grants, callable functions and input.

ghost use Rattle.std.specs.Prelude.{◌≡◌, ◌≤◌, [], None, IfOk, IfSome};
ghost use Rattle.faaslet_meaning.specs.declared.module.Module.{Module};
ghost use Rattle.faaslet_meaning.specs.Decoding.{first_passed};
ghost use Rattle.faaslet_meaning.specs.Runnable.{HostImports, Runnable};
ghost use Rattle.proto_faaslet.specs.Entries.{HasRoom};
ghost use Rattle.proto_faaslet.specs.Snapshots.{IsSnapshotOf};
ghost use Rattle.faaslet_run.specs.Allowed.{AreGrants};
ghost use Rattle.faaslet_run_tests.specs.Standing.{IsAt};

use crate::rows::{Off, Served};
use crate::serving::{go_through, lay_front};
use faaslet_meaning::{Grant, Grants, Items, Mode, Outcome};
use faaslet_run::{Faaslet, Job};
use function_rules::fits;
use proto_faaslet::{Proto, room_of};
use std::alloc::{AllocError, Global};
use wasm_decode::decode;
use wasm_validate::{ValidModule, validate};

/// The pages of its own that a call may have.
const QUOTA: u32 = 1;

/// How many bytes a call may put out.
const ROOM: u32 = 64;

/// The functions that a call may call.
const CALLEES: [u32; 2] = [7, 9];

/// What a call came to.
#[derive(Debug, Drop)]
pub struct Came {
    pub outcome: Outcome,
    pub output: Vec<u8>,
    pub used: u64,
    pub counts: Vec<u64>,
}

/// The module in these bytes, where a function may have it.
pub fn read(alloc: Global, bytes: &[u8]) -> Option<ValidModule>
    ensures runnable { IfSome result (λ m. Runnable m) }
    ensures limits { IfSome result (λ m. first_passed m ≡ None) }
{
    let Ok(module) = decode(alloc, bytes) else {
        return None;
    };
    let Ok(module) = validate(alloc, module) else {
        return None;
    };
    match fits(&module) {
        Ok(()) => Some(module),
        Err(_) => None,
    }
}

// Key 5 of 100 bytes, which may be written, and key 2 of 70,000, which may be read.
fn granted(alloc: Global) -> Result<Grants, AllocError>
    ensures { IfOk result AreGrants }
{
    let first = Grant {
        key: 5,
        size: 100,
        mode: Mode::Write,
    };
    let second = Grant {
        key: 2,
        size: 70_000,
        mode: Mode::Read,
    };
    Ok(Items::of(vec![in alloc; first, second]?))
}

// A Faaslet with room for a call of the module.
fn faaslet_for<'s>(alloc: Global, module: &ValidModule) -> Result<Faaslet<'s>, AllocError>
    requires imports { HostImports «module».now }
    requires limits { first_passed «module».now ≡ None }
    ensures room { IfOk result (λ f. HasRoom f.machine «module».now) }
    ensures pages { IfOk result (λ f. 1 ≤ f.machine.memory.room) }
{
    let mut faaslet = Faaslet::open(alloc, room_of(module), QUOTA)?;
    lay_front(faaslet.input_mut(), b"input");
    Ok(faaslet)
}

// Begins a call of the snapshot.
fn begin<'s>(faaslet: &mut Faaslet<'s>, proto: &'s Proto<'s>, grants: &'s Grants, fuel: u64)
    requires snapshot { (code : Module) × IsSnapshotOf code 1 fuel proto.now × HasRoom faaslet.old.machine code }
    requires pages { 1 ≤ faaslet.old.machine.memory.room }
    requires grants { AreGrants grants.now }
    ensures { IsAt faaslet.new [] }
{
    let job = Job {
        call: 0,
        function: 0,
        len: 5,
        fuel,
        room: ROOM,
    };
    faaslet.start(proto, grants, &CALLEES, job);
}

// From its begin to its end, with these rows.
fn finish(alloc: Global, faaslet: &mut Faaslet<'_>, rows: &[Served<'_>]) -> Result<Came, Off>
    requires { IsAt faaslet.old [] }
{
    let mut children = Vec::new(alloc);
    let outcome = go_through(faaslet, &mut children, rows)?;
    Ok(Came {
        outcome,
        output: Vec::from_slice(alloc, faaslet.output())?,
        used: faaslet.used(),
        counts: Vec::from_slice(alloc, faaslet.counts())?,
    })
}

// A call of the snapshot, whose questions are served as these rows say.
fn run<'s>(
    alloc: Global,
    proto: &'s Proto<'s>,
    grants: &'s Grants,
    module: &ValidModule,
    fuel: u64,
    rows: &[Served<'_>],
) -> Result<Came, Off>
    requires imports { HostImports «module».now }
    requires limits { first_passed «module».now ≡ None }
    requires snapshot { IsSnapshotOf «module».now 1 fuel proto.now }
    requires grants { AreGrants grants.now }
{
    let mut faaslet = faaslet_for(alloc, module)?;
    begin(&mut faaslet, proto, grants, fuel);
    finish(alloc, &mut faaslet, rows)
}

/// A call of the module, whose questions are served as these rows say.
pub fn call_of(
    alloc: Global,
    module: &ValidModule,
    fuel: u64,
    rows: &[Served<'_>],
) -> Result<Came, Off>
    requires runnable { Runnable «module».now }
    requires limits { first_passed «module».now ≡ None }
{
    let Ok(proto) = Proto::build(alloc, module, QUOTA, fuel) else {
        return Err(Off::Nothing);
    };
    let grants = granted(alloc)?;
    run(alloc, &proto, &grants, module, fuel, rows)
}
