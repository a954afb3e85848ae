ghost use Rattle.std.specs.Prelude.{◌≡◌, ℕ, ◌≤◌, List, IfSome, None};
ghost use Rattle.faaslet_meaning.specs.declared.grant.Grant.{Grant};
ghost use Rattle.faaslet_meaning.specs.declared.module.Module.{Module};
ghost use Rattle.faaslet_meaning.specs.Configuration.{Configuration, goes};
ghost use Rattle.faaslet_meaning.specs.Decoding.{first_passed};
ghost use Rattle.faaslet_meaning.specs.Memory.{page_limit};
ghost use Rattle.faaslet_meaning.specs.Runnable.{Runnable};
ghost use Rattle.proto_faaslet.specs.Entries.{HasRoom};
ghost use Rattle.region_map.specs.Segments.{backing_of};
ghost use Rattle.wasm_interp.specs.Goes.{SameRun};
ghost use Rattle.wasm_interp.specs.StandsFor.{StandsFor};

use faaslet_meaning::{Broken, Outcome, Trap};
use function_rules::fits;
use proto_faaslet::*;
use region_map::SegmentedMemory;
use std::alloc::{AllocError, Global};
use std::test::Fail;
use wasm_decode::decode;
use wasm_interp::{Event, Machine};
use wasm_validate::{ValidModule, validate};

/// Types from nothing to nothing and to an i32, and a function of each, the second exported as `main`.
const FRONT: [u8; 33] = [
    0x00, 0x61, 0x73, 0x6D, 0x01, 0x00, 0x00, 0x00, 0x01, 0x08, 0x02, 0x60, 0x00, 0x00, 0x60, 0x00,
    0x01, 0x7F, 0x03, 0x03, 0x02, 0x00, 0x01, 0x07, 0x08, 0x01, 0x04, 0x6D, 0x61, 0x69, 0x6E, 0x00,
    0x01,
];

/// 17 pages, a table with an element, a segment, and custom sections; `init` stores 7, and `main`
/// returns it and stores 9 in its place.
const KEEP: [u8; 132] = [
    0x00, 0x61, 0x73, 0x6D, 0x01, 0x00, 0x00, 0x00, 0x00, 0x0B, 0x09, 0x70, 0x72, 0x6F, 0x64, 0x75,
    0x63, 0x65, 0x72, 0x73, 0x00, 0x01, 0x08, 0x02, 0x60, 0x00, 0x01, 0x7F, 0x60, 0x00, 0x00, 0x03,
    0x03, 0x02, 0x00, 0x01, 0x04, 0x04, 0x01, 0x70, 0x00, 0x02, 0x05, 0x03, 0x01, 0x00, 0x11, 0x07,
    0x0F, 0x02, 0x04, 0x6D, 0x61, 0x69, 0x6E, 0x00, 0x00, 0x04, 0x69, 0x6E, 0x69, 0x74, 0x00, 0x01,
    0x09, 0x07, 0x01, 0x00, 0x41, 0x00, 0x0B, 0x01, 0x00, 0x0A, 0x1D, 0x02, 0x10, 0x00, 0x41, 0x80,
    0x08, 0x28, 0x00, 0x00, 0x41, 0x80, 0x08, 0x41, 0x09, 0x36, 0x00, 0x00, 0x0B, 0x0A, 0x00, 0x41,
    0x80, 0x08, 0x41, 0x07, 0x36, 0x00, 0x00, 0x0B, 0x0B, 0x13, 0x01, 0x00, 0x41, 0x80, 0x10, 0x0B,
    0x0C, 0x64, 0x61, 0x74, 0x61, 0x20, 0x6F, 0x66, 0x20, 0x6B, 0x65, 0x65, 0x70, 0x00, 0x05, 0x04,
    0x6E, 0x61, 0x6D, 0x65,
];

/// `init` asks for the length of the input; `main` returns 42.
const ASKS: [u8; 76] = [
    0x00, 0x61, 0x73, 0x6D, 0x01, 0x00, 0x00, 0x00, 0x01, 0x08, 0x02, 0x60, 0x00, 0x01, 0x7F, 0x60,
    0x00, 0x00, 0x02, 0x14, 0x01, 0x05, 0x66, 0x61, 0x61, 0x73, 0x6D, 0x0A, 0x69, 0x6E, 0x70, 0x75,
    0x74, 0x5F, 0x73, 0x69, 0x7A, 0x65, 0x00, 0x00, 0x03, 0x03, 0x02, 0x00, 0x01, 0x07, 0x0F, 0x02,
    0x04, 0x6D, 0x61, 0x69, 0x6E, 0x00, 0x01, 0x04, 0x69, 0x6E, 0x69, 0x74, 0x00, 0x02, 0x0A, 0x0C,
    0x02, 0x04, 0x00, 0x41, 0x2A, 0x0B, 0x05, 0x00, 0x10, 0x00, 0x1A, 0x0B,
];

/// A module whose start function is the first one, which has this body; `main` returns 42.
fn module(alloc: Global, body: &[u8]) -> Result<Vec<u8>, AllocError> {
    let mut bytes = Vec::from_slice(alloc, &FRONT)?;
    bytes.extend_from_slice(&[0x08, 0x01, 0x00, 0x0A])?;
    bytes.extend_from_slice(body)?;
    bytes.extend_from_slice(&[0x04, 0x00, 0x41, 0x2A, 0x0B])?;
    Ok(bytes)
}

/// The module in these bytes, where a function may have it.
fn read(alloc: Global, bytes: &[u8]) -> Option<ValidModule>
    ensures runnable { IfSome result (λ m. Runnable m) }
    ensures limits { IfSome result (λ m. first_passed m ≡ None) }
{
    let Ok(module) = decode(alloc, bytes) else {
        return None;
    };
    let Ok(module) = validate(alloc, module) else {
        return None;
    };
    match fits(&module) {
        Ok(()) => Some(module),
        Err(_) => None,
    }
}

/// Whether a snapshot of the module with one page is built, or why not; nothing where a function may not
/// have it.
fn answer(alloc: Global, bytes: &[u8]) -> Option<Result<(), BuildFault>> {
    let module = read(alloc, bytes)?;
    match Proto::build(alloc, &module, 1, 10) {
        Ok(_) => Some(Ok(())),
        Err(fault) => Some(Err(fault)),
    }
}

#[test]
fn start_functions(rt: HostRuntime) -> Result<(), Fail> {
    let alloc = rt.alloc();
    let trap = Broken::Trap(Trap::Unreachable);
    let bodies: [(&[u8], Result<(), BuildFault>); 3] = [
        (&[0x09, 0x02, 0x02, 0x00, 0x0B], Ok(())),
        (
            &[0x0A, 0x02, 0x03, 0x00, 0x00, 0x0B],
            Err(BuildFault::Broken(trap)),
        ),
        (
            &[0x0E, 0x02, 0x07, 0x00, 0x03, 0x40, 0x0C, 0x00, 0x0B, 0x0B],
            Err(BuildFault::Broken(Broken::Fuel)),
        ),
    ];
    for (body, want) in bodies {
        let bytes = module(alloc, body)?;
        assert_eq!(rt; answer(alloc, &bytes), Some(want), "{body:?}");
    }
    Ok(())
}

#[test]
fn broken_functions(rt: HostRuntime) -> Result<(), Fail> {
    let alloc = rt.alloc();
    let quota = BuildFault::Broken(Broken::Quota);
    let host_call = BuildFault::Broken(Broken::HostCall);
    assert_eq!(rt; answer(alloc, &KEEP), Some(Err(quota)));
    assert_eq!(rt; answer(alloc, &ASKS), Some(Err(host_call)));
    Ok(())
}

/// A machine with pages and room for the module.
fn machine_for<'s>(
    alloc: Global,
    module: &ValidModule,
    pages: u32,
) -> Option<Machine<'s, SegmentedMemory<'s>>>
    requires runnable { Runnable «module».now }
    requires limits { first_passed «module».now ≡ None }
    requires pages { pages ≤ page_limit }
    ensures room { IfSome result (λ m. HasRoom m «module».now) }
    ensures pages { IfSome result (λ m. m.memory.room ≡ pages) }
{
    let Ok(memory) = empty_memory(alloc, pages) else {
        return None;
    };
    match machine_over(alloc, module, memory) {
        Ok(machine) => Some(machine),
        Err(_) => None,
    }
}

/// What the machine comes to, and the fuel that it used.
fn ended(machine: &mut Machine<'_, SegmentedMemory<'_>>) -> (Event, u64)
    requires { (code : Module) × (grants : List Grant) × (fuel : ℕ) × (c : Configuration)
        × StandsFor (λ m. m.memory) machine.old code grants fuel (goes c) }
    ensures { SameRun (λ m. backing_of m) machine.old machine.new }
{
    let event = machine.run();
    (event, machine.used())
}

/// What one machine comes to where the snapshot was restored to it, and where it was set back to it twice.
fn three_runs(alloc: Global, module: &ValidModule) -> Option<[(Event, u64); 3]>
    requires runnable { Runnable «module».now }
    requires limits { first_passed «module».now ≡ None }
{
    let Ok(proto) = Proto::build(alloc, module, 17, 10) else {
        return None;
    };
    let mut machine = machine_for(alloc, module, 17)?;
    proto.restore(&mut machine, 10);
    let first = ended(&mut machine);
    proto.reset(&mut machine, 10);
    let second = ended(&mut machine);
    proto.reset(&mut machine, 4);
    let third = ended(&mut machine);
    Some([first, second, third])
}

#[test]
fn restores_and_resets(rt: HostRuntime) -> Result<(), Fail> {
    let alloc = rt.alloc();
    let done = Event::Ended(Outcome::Done(7));
    let spent = Event::Ended(Outcome::FuelOut);
    let Some(module) = read(alloc, &KEEP) else {
        return Err(Fail::new("no module that a function may have"));
    };
    let runs = three_runs(alloc, &module);
    assert_eq!(rt; runs, Some([(done, 5), (done, 5), (spent, 4)]));
    Ok(())
}
