//! A host call that is asked for and answered.

ghost use Rattle.std.specs.Prelude.{◌≡◌, None, IfSome};
ghost use Rattle.faaslet_meaning.specs.Decoding.{first_passed};
ghost use Rattle.faaslet_meaning.specs.Runnable.{Runnable};

use faaslet_meaning::{Outcome, Trap};
use function_rules::fits;
use proto_faaslet::{Proto, empty_memory, machine_over};
use std::alloc::Global;
use std::test::Fail;
use wasm_decode::decode;
use wasm_interp::Event;
use wasm_validate::{ValidModule, validate};

/// The number of `input_size`, by its place among the host calls.
const INPUT_SIZE: u32 = 16;

/// `main` asks for the length of the input and returns it.
const ASKS: [u8; 59] = [
    0x00, 0x61, 0x73, 0x6D, 0x01, 0x00, 0x00, 0x00, 0x01, 0x05, 0x01, 0x60, 0x00, 0x01, 0x7F, 0x02,
    0x14, 0x01, 0x05, 0x66, 0x61, 0x61, 0x73, 0x6D, 0x0A, 0x69, 0x6E, 0x70, 0x75, 0x74, 0x5F, 0x73,
    0x69, 0x7A, 0x65, 0x00, 0x00, 0x03, 0x02, 0x01, 0x00, 0x07, 0x08, 0x01, 0x04, 0x6D, 0x61, 0x69,
    0x6E, 0x00, 0x01, 0x0A, 0x06, 0x01, 0x04, 0x00, 0x10, 0x00, 0x0B,
];

/// The module in these bytes, where a function may have it.
fn read(alloc: Global, bytes: &[u8]) -> Option<ValidModule>
    ensures runnable { IfSome result (λ m. Runnable m) }
    ensures limits { IfSome result (λ m. first_passed m ≡ None) }
{
    let Ok(module) = decode(alloc, bytes) else {
        return None;
    };
    let Ok(module) = validate(alloc, module) else {
        return None;
    };
    match fits(&module) {
        Ok(()) => Some(module),
        Err(_) => None,
    }
}

/// What `main` comes to once the length that it asks for is answered so, and the fuel that it used.
fn answered(
    alloc: Global,
    module: &ValidModule,
    length: Result<u64, Trap>,
) -> Result<(Event, u64), Fail>
    requires runnable { Runnable «module».now }
    requires limits { first_passed «module».now ≡ None }
{
    let Ok(proto) = Proto::build(alloc, module, 1, 10) else {
        return Err(Fail::new("no snapshot"));
    };
    let mut machine = machine_over(alloc, module, empty_memory(alloc, 64)?)?;
    proto.restore(&mut machine, 10);
    let Event::Host(ask) = machine.run() else {
        return Err(Fail::new("no host call"));
    };
    if ask.call != INPUT_SIZE {
        return Err(Fail::new("another host call"));
    }
    machine.resume_host(length.map(Some));
    let event = machine.run();
    Ok((event, machine.used()))
}

#[test]
fn the_length_of_the_input(rt: HostRuntime) -> Result<(), Fail> {
    let alloc = rt.alloc();
    let Some(module) = read(alloc, &ASKS) else {
        return Err(Fail::new("no module that a function may have"));
    };
    let rows = [
        (Ok(7), Outcome::Done(7)),
        (Err(Trap::CallRange), Outcome::Trap(Trap::CallRange)),
    ];
    for (length, want) in rows {
        // The `call` costs one, the end of the body nothing.
        let ran = answered(alloc, &module, length)?;
        assert_eq!(rt; ran, (Event::Ended(want), 1), "{length:?}");
    }
    Ok(())
}
