//! A store over the border between a private page and a mapped one.

ghost use Rattle.std.specs.Prelude.{◌≡◌, List, [], ◌∷◌, IfOk};
ghost use Rattle.faaslet_meaning.specs.declared.grant.Grant.{Grant};
ghost use Rattle.faaslet_meaning.specs.declared.instr.Instr.{Instr};
ghost use Rattle.faaslet_meaning.specs.Configuration.{Configuration, goes};
ghost use Rattle.wasm_interp.specs.StandsFor.{Agrees, StandsFor};
ghost use Rattle.wasm_interp_tests.specs.Trials.{trial};

use crate::trials::valid;
use faaslet_meaning::{Instr, Linear, Outcome, Trap};
use region_map::{PrivatePages, SegmentedMemory};
use std::alloc::{AllocError, Global};
use std::test::Fail;
use wasm_interp::{Event, Machine, PieceAsk, Room};
use wasm_validate::ValidModule;

/// A private page, and one of the replica at place 0.
fn two_pages(alloc: Global) -> Result<SegmentedMemory<'static>, AllocError> {
    let mut pages = PrivatePages::with_room(alloc, 1)?;
    let _ = pages.grow(1);
    let mut memory = SegmentedMemory::new(alloc, pages)?;
    let _ = memory.map(0, 1);
    Ok(memory)
}

/// Stores eight bytes from address 65,533 on.
fn storing(alloc: Global) -> Result<Vec<Instr>, AllocError> {
    Ok(vec![in alloc;
        Instr::I32Const(65_533),
        Instr::I64Const(0x0807_0605_0403_0201),
        Instr::Store(0x37, 0, 0),
        Instr::I32Const(0),
        Instr::End,
    ]?)
}

/// A machine about to run the code over these pages.
fn machine_at<'m>(
    alloc: Global,
    code: &'m ValidModule,
    writable: u32,
) -> Result<Machine<'m, SegmentedMemory<'static>>, Fail>
    requires { (items : List Instr) × (code.now ≡ trial items) }
    ensures { IfOk result (λ m. (grants : List Grant) → Agrees writable grants
        → (c : Configuration) × StandsFor (λ s. s.memory) m code.now grants 10 (goes c)) }
{
    let room = Room {
        globals: 0,
        table: 2,
    };
    match Machine::new(alloc, two_pages(alloc)?, room) {
        Ok(mut machine) => {
            machine.allow(writable);
            machine.begin(code, &[], &[None, None], 0, 10);
            Ok(machine)
        }
        Err(_) => Err(Fail::new("no memory")),
    }
}

/// What the code comes to, the first five bytes of the scratch, and the last three private bytes.
fn stored(
    alloc: Global,
    code: Vec<Instr>,
    writable: u32,
) -> Result<(Event, Vec<u8>, u64, u64), Fail>
    requires { (grants : List Grant) × Agrees writable grants }
{
    let code = valid(alloc, code)?;
    let mut machine = machine_at(alloc, &code, writable)?;
    let event = machine.run();
    let scratch = Vec::from_slice(alloc, &machine.scratch_mut()[..5])?;
    let memory = machine.memory_mut();
    let low = memory.read_number(65_533, 2).unwrap_or(9);
    let high = memory.read_number(65_535, 1).unwrap_or(9);
    Ok((event, scratch, low, high))
}

/// What the code comes to once the piece that it asks for is written, and the fuel that it used.
fn after_the_piece(alloc: Global, code: Vec<Instr>, writable: u32) -> Result<(Event, u64), Fail>
    requires { (grants : List Grant) × Agrees writable grants }
{
    let code = valid(alloc, code)?;
    let mut machine = machine_at(alloc, &code, writable)?;
    match machine.run() {
        Event::Piece(_) => {
            machine.resume_piece();
            let event = machine.run();
            Ok((event, machine.used()))
        }
        _ => Err(Fail::new("no piece")),
    }
}

#[test]
fn a_store_over_the_border(rt: HostRuntime) -> Result<(), Fail> {
    let alloc = rt.alloc();
    let (event, scratch, low, high) = stored(alloc, storing(alloc)?, 1)?;
    let ask = PieceAsk {
        place: 0,
        off: 0,
        len: 5,
        write: true,
    };
    assert_eq!(rt; event, Event::Piece(ask));
    assert_eq!(rt; scratch.as_slice(), [4, 5, 6, 7, 8].as_slice());
    assert_eq!(rt; (low, high), (0x0201, 3));
    let rest = after_the_piece(alloc, storing(alloc)?, 1)?;
    assert_eq!(rt; rest, (Event::Ended(Outcome::Done(0)), 4));
    Ok(())
}

#[test]
fn a_store_into_a_page_that_may_not_be_written(rt: HostRuntime) -> Result<(), Fail> {
    let alloc = rt.alloc();
    let (event, _, low, high) = stored(alloc, storing(alloc)?, 0)?;
    assert_eq!(rt; event, Event::Ended(Outcome::Trap(Trap::Denied)));
    assert_eq!(rt; (low, high), (0, 0));
    Ok(())
}
