ghost use Rattle.std.specs.Prelude.{◌≡◌, [], ◌∷◌, IfOk};
ghost use Rattle.wasm_interp_tests.specs.Trials.{trial};

use crate::trials::valid;
use faaslet_meaning::{
    Body, FuncType, Instr, Items, Limits, Linear, LocalGroup, Module, Outcome, Trap, ValType,
};
use region_map::{PrivatePages, SegmentedMemory};
use std::alloc::{AllocError, Global};
use std::test::Fail;
use wasm_interp::*;
use wasm_validate::{ValidModule, validate};

/// One private page, one of the replica at place 3, and a private one.
fn three_pages(alloc: Global) -> Result<SegmentedMemory<'static>, AllocError> {
    let mut pages = PrivatePages::with_room(alloc, 2)?;
    let _ = pages.grow(1);
    let mut memory = SegmentedMemory::new(alloc, pages)?;
    let _ = memory.map(3, 1);
    let _ = memory.grow(1, 3);
    Ok(memory)
}

/// What the code comes to, and the fuel that it used.
fn outcome_of(alloc: Global, code: Vec<Instr>, fuel: u64) -> Result<(Event, u64), Fail> {
    let code = valid(alloc, code)?;
    let memory = three_pages(alloc)?;
    match Machine::new(
        alloc,
        memory,
        Room {
            globals: 0,
            table: 2,
        },
    ) {
        Ok(mut machine) => {
            machine.begin(&code, &[], &[None, Some(0)], 0, fuel);
            let event = machine.run();
            Ok((event, machine.used()))
        }
        Err(_) => Err(Fail::new("no module or memory")),
    }
}

/// The shared piece that the code comes to, and what it comes to after three zeros were read there.
fn piece_of(alloc: Global, code: Vec<Instr>) -> Result<(PieceAsk, Event), Fail> {
    let code = valid(alloc, code)?;
    let memory = three_pages(alloc)?;
    match Machine::new(
        alloc,
        memory,
        Room {
            globals: 0,
            table: 2,
        },
    ) {
        Ok(mut machine) => {
            machine.begin(&code, &[], &[None, Some(0)], 0, 9);
            match machine.run() {
                Event::Piece(ask) => {
                    machine.resume_piece();
                    Ok((ask, machine.run()))
                }
                _ => Err(Fail::new("no piece")),
            }
        }
        Err(_) => Err(Fail::new("no memory")),
    }
}

/// The first bytes of the scratch and of the second buffer after copies between them and the memory.
fn copied(alloc: Global) -> Result<(Vec<u8>, Vec<u8>), Fail> {
    let memory = three_pages(alloc)?;
    if memory.read_number(8, 4).is_none() {
        return Err(Fail::new("not private"));
    }
    let room = Room {
        globals: 0,
        table: 0,
    };
    match Machine::new(alloc, memory, room) {
        Ok(mut machine) => {
            machine.aside_mut()[..4].copy_from_slice(&[1, 2, 3, 4]);
            machine.store_aside(8, 0, 4);
            machine.load_aside(8, 6, 4);
            machine.bring_back(4, 6);
            machine.put_aside(1, 3);
            let scratch = Vec::from_slice(alloc, &machine.scratch_mut()[..6])?;
            let aside = Vec::from_slice(alloc, &machine.aside_mut()[..10])?;
            Ok((scratch, aside))
        }
        Err(_) => Err(Fail::new("no memory")),
    }
}

#[test]
fn bytes_are_copied(rt: HostRuntime) -> Result<(), Fail> {
    let alloc = rt.alloc();
    let (scratch, aside) = copied(alloc)?;
    assert_eq!(rt; scratch.as_slice(), [0, 0, 1, 2, 3, 4].as_slice());
    assert_eq!(rt; aside.as_slice(), [1, 0, 0, 1, 0, 0, 1, 2, 3, 4].as_slice());
    Ok(())
}

#[test]
fn a_load_over_a_border(rt: HostRuntime) -> Result<(), Fail> {
    let alloc = rt.alloc();
    let code = vec![in alloc;
        Instr::I32Const(65_535),
        Instr::I32Const(-1),
        Instr::Store(0x3A, 0, 0),
        Instr::I32Const(65_534),
        Instr::Load(0x28, 0, 1),
        Instr::End,
    ]?;
    let ask = PieceAsk {
        place: 3,
        off: 0,
        len: 3,
        write: false,
    };
    assert_eq!(rt;
        piece_of(alloc, code)?,
        (ask, Event::Ended(Outcome::Done(255)))
    );
    Ok(())
}

#[test]
fn a_loop_counts_down(rt: HostRuntime) -> Result<(), Fail> {
    let alloc = rt.alloc();
    let code = vec![in alloc;
        Instr::I32Const(5),
        Instr::LocalSet(0),
        Instr::Loop(None),
        Instr::LocalGet(1),
        Instr::I32Const(7),
        Instr::Num(0x6A),
        Instr::LocalSet(1),
        Instr::LocalGet(0),
        Instr::I32Const(-1),
        Instr::Num(0x6A),
        Instr::LocalTee(0),
        Instr::BrIf(0),
        Instr::End,
        Instr::LocalGet(1),
        Instr::End,
    ]?;
    assert_eq!(rt;
        outcome_of(alloc, code, 100)?,
        (Event::Ended(Outcome::Done(35)), 49)
    );
    Ok(())
}

#[test]
fn fuel_is_spent(rt: HostRuntime) -> Result<(), Fail> {
    let alloc = rt.alloc();
    let code = vec![in alloc;
        Instr::Loop(None),
        Instr::Br(0),
        Instr::End,
        Instr::Unreachable,
        Instr::End,
    ]?;
    assert_eq!(rt;
        outcome_of(alloc, code, 10)?,
        (Event::Ended(Outcome::FuelOut), 10)
    );
    Ok(())
}

#[test]
fn a_call_without_end(rt: HostRuntime) -> Result<(), Fail> {
    let alloc = rt.alloc();
    let code = vec![in alloc; Instr::Call(0), Instr::End]?;
    assert_eq!(rt;
        outcome_of(alloc, code, 5_000)?,
        (Event::Ended(Outcome::Trap(Trap::StackExhausted)), 1_024)
    );
    Ok(())
}

#[test]
fn calls_through_the_table(rt: HostRuntime) -> Result<(), Fail> {
    let alloc = rt.alloc();
    for (index, trap) in [
        (2, Trap::UndefinedElement),
        (0, Trap::UninitializedElement),
        (1, Trap::TypeMismatch),
    ] {
        let code = vec![in alloc;
            Instr::I32Const(index),
            Instr::CallIndirect(1),
            Instr::I32Const(0),
            Instr::End,
        ]?;
        assert_eq!(rt;
            outcome_of(alloc, code, 9)?,
            (Event::Ended(Outcome::Trap(trap)), 2),
            "at {index}"
        );
    }
    Ok(())
}
