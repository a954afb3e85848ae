//! Each check of each host call on calls, and first steps, with values worked out by hand.

ghost use Rattle.std.specs.Prelude.{◌≡◌, ℕ, ◌≤◌, List, IfOk, length};
ghost use Rattle.faaslet_meaning.specs.HostCalls.{HostCall};
ghost use Rattle.wasm_interp.specs.StandsFor.{AsksHost};
ghost use Rattle.host_calls.specs.CallHosts.{AreSmall, HasShort};
ghost use Rattle.host_calls.specs.Calls.{HasInput, IsFresh};

use faaslet_meaning::{Ask, AskOp, Channel, Grant, Grants, Linear, Mode, Trap};
use host_calls::{CallCall, CallHost, CallKnown, CallLimits, CallStep};
use region_map::{PrivatePages, SegmentedMemory};
use std::alloc::{AllocError, Global};
use std::test::Fail;
use wasm_interp::{HostAsk, Machine, Room};

/// Two functions that may be called, 10 bytes of input, and 6 of 8 bytes of output.
const LIMITS: CallLimits = CallLimits {
    callees: 2,
    input: 10,
    output: 6,
    room: 8,
};

#[test]
fn what_is_refused_without_children(rt: HostRuntime) -> Result<(), Fail> {
    let mut known = CallKnown::new(rt.alloc())?;
    known.clear();
    assert_eq!(rt; known.count(), 0);
    assert_eq!(rt; known.noted(0), None);
    let cases = [
        (CallHost::InputSize, None),
        (
            CallHost::ReadInput {
                off: 4,
                ptr: 0,
                len: 6,
            },
            None,
        ),
        (
            CallHost::ReadInput {
                off: 5,
                ptr: 0,
                len: 6,
            },
            Some(Trap::CallRange),
        ),
        (
            CallHost::ReadInput {
                off: 4_294_967_295,
                ptr: 0,
                len: 2,
            },
            Some(Trap::CallRange),
        ),
        (CallHost::WriteOutput { ptr: 0, len: 2 }, None),
        (
            CallHost::WriteOutput { ptr: 0, len: 3 },
            Some(Trap::OutputFull),
        ),
        (
            CallHost::ChainCall {
                function: 1,
                ptr: 0,
                len: 65_536,
            },
            None,
        ),
        (
            CallHost::ChainCall {
                function: 2,
                ptr: 0,
                len: 0,
            },
            Some(Trap::BadFunction),
        ),
        (CallHost::AwaitCall { child: 0 }, Some(Trap::BadChild)),
        (CallHost::OutputSize { child: 0 }, Some(Trap::BadChild)),
        (
            CallHost::ReadOutput {
                child: 0,
                off: 9,
                ptr: 0,
                len: 9,
            },
            Some(Trap::BadChild),
        ),
    ];
    for (host, trap) in cases {
        assert_eq!(rt; host.refusal(&known, LIMITS), trap);
    }
    Ok(())
}

/// A private page, and one of the replica at place 0.
fn two_pages(alloc: Global) -> Result<SegmentedMemory<'static>, AllocError> {
    let mut pages = PrivatePages::with_room(alloc, 1)?;
    let _ = pages.grow(1);
    let mut memory = SegmentedMemory::new(alloc, pages)?;
    let _ = memory.map(0, 1);
    Ok(memory)
}

fn begun(ask: HostAsk, known: &CallKnown) -> Result<CallCall, Trap>
    requires low { 16 ≤ ask.call }
    requires high { ask.call ≤ 22 }
    requires small { AreSmall ask.args }
    requires asked { (h : HostCall) × AsksHost ask h × HasShort h }
    ensures fresh { IfOk result (λ c. IsFresh c.stage) }
    ensures input { IfOk result (λ c. (input : List ℕ) → length input ≡ 10 → HasInput c.stage input) }
{
    CallCall::begin(ask, known, 2, 10, 6, 8)
}

/// What the first step of a call comes to, and how many bytes it would add to the output.
fn first_step(alloc: Global, mut call: CallCall, mode: Mode) -> Result<(CallStep, u32), Fail>
    requires fresh { IsFresh call.stage }
    requires input { (input : List ℕ) → length input ≡ 10 → HasInput call.stage input }
{
    let mut known = CallKnown::new(alloc)?;
    let grant = Grant {
        key: 5,
        size: 100,
        mode,
    };
    let grants = Grants::of(vec![in alloc; grant]?);
    let room = Room {
        globals: 0,
        table: 0,
    };
    match Machine::new(alloc, two_pages(alloc)?, room) {
        Ok(mut machine) => {
            let told = call.step(None, &grants, &mut known, &[7; 10], &mut machine);
            Ok((told, call.added()))
        }
        Err(_) => Err(Fail::new("no memory")),
    }
}

#[test]
fn the_size_of_an_input(rt: HostRuntime) -> Result<(), Fail> {
    let alloc = rt.alloc();
    let known = CallKnown::new(alloc)?;
    let ask = HostAsk {
        call: 16,
        args: [0, 0, 0, 0],
    };
    match begun(ask, &known) {
        Ok(call) => {
            let told = first_step(alloc, call, Mode::Read)?;
            assert_eq!(rt; told, (CallStep::Done(Some(10)), 0));
            Ok(())
        }
        Err(_) => Err(Fail::new("refused")),
    }
}

#[test]
fn output_over_a_border(rt: HostRuntime) -> Result<(), Fail> {
    let alloc = rt.alloc();
    let known = CallKnown::new(alloc)?;
    let ask = HostAsk {
        call: 18,
        args: [65_535, 2, 0, 0],
    };
    match begun(ask, &known) {
        Ok(call) => {
            let piece = Ask::Region {
                channel: Channel::Local(5),
                op: AskOp::Read { off: 0, len: 1 },
            };
            let told = first_step(alloc, call, Mode::Read)?;
            assert_eq!(rt; told, (CallStep::Ask(piece), 2));
            Ok(())
        }
        Err(_) => Err(Fail::new("refused")),
    }
}

#[test]
fn input_into_a_page_that_may_not_be_written(rt: HostRuntime) -> Result<(), Fail> {
    let alloc = rt.alloc();
    let known = CallKnown::new(alloc)?;
    let ask = HostAsk {
        call: 17,
        args: [0, 65_535, 2, 0],
    };
    match begun(ask, &known) {
        Ok(call) => {
            let told = first_step(alloc, call, Mode::Read)?;
            assert_eq!(rt; told, (CallStep::Trap(Trap::Denied), 0));
            Ok(())
        }
        Err(_) => Err(Fail::new("refused")),
    }
}
