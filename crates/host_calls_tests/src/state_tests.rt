//! Each check of each host call on state, and first steps, with values worked out by hand.

ghost use Rattle.std.specs.Prelude.{◌≡◌, ℕ, ◌<◌, ◌≤◌, All, List, [], IfOk, length, true};
ghost use Rattle.faaslet_meaning.specs.HostCalls.{HostCall, set_state};
ghost use Rattle.wasm_interp.specs.StandsFor.{AsksHost};
ghost use Rattle.host_calls.specs.CallHosts.{AreSmall, HasShort};
ghost use Rattle.host_calls.specs.Known.{Keeps};
ghost use Rattle.host_calls.specs.States.{IsFresh, maps};

use faaslet_meaning::{Ask, AskOp, Channel, Grant, Grants, Linear, Mode, Trap};
use host_calls::{Known, StateCall, StateHost, StateKind, StateStep, Tier};
use region_map::{PrivatePages, SegmentedMemory};
use std::alloc::{AllocError, Global};
use std::test::Fail;
use wasm_interp::{HostAsk, Machine, Room};

/// A key of 100 bytes that may be written, and one of 70,000 that may be read.
const GRANTS: [Grant; 2] = [
    Grant {
        key: 5,
        size: 100,
        mode: Mode::Write,
    },
    Grant {
        key: 6,
        size: 70_000,
        mode: Mode::Read,
    },
];

fn refusal(place: u32, kind: StateKind, known: &Known) -> Option<Trap> {
    StateHost { place, kind }.refusal(&GRANTS, known)
}

#[test]
fn what_is_refused(rt: HostRuntime) -> Result<(), Fail> {
    let known = Known::new();
    let cases = [
        (0, StateKind::Size, None),
        (2, StateKind::Size, Some(Trap::BadKey)),
        (1, StateKind::Used, None),
        (1, StateKind::Get, None),
        (2, StateKind::Get, Some(Trap::BadKey)),
        (
            0,
            StateKind::Read {
                off: 60,
                ptr: 0,
                len: 40,
            },
            None,
        ),
        (
            0,
            StateKind::Read {
                off: 60,
                ptr: 0,
                len: 41,
            },
            Some(Trap::StateRange),
        ),
        (
            1,
            StateKind::Read {
                off: 4_294_967_295,
                ptr: 0,
                len: 2,
            },
            Some(Trap::StateRange),
        ),
        (
            0,
            StateKind::Set {
                off: 100,
                ptr: 0,
                len: 0,
            },
            None,
        ),
        (
            0,
            StateKind::Set {
                off: 100,
                ptr: 0,
                len: 1,
            },
            Some(Trap::StateRange),
        ),
        (
            1,
            StateKind::Set {
                off: 0,
                ptr: 0,
                len: 70_001,
            },
            Some(Trap::Denied),
        ),
        (0, StateKind::Push, None),
        (1, StateKind::Push, Some(Trap::Denied)),
        (2, StateKind::Pull, Some(Trap::BadKey)),
        (1, StateKind::Pull, Some(Trap::Denied)),
        (0, StateKind::PushPart { off: 50, len: 50 }, None),
        (
            0,
            StateKind::PushPart { off: 50, len: 51 },
            Some(Trap::StateRange),
        ),
        (
            0,
            StateKind::PullPart { off: 101, len: 0 },
            Some(Trap::StateRange),
        ),
        (
            1,
            StateKind::PullPart { off: 0, len: 1 },
            Some(Trap::Denied),
        ),
        (
            0,
            StateKind::Append {
                ptr: 0,
                len: 65_536,
            },
            None,
        ),
        (1, StateKind::Append { ptr: 0, len: 0 }, Some(Trap::Denied)),
        (
            1,
            StateKind::Lock {
                tier: Tier::Local,
                mode: Mode::Read,
            },
            None,
        ),
        (
            1,
            StateKind::Lock {
                tier: Tier::Local,
                mode: Mode::Write,
            },
            Some(Trap::Denied),
        ),
        (
            0,
            StateKind::Lock {
                tier: Tier::Global,
                mode: Mode::Write,
            },
            None,
        ),
        (
            2,
            StateKind::Lock {
                tier: Tier::Global,
                mode: Mode::Read,
            },
            Some(Trap::BadKey),
        ),
        (
            0,
            StateKind::Unlock { tier: Tier::Local },
            Some(Trap::LockMisuse),
        ),
        (
            1,
            StateKind::Unlock { tier: Tier::Global },
            Some(Trap::LockMisuse),
        ),
        (
            2,
            StateKind::Unlock { tier: Tier::Local },
            Some(Trap::BadKey),
        ),
    ];
    for (place, kind, trap) in cases {
        assert_eq!(rt; refusal(place, kind, &known), trap);
    }
    Ok(())
}

#[test]
fn what_is_known_at_first(rt: HostRuntime) -> Result<(), Fail> {
    let mut known = Known::new();
    known.saw(31);
    assert!(rt; known.at(31).present);
    assert!(rt; !known.at(30).present);
    known.clear();
    assert!(rt; !known.at(31).present);
    known.unlocked(3, false);
    assert_eq!(rt; (known.mappings(), known.locks()), (0, 0));
    assert_eq!(rt; known.next_lock(), None);
    Ok(())
}

fn begun(ask: HostAsk, grants: &Grants, known: &Known) -> Result<StateCall, Trap>
    requires high { ask.call ≤ 15 }
    requires small { AreSmall ask.args }
    requires asked { (h : HostCall) × AsksHost ask h × HasShort h }
    requires few { length grants.now ≤ 32 }
    requires nothing { (present : List ℕ) × Keeps known.now present [] [] }
    ensures fresh { IfOk result (λ c. IsFresh c.stage (length grants.now) known.now) }
    ensures other { IfOk result (λ c. AsksHost ask (set_state 0 4 65535 2) → maps c.stage ≡ true → ⊥) }
{
    StateCall::begin(ask, grants, known)
}

/// What the first step of a call comes to, over a private page, and how many pages there are then.
fn first_step(
    alloc: Global,
    mut call: StateCall,
    grants: &Grants,
    known: &mut Known,
) -> Result<(StateStep, u32), Fail>
    requires fresh { IsFresh call.stage (length grants.now) known.old }
    requires few { length grants.now ≤ 32 }
    requires sizes { All (λ g. 1 ≤ g.size) grants.now }
    requires nothing { known.old.mappings ≡ 0 }
{
    let mut pages = PrivatePages::with_room(alloc, 1)?;
    let _ = pages.grow(1);
    let memory = SegmentedMemory::new(alloc, pages)?;
    let room = Room {
        globals: 0,
        table: 0,
    };
    match Machine::new(alloc, memory, room) {
        Ok(mut machine) => {
            let told = call.step(None, grants, known, &mut machine);
            Ok((told, machine.memory_mut().pages()))
        }
        Err(_) => Err(Fail::new("no memory")),
    }
}

#[test]
fn a_key_is_mapped_behind_all_pages(rt: HostRuntime) -> Result<(), Fail> {
    let alloc = rt.alloc();
    let grants = Grants::of(vec![in alloc; GRANTS[0], GRANTS[1]]?);
    let mut known = Known::new();
    known.saw(1);
    let ask = HostAsk {
        call: 2,
        args: [1, 0, 0, 0],
    };
    match begun(ask, &grants, &known) {
        Ok(call) => {
            let told = first_step(alloc, call, &grants, &mut known)?;
            assert_eq!(rt; told, (StateStep::Done(Some(65_536)), 3));
            assert_eq!(rt; known.at(1).address, Some(65_536));
            Ok(())
        }
        Err(_) => Err(Fail::new("refused")),
    }
}

/// What the first step of a call comes to, over a private page and one of the replica at place 0.
fn step_at_border(
    alloc: Global,
    mut call: StateCall,
    grants: &Grants,
    known: &mut Known,
) -> Result<StateStep, Fail>
    requires fresh { IsFresh call.stage (length grants.now) known.old }
    requires few { length grants.now ≤ 32 }
    requires sizes { All (λ g. 1 ≤ g.size) grants.now }
    requires other { maps call.stage ≡ true → ⊥ }
{
    let mut pages = PrivatePages::with_room(alloc, 1)?;
    let _ = pages.grow(1);
    let mut memory = SegmentedMemory::new(alloc, pages)?;
    let _ = memory.map(0, 1);
    let room = Room {
        globals: 0,
        table: 0,
    };
    match Machine::new(alloc, memory, room) {
        Ok(mut machine) => Ok(call.step(None, grants, known, &mut machine)),
        Err(_) => Err(Fail::new("no memory")),
    }
}

#[test]
fn bytes_to_set_are_read_over_a_border(rt: HostRuntime) -> Result<(), Fail> {
    let alloc = rt.alloc();
    let grants = Grants::of(vec![in alloc; GRANTS[0], GRANTS[1]]?);
    let mut known = Known::new();
    let ask = HostAsk {
        call: 4,
        args: [0, 4, 65_535, 2],
    };
    match begun(ask, &grants, &known) {
        Ok(call) => {
            let piece = Ask::Region {
                channel: Channel::Local(5),
                op: AskOp::Read { off: 0, len: 1 },
            };
            let told = step_at_border(alloc, call, &grants, &mut known)?;
            assert_eq!(rt; told, StateStep::Ask(piece));
            Ok(())
        }
        Err(_) => Err(Fail::new("refused")),
    }
}
