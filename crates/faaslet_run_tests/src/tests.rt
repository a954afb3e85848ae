//! Calls with children, state and locks: each question with its bytes, and what a call comes to, worked out by hand.

ghost use Rattle.std.specs.Prelude.{◌≤◌, length};

use crate::calls::{Came, call_of, read};
use crate::modules::*;
use crate::rows::{Off, Served};
use faaslet_meaning::{Ask, AskOp, Channel, Move, Outcome, Reply, Trap};
use std::alloc::{AllocError, Global};
use std::test::Fail;

/// The header of a module.
const HEADER: [u8; 8] = [0x00, 0x61, 0x73, 0x6D, 0x01, 0x00, 0x00, 0x00];

/// The replica and the global value of the key that may be written.
const LOCAL: Channel = Channel::Local(5);

const GLOBAL: Channel = Channel::Global(5);

/// And of the one that may be read.
const OTHER_LOCAL: Channel = Channel::Local(2);

const OTHER_GLOBAL: Channel = Channel::Global(2);

/// The module of these sections.
fn module(alloc: Global, sections: &[&str]) -> Result<Vec<u8>, AllocError> {
    let mut bytes = Vec::from_slice(alloc, &HEADER)?;
    for section in sections {
        match hex::decode(alloc, *section) {
            Ok(section) => bytes.extend_from_slice(&section)?,
            Err(_) => return Err(AllocError),
        }
    }
    Ok(bytes)
}

/// What a call of the module comes to.
fn call(alloc: Global, sections: &[&str], fuel: u64, rows: &[Served<'_>]) -> Result<Came, Off> {
    let bytes = module(alloc, sections)?;
    match read(alloc, &bytes) {
        Some(module) => call_of(alloc, &module, fuel, rows),
        None => Err(Off::Nothing),
    }
}

/// Whether it came to this outcome and output, with so much fuel used, and so many entries on each of its channels.
fn is(
    came: &Result<Came, Off>,
    outcome: Outcome,
    output: &[u8],
    used: u64,
    counts: [u64; 5],
) -> bool {
    match came {
        Ok(came) => {
            came.outcome == outcome
                && came.output.as_slice() == output
                && came.used == used
                && came.counts.as_slice() == counts.as_slice()
        }
        Err(_) => false,
    }
}

/// A question on a region that carries no bytes, and a reply without bytes.
fn on(channel: Channel, op: AskOp, reply: Reply) -> Served<'static> {
    told(Ask::Region { channel, op }, &[], reply, &[])
}

fn told<'b>(ask: Ask, carried: &'b [u8], reply: Reply, bytes: &'b [u8]) -> Served<'b> {
    Served {
        ask,
        carried,
        reply,
        bytes,
    }
}

fn looks(child: u32, outcome: Outcome, output: &[u8]) -> Served<'_>
    requires { length output.now ≤ 65536 }
{
    let len = output.len() as u32;
    told(
        Ask::Look { child },
        &[],
        Reply::Finished { outcome, len },
        output,
    )
}

fn submits<'b>(function: u32, input: &'b [u8], reply: Reply) -> Served<'b>
    requires { length input.now ≤ 65536 }
{
    let len = input.len() as u32;
    told(Ask::Submit { function, len }, input, reply, &[])
}

#[test]
fn a_child_is_awaited_and_its_output_read(rt: HostRuntime) -> Result<(), Fail> {
    let alloc = rt.alloc();
    let rows = [
        submits(1, b"abc", Reply::Child(0)),
        looks(0, Outcome::Done(42), b"hello!"),
        looks(0, Outcome::Done(42), b"hello!"),
    ];
    let came = call(alloc, CHAINED, 100, &rows);
    let due = is(&came, Outcome::Done(42), b"ello", 14, [0, 0, 0, 0, 3]);
    assert!(rt; due, "{came:?}");
    Ok(())
}

#[test]
fn children_are_known_by_their_order(rt: HostRuntime) -> Result<(), Fail> {
    let alloc = rt.alloc();
    let rows = [
        submits(0, b"", Reply::Child(0)),
        submits(1, b"z", Reply::Child(1)),
        looks(1, Outcome::Done(30), b"12345"),
        looks(0, Outcome::Done(12), b""),
    ];
    let came = call(alloc, TWO, 100, &rows);
    let due = is(&came, Outcome::Done(47), b"", 18, [0, 0, 0, 0, 4]);
    assert!(rt; due, "{came:?}");
    Ok(())
}

#[test]
fn how_children_end(rt: HostRuntime) -> Result<(), Fail> {
    let alloc = rt.alloc();
    let cases = [
        (Outcome::Done(-1), 0),
        (Outcome::Trap(Trap::Denied), 1),
        (Outcome::FuelOut, 2),
        (Outcome::Want, 4),
    ];
    for (outcome, status) in cases {
        let rows = [submits(0, b"", Reply::Child(0)), looks(0, outcome, b"")];
        let came = call(alloc, TRAPPED, 100, &rows);
        let due = is(&came, Outcome::Done(status), b"", 8, [0, 0, 0, 0, 2]);
        assert!(rt; due, "{outcome:?}: {came:?}");
    }
    Ok(())
}

#[test]
fn no_child(rt: HostRuntime) -> Result<(), Fail> {
    let alloc = rt.alloc();
    let full = Outcome::Trap(Trap::ChainFull);
    for (reply, outcome, entries) in [
        (Reply::ChainFull, full, 1),
        (Reply::Want, Outcome::Want, 0),
    ] {
        let came = call(alloc, SUBMITS, 100, &[submits(0, b"", reply)]);
        let due = is(&came, outcome, b"", 4, [0, 0, 0, 0, entries]);
        assert!(rt; due, "{came:?}");
    }
    Ok(())
}

#[test]
fn a_mapped_key_is_stored_to_and_loaded(rt: HostRuntime) -> Result<(), Fail> {
    let alloc = rt.alloc();
    let fill = Ask::Move {
        key: 5,
        kind: Move::Fill,
    };
    let write = Ask::Region {
        channel: LOCAL,
        op: AskOp::Write { off: 4, len: 4 },
    };
    let read = Ask::Region {
        channel: LOCAL,
        op: AskOp::Read { off: 2, len: 4 },
    };
    let mut replica = [0x10, 0x11, 0x12, 0x13, 0x14, 0x15, 0x16, 0x17];
    replica[4..].copy_from_slice(&[1, 2, 3, 4]);
    let rows = [
        on(LOCAL, AskOp::Probe, Reply::Present(false)),
        told(fill, &[], Reply::Done, &[]),
        told(write, &[1, 2, 3, 4], Reply::Done, &[]),
        told(read, &[], Reply::Bytes(4), &replica[2..6]),
    ];
    let came = call(alloc, SHARED, 100, &rows);
    let due = is(&came, Outcome::Done(0x0201_1312), b"", 8, [4, 1, 0, 0, 0]);
    assert!(rt; due, "{came:?}");
    Ok(())
}

#[test]
fn an_access_spans_private_and_shared_bytes(rt: HostRuntime) -> Result<(), Fail> {
    let alloc = rt.alloc();
    let write = Ask::Region {
        channel: LOCAL,
        op: AskOp::Write { off: 0, len: 5 },
    };
    let read = Ask::Region {
        channel: LOCAL,
        op: AskOp::Read { off: 0, len: 1 },
    };
    let rows = [
        on(LOCAL, AskOp::Probe, Reply::Present(true)),
        told(write, &[4, 5, 6, 7, 8], Reply::Done, &[]),
        told(read, &[], Reply::Bytes(1), &[4]),
    ];
    let came = call(alloc, SPANS, 100, &rows);
    let due = is(&came, Outcome::Done(0x0403_0201), b"", 8, [3, 0, 0, 0, 0]);
    assert!(rt; due, "{came:?}");
    Ok(())
}

#[test]
fn state_is_written_pushed_read_and_appended(rt: HostRuntime) -> Result<(), Fail> {
    let alloc = rt.alloc();
    let write = Ask::Region {
        channel: LOCAL,
        op: AskOp::Write { off: 10, len: 3 },
    };
    let push = Ask::Move {
        key: 5,
        kind: Move::Push { off: 10, len: 3 },
    };
    let read = Ask::Region {
        channel: LOCAL,
        op: AskOp::Read { off: 9, len: 5 },
    };
    let append = Ask::Region {
        channel: GLOBAL,
        op: AskOp::Append { len: 2 },
    };
    let rows = [
        on(LOCAL, AskOp::Probe, Reply::Present(true)),
        told(write, b"abc", Reply::Done, &[]),
        told(push, &[], Reply::Done, &[]),
        told(read, &[], Reply::Bytes(5), b"-abc-"),
        told(append, b"ab", Reply::Number(12), &[]),
    ];
    let came = call(alloc, STATE, 100, &rows);
    let due = is(&came, Outcome::Done(12), b"-abc-", 21, [4, 2, 0, 0, 0]);
    assert!(rt; due, "{came:?}");
    Ok(())
}

#[test]
fn held_locks_are_released_at_the_end(rt: HostRuntime) -> Result<(), Fail> {
    let alloc = rt.alloc();
    let rows = [
        on(GLOBAL, AskOp::LockWrite, Reply::Done),
        on(OTHER_LOCAL, AskOp::LockRead, Reply::Done),
        on(LOCAL, AskOp::LockWrite, Reply::Done),
        on(LOCAL, AskOp::Unlock, Reply::Done),
        on(GLOBAL, AskOp::Unlock, Reply::Done),
        on(OTHER_LOCAL, AskOp::Unlock, Reply::Done),
    ];
    let came = call(alloc, LOCKS, 100, &rows);
    let due = is(&came, Outcome::Done(5), b"", 7, [2, 2, 2, 0, 0]);
    assert!(rt; due, "{came:?}");
    Ok(())
}

#[test]
fn a_held_lock_is_released_however_a_call_ends(rt: HostRuntime) -> Result<(), Fail> {
    let alloc = rt.alloc();
    let unreachable = Outcome::Trap(Trap::Unreachable);
    let bad_key = Outcome::Trap(Trap::BadKey);
    let cases = [
        (
            HOLD,
            GLOBAL,
            AskOp::LockWrite,
            unreachable,
            3,
            [0, 2, 0, 0, 0],
        ),
        (
            SPENDS,
            LOCAL,
            AskOp::LockRead,
            Outcome::FuelOut,
            10,
            [2, 0, 0, 0, 0],
        ),
        (
            BAD_MAP_HELD,
            OTHER_GLOBAL,
            AskOp::LockRead,
            bad_key,
            4,
            [0, 0, 0, 2, 0],
        ),
    ];
    for (sections, channel, lock, outcome, used, counts) in cases {
        let rows = [
            on(channel, lock, Reply::Done),
            on(channel, AskOp::Unlock, Reply::Done),
        ];
        let came = call(alloc, sections, 10, &rows);
        assert!(rt; is(&came, outcome, b"", used, counts), "{came:?}");
    }
    Ok(())
}

#[test]
fn what_is_refused(rt: HostRuntime) -> Result<(), Fail> {
    let alloc = rt.alloc();
    let bad_key = Outcome::Trap(Trap::BadKey);
    let denied = Outcome::Trap(Trap::Denied);
    let probed = [on(OTHER_LOCAL, AskOp::Probe, Reply::Present(true))];
    let came = call(alloc, BAD_MAP, 100, &[]);
    assert!(rt; is(&came, bad_key, b"", 2, [0, 0, 0, 0, 0]), "{came:?}");
    let came = call(alloc, DENIED, 100, &[]);
    assert!(rt; is(&came, denied, b"", 2, [0, 0, 0, 0, 0]), "{came:?}");
    let came = call(alloc, READ_ONLY, 100, &probed);
    assert!(rt; is(&came, denied, b"", 6, [0, 0, 1, 0, 0]), "{came:?}");
    Ok(())
}
