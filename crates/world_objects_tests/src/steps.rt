//! Questions one after the other, with answers, trails and values worked out by hand.

ghost use Rattle.std.specs.Prelude.{◌≡◌, ◌&&◌, nat_lt, OnOk, IfOk, IsTrue};
ghost use Rattle.world_objects_tests.specs.Ready as ready;
ghost use Rattle.world_objects_tests.specs.Ready.{Ready};

use crate::suits::{is_object, suits};
use faaslet_meaning::{Ask, AskOp, Channel, Move, Reply};
use session_meaning::Mark;
use std::alloc::{AllocError, Global};
use std::test::Fail;
use world_objects::{Held, KeyStart, Objects};

const LOCAL: Channel = Channel::Local(0);

const GLOBAL: Channel = Channel::Global(0);

const PROBE: Ask = Ask::Region {
    channel: LOCAL,
    op: AskOp::Probe,
};

const FILL: Ask = Ask::Move {
    key: 0,
    kind: Move::Fill,
};

const SIZE: Ask = Ask::Region {
    channel: GLOBAL,
    op: AskOp::Size,
};

/// A question of a call at a host with what it carries, what it is answered or which lock keeps it back, and the
/// scratch behind it.
type Step = (u32, u32, Ask, [u8; 4], Result<Reply, Held>, [u8; 4]);

fn on(channel: Channel, op: AskOp) -> Ask {
    Ask::Region { channel, op }
}

fn moving(kind: Move) -> Ask {
    Ask::Move { key: 0, kind }
}

fn held(channel: Channel, holder: u32) -> Result<Reply, Held> {
    Err(Held { channel, holder })
}

/// What two calls at host 0 ask of the replica and of the global value, which begins as 1 2 0 0.
fn at_the_first_host() -> [Step; 9] {
    [
        (5, 0, PROBE, [0; 4], Ok(Reply::Present(false)), [0; 4]),
        (5, 0, FILL, [0; 4], Ok(Reply::Done), [0; 4]),
        (
            5,
            0,
            on(LOCAL, AskOp::Read { off: 0, len: 3 }),
            [9; 4],
            Ok(Reply::Bytes(3)),
            [1, 2, 0, 9],
        ),
        (
            5,
            0,
            on(LOCAL, AskOp::LockWrite),
            [0; 4],
            Ok(Reply::Done),
            [0; 4],
        ),
        (6, 0, PROBE, [0; 4], held(LOCAL, 5), [0; 4]),
        (
            6,
            0,
            moving(Move::Pull { off: 1, len: 2 }),
            [0; 4],
            held(LOCAL, 5),
            [0; 4],
        ),
        (
            5,
            0,
            on(LOCAL, AskOp::Write { off: 1, len: 2 }),
            [7, 8, 9, 9],
            Ok(Reply::Done),
            [7, 8, 9, 9],
        ),
        (
            5,
            0,
            moving(Move::Push { off: 1, len: 3 }),
            [0; 4],
            Ok(Reply::Done),
            [0; 4],
        ),
        (
            5,
            0,
            on(LOCAL, AskOp::Unlock),
            [0; 4],
            Ok(Reply::Done),
            [0; 4],
        ),
    ]
}

/// What calls at both hosts ask of the global value behind that, which is 1 7 8 0 then, of which 2 are used.
fn at_both_hosts() -> [Step; 11] {
    [
        (
            7,
            1,
            on(GLOBAL, AskOp::LockRead),
            [0; 4],
            Ok(Reply::Done),
            [0; 4],
        ),
        (
            6,
            0,
            on(GLOBAL, AskOp::LockRead),
            [0; 4],
            Ok(Reply::Done),
            [0; 4],
        ),
        (
            5,
            0,
            on(GLOBAL, AskOp::Append { len: 1 }),
            [4; 4],
            held(GLOBAL, 6),
            [4; 4],
        ),
        (
            5,
            0,
            moving(Move::Push { off: 0, len: 1 }),
            [0; 4],
            held(GLOBAL, 6),
            [0; 4],
        ),
        (
            6,
            0,
            on(GLOBAL, AskOp::Unlock),
            [0; 4],
            Ok(Reply::Done),
            [0; 4],
        ),
        (
            7,
            1,
            on(GLOBAL, AskOp::Append { len: 2 }),
            [3, 4, 5, 6],
            Ok(Reply::Number(2)),
            [3, 4, 5, 6],
        ),
        (
            7,
            1,
            on(GLOBAL, AskOp::Append { len: 1 }),
            [5; 4],
            Ok(Reply::Full),
            [5; 4],
        ),
        (7, 1, SIZE, [0; 4], Ok(Reply::Number(4)), [0; 4]),
        (
            7,
            1,
            moving(Move::Pull { off: 2, len: 2 }),
            [0; 4],
            Ok(Reply::Done),
            [0; 4],
        ),
        (
            7,
            1,
            on(LOCAL, AskOp::Read { off: 1, len: 3 }),
            [9; 4],
            Ok(Reply::Bytes(3)),
            [0, 3, 4, 9],
        ),
        (7, 1, PROBE, [0; 4], Ok(Reply::Present(false)), [0; 4]),
    ]
}

/// The lock that keeps a call from a question, or what it is answered; nothing where there is no memory or the question
/// does not suit.
fn answer(
    objects: &mut Objects,
    call: u32,
    host: u32,
    ask: &Ask,
    scratch: &mut [u8],
) -> Option<Result<Reply, Held>>
    requires { Ready objects.old }
    ensures { Ready objects.new }
{
    if !suits(host, ask, scratch.len()) {
        return None;
    }
    match objects.held(call, host, ask) {
        Some(held) => Some(Err(held)),
        None => match objects.serve(call, host, ask, scratch) {
            Ok(reply) => Some(Ok(reply)),
            Err(_) => None,
        },
    }
}

/// Whether a step goes as it says.
fn goes(objects: &mut Objects, step: &Step) -> bool
    requires { Ready objects.old }
    ensures { Ready objects.new }
{
    let (call, host, ask, carried, expected, after) = *step;
    let mut scratch = carried;
    let told = answer(objects, call, host, &ask, &mut scratch);
    told == Some(expected) && scratch == after
}

/// Whether each step goes as it says.
fn go(objects: &mut Objects, steps: &[Step]) -> bool
    requires { Ready objects.old }
    ensures { Ready objects.new }
{
    for step in steps {
        if !goes(objects, step) {
            return false;
        }
    }
    true
}

/// Whether the trail of an object has these rows: maker, operation, where it begins, and how long it is.
fn has_trail(objects: &Objects, host: u32, channel: Channel, rows: &[(u32, u32, u32, u32)]) -> bool
    requires { Ready objects.now }
{
    if !is_object(host, channel) {
        return false;
    }
    let trail = objects.trail(host, channel);
    trail.len() == rows.len()
        && trail.iter().zip(rows).all(|(mark, row)| (mark.maker, mark.row, mark.off, mark.len)
            == *row)
}

fn is_value(objects: &Objects, bytes: &[u8]) -> bool
    requires { Ready objects.now }
{
    objects.value(0) == bytes
}

/// Those of two hosts and one key of 4 bytes that begin with 1 and 2.
fn made(alloc: Global) -> Result<Objects, AllocError>
    ensures { IfOk result Ready }
{
    let init = [1, 2];
    Objects::new(
        alloc,
        2,
        &[KeyStart {
            size: 4,
            init: &init,
        }],
    )
}

#[test]
fn questions_are_served_one_after_the_other(rt: HostRuntime) -> Result<(), Fail> {
    let mut objects = made(rt.alloc())?;
    assert!(rt; is_value(&objects, &[1, 2, 0, 0]));
    assert!(rt; go(&mut objects, &at_the_first_host()));
    assert!(rt; is_value(&objects, &[1, 7, 8, 0]));
    assert!(rt; go(&mut objects, &at_both_hosts()));
    assert!(rt; is_value(&objects, &[1, 7, 3, 4]));
    assert!(rt;
        has_trail(
            &objects,
            0,
            LOCAL,
            &[
                (5, 0, 0, 0),
                (5, 4, 0, 4),
                (5, 1, 0, 3),
                (5, 10, 0, 0),
                (5, 5, 1, 2),
                (5, 2, 1, 3),
                (5, 11, 0, 0),
            ]
        )
    );
    assert!(rt;
        has_trail(
            &objects,
            1,
            LOCAL,
            &[(7, 6, 2, 2), (7, 1, 1, 3), (7, 0, 0, 0)]
        )
    );
    assert!(rt;
        has_trail(
            &objects,
            0,
            GLOBAL,
            &[
                (5, 2, 0, 4),
                (5, 7, 1, 3),
                (7, 9, 0, 0),
                (6, 9, 0, 0),
                (6, 11, 0, 0),
                (7, 8, 0, 2),
                (7, 8, 0, 1),
                (7, 3, 0, 0),
                (7, 2, 2, 2),
            ]
        )
    );
    Ok(())
}
