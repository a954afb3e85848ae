use super::*;
use faaslet_meaning::{Ask, AskOp, Channel, Move, Reply};
use std::test::*;

#[test]
fn what_was_written_is_pushed(rt: HostRuntime) {
    let Some(Ends { replica, global }) = fill_write_push(&rt, rt.alloc()) else {
        panic!(rt; "no memory");
    };
    assert!(rt; replica.0.bytes().starts_with(&[9, 2]));
    assert!(rt; global.0.bytes() == [9, 2].as_slice());
}

#[test]
fn locks_are_taken_and_left(rt: HostRuntime) {
    let done = Some((Reply::Done, Reply::Done));
    assert!(rt; lock_once(&rt, rt.alloc(), Channel::Local(0), AskOp::LockRead) == done);
    assert!(rt; lock_once(&rt, rt.alloc(), Channel::Global(0), AskOp::LockWrite) == done);
}

fn here(op: AskOp) -> Ask {
    Ask::Region {
        channel: Channel::Local(0),
        op,
    }
}

fn there(op: AskOp) -> Ask {
    Ask::Region {
        channel: Channel::Global(0),
        op,
    }
}

fn moves(kind: Move) -> Ask {
    Ask::Move { key: 0, kind }
}

fn told(reply: Reply, scratch: [u8; 2]) -> Told {
    Told { reply, scratch }
}

#[test]
fn each_ask_is_answered(rt: HostRuntime) {
    let asks = [
        here(AskOp::Probe),
        moves(Move::Fill),
        here(AskOp::Probe),
        here(AskOp::Read { off: 0, len: 2 }),
        here(AskOp::Write { off: 1, len: 1 }),
        moves(Move::Push { off: 1, len: 1 }),
        there(AskOp::Read { off: 0, len: 2 }),
        there(AskOp::Write { off: 0, len: 2 }),
        there(AskOp::Size),
        moves(Move::Pull { off: 0, len: 1 }),
        here(AskOp::Read { off: 0, len: 2 }),
        here(AskOp::Size),
        here(AskOp::Append { len: 1 }),
        here(AskOp::Append { len: 2 }),
        there(AskOp::Append { len: 1 }),
        here(AskOp::LockRead),
    ];
    let answers = [
        told(Reply::Present(false), [5, 6]),
        told(Reply::Done, [5, 6]),
        told(Reply::Present(true), [5, 6]),
        told(Reply::Bytes(2), [1, 2]),
        told(Reply::Done, [5, 6]),
        told(Reply::Done, [5, 6]),
        told(Reply::Bytes(2), [1, 5]),
        told(Reply::Done, [5, 6]),
        told(Reply::Number(2), [5, 6]),
        told(Reply::Done, [5, 6]),
        told(Reply::Bytes(2), [5, 5]),
        told(Reply::Number(0), [5, 6]),
        told(Reply::Number(0), [5, 6]),
        told(Reply::Full, [5, 6]),
        told(Reply::Full, [5, 6]),
    ];
    let Some(found) = serve_each(&rt, rt.alloc(), asks.as_slice()) else {
        panic!(rt; "no memory");
    };
    assert!(rt; found.as_slice() == answers.as_slice());
}
