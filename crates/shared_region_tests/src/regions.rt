//! Operations on a region and moves between two, by hand from the table of operations.

ghost use Rattle.std.specs.Prelude.{◌≡◌, length, true};
ghost use Rattle.std.specs.Bool.{OnTrue};
ghost use Rattle.shared_region.specs.Operations.{Fits};
ghost use Rattle.shared_region.specs.Moves.{MoveFits};

use faaslet_meaning::{Move, RegionOp, Reply};
use shared_region::{MoveBlocked, Region};
use state_locks::{Blocked, LockKind};
use std::test::Fail;

/// Whether an operation's range lies in the region, and what it reads in so much scratch.
fn lies_in(region: &Region, op: &RegionOp, scratch: usize) -> bool
    ensures { OnTrue result (Fits region.now op.now scratch) }
{
    match *op {
        RegionOp::Read { off, len } => {
            off as usize + len as usize <= region.bytes().len() && len as usize <= scratch
        }
        RegionOp::Write { off, bytes } => {
            let length = region.bytes().len();
            bytes.len() <= length && off as usize <= length - bytes.len()
        }
        RegionOp::LockRead => false,
        RegionOp::Probe
        | RegionOp::Append { .. }
        | RegionOp::Size
        | RegionOp::LockWrite
        | RegionOp::Unlock => true,
    }
}

/// Whether each operation of a maker, one after the other, is answered so.
fn answers(
    region: &mut Region,
    cases: &[(u32, RegionOp, Result<Reply, Blocked>)],
    scratch: &mut [u8],
) -> bool {
    for (maker, op, answer) in cases {
        if !lies_in(region, op, scratch.len()) || region.apply(*maker, op, scratch) != *answer {
            return false;
        }
    }
    true
}

#[test]
fn operations_are_answered(rt: HostRuntime) -> Result<(), Fail> {
    let mut region = Region::global(rt.alloc(), 4, &[8, 9], 2)?;
    let mut scratch = [0; 4];
    assert!(rt;
        answers(
            &mut region,
            &[
                (1, RegionOp::Probe, Ok(Reply::Present(true))),
                (1, RegionOp::Size, Ok(Reply::Number(2))),
                (1, RegionOp::Append { bytes: &[7, 7, 7] }, Ok(Reply::Full)),
                (1, RegionOp::Append { bytes: &[7] }, Ok(Reply::Number(2))),
                (
                    1,
                    RegionOp::Write {
                        off: 0,
                        bytes: &[6]
                    },
                    Ok(Reply::Done)
                ),
                (1, RegionOp::LockWrite, Ok(Reply::Done)),
                (2, RegionOp::Size, Err(Blocked { holder: 1 })),
                (
                    2,
                    RegionOp::Append { bytes: &[] },
                    Err(Blocked { holder: 1 })
                ),
                (1, RegionOp::Unlock, Ok(Reply::Done)),
                (2, RegionOp::Read { off: 1, len: 3 }, Ok(Reply::Bytes(3))),
            ],
            &mut scratch
        )
    );
    assert!(rt; scratch == [9, 7, 0, 0]);
    assert!(rt; region.bytes() == [6, 9, 7, 0].as_slice());
    assert!(rt; (region.size(), region.used(), region.present()) == (4, 3, true));
    Ok(())
}

#[test]
fn read_locks_stand_beside_each_other(rt: HostRuntime) -> Result<(), Fail> {
    let mut region = Region::local(rt.alloc(), 5, 1)?;
    region.reserve(2)?;
    assert!(rt; region.apply(7, &RegionOp::LockRead, &mut []) == Ok(Reply::Done));
    assert!(rt; region.blocked_by(7, LockKind::Writes).is_none());
    assert!(rt; region.blocked_by(6, LockKind::Writes) == Some(7));
    assert!(rt; region.blocked_by(6, LockKind::Reads).is_none());
    assert!(rt; region.bytes().len() == 65_536);
    Ok(())
}

/// Whether both have one size, in which the range of a move lies.
fn suits(local: &Region, global: &Region, kind: Move) -> bool
    ensures { OnTrue result ((local.now.region.size ≡ global.now.region.size)
        × MoveFits kind local.now.region.size) }
{
    let size = local.size();
    if size != global.size() {
        return false;
    }
    match kind {
        Move::Fill => true,
        Move::Pull { off, len } | Move::Push { off, len } => len <= size && off <= size - len,
    }
}

/// Whether each move of a maker, one after the other, is answered so.
fn moves(
    local: &mut Region,
    global: &mut Region,
    cases: &[(u32, Move, Result<(), MoveBlocked>)],
) -> bool {
    for (maker, kind, answer) in cases {
        if !suits(local, global, *kind)
            || Region::move_between(local, global, *maker, *kind) != *answer
        {
            return false;
        }
    }
    true
}

#[test]
fn moves_copy_their_range(rt: HostRuntime) -> Result<(), Fail> {
    let mut local = Region::local(rt.alloc(), 4, 1)?;
    let mut first = Region::global(rt.alloc(), 4, &[1, 2, 3, 4], 1)?;
    let mut second = Region::global(rt.alloc(), 4, &[5, 6, 7, 8], 1)?;
    assert!(rt;
        moves(
            &mut local,
            &mut first,
            &[
                (1, Move::Push { off: 1, len: 2 }, Ok(())),
                (1, Move::Fill, Ok(()))
            ]
        )
    );
    assert!(rt; first.bytes() == [1, 0, 0, 4].as_slice());
    assert!(rt; local.bytes().starts_with(&[1, 0, 0, 4, 0]));
    assert!(rt;
        moves(
            &mut local,
            &mut second,
            &[
                (1, Move::Fill, Ok(())),
                (1, Move::Pull { off: 2, len: 2 }, Ok(()))
            ]
        )
    );
    assert!(rt; local.bytes().starts_with(&[1, 0, 7, 8, 0]));
    assert!(rt; local.present() && local.used() == 0);
    Ok(())
}

#[test]
fn a_move_is_blocked_on_either_side(rt: HostRuntime) -> Result<(), Fail> {
    let mut local = Region::local(rt.alloc(), 4, 1)?;
    let mut global = Region::global(rt.alloc(), 4, &[1], 1)?;
    assert!(rt; local.apply(6, &RegionOp::LockWrite, &mut []) == Ok(Reply::Done));
    assert!(rt; global.apply(5, &RegionOp::LockWrite, &mut []) == Ok(Reply::Done));
    let on_the_replica = Err(MoveBlocked {
        local: true,
        holder: 6,
    });
    let on_the_value = Err(MoveBlocked {
        local: false,
        holder: 5,
    });
    assert!(rt;
        moves(
            &mut local,
            &mut global,
            &[
                (1, Move::Fill, on_the_replica),
                (5, Move::Fill, on_the_replica),
                (6, Move::Fill, on_the_value)
            ]
        )
    );
    assert!(rt; !local.present());
    Ok(())
}
