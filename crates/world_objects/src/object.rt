//! One replica or one global value.

ghost use Rattle.std.specs.Prelude.{◌≡◌, ◌≤◌, ◌+◌, [], None, Some, IfOk, OnErr, OnOk, length};
ghost use Rattle.faaslet_meaning.specs.Asks.{reply_of};
ghost use Rattle.faaslet_meaning.specs.Region.{after, blocked_by, blocker, global_value, replica, reply};
ghost use Rattle.session_meaning.specs.Trail.{mark};
ghost use Rattle.shared_region.specs.Moves.{global_part, local_part, move_blocker, moved, MoveFits};
ghost use Rattle.shared_region.specs.Operations as region_op;
ghost use Rattle.shared_region.specs.Operations.{laid};
ghost use Rattle.shared_region.specs.Shared.{held_in};
ghost use Rattle.state_locks.specs.Locks.{kind_of};
ghost use Rattle.world_objects.specs.Kept.{applied};
ghost use Rattle.world_objects.specs.Asked.{asked_kind, Carries, Fits, HasRoom, lock_count, moved_length, operation};

use faaslet_meaning::{AskOp, Move, RegionOp, Reply};
use session_meaning::Mark;
use shared_region::Region;
use state_locks::LockKind;
use std::alloc::{AllocError, Global};
use std::marker::Model;

/// A region with its trail. At most so many locks are held.
#[derive(Drop)]
pub(crate) struct Object {
    region: Region,
    trail: Vec<Mark>,
    locks: u32,
}

impl Model for Object {
    ghost use Rattle.std.specs.Prelude.{◌≤◌};
    ghost use Rattle.shared_region.specs.Shared.{held_in};
    ghost use Rattle.world_objects.specs.Kept.{Kept};

    ghost Value = { Kept };

    ghost view = { λ o. record { region = o.region.region; trail = o.trail.items } };

    ghost invariant = { λ o. held_in o.region ≤ o.locks };
}

impl Object {
    pub(crate) fn local(alloc: Global, size: u32) -> Result<Object, AllocError>
        ensures { IfOk result (λ o. o ≡ record { region = replica size; trail = [] }) }
    {
        Ok(Object {
            region: Region::local(alloc, size, 0)?,
            trail: Vec::new(alloc),
            locks: 0,
        })
    }

    pub(crate) fn global(alloc: Global, size: u32, init: &[u8]) -> Result<Object, AllocError>
        requires { length init.now ≤ size }
        ensures { IfOk result (λ o. o ≡ record { region = global_value size init.now; trail = [] }) }
    {
        Ok(Object {
            region: Region::global(alloc, size, init, 0)?,
            trail: Vec::new(alloc),
            locks: 0,
        })
    }

    pub(crate) fn bytes(&self) -> &[u8]
        ensures { result.now ≡ self.now.region.bytes }
    {
        self.region.bytes()
    }

    pub(crate) fn trail(&self) -> &[Mark]
        ensures { result.now ≡ self.now.trail }
    {
        &self.trail
    }

    /// The least other holder of a lock that an operation of this kind can't stand beside.
    pub(crate) fn blocked_by(&self, maker: u32, kind: LockKind) -> Option<u32>
        ensures { result ≡ blocker self.now.region maker (kind_of kind) }
    {
        self.region.blocked_by(maker, kind)
    }

    /// The least other holder of a lock that blocks an operation.
    pub(crate) fn holder(&self, maker: u32, op: AskOp) -> Option<u32>
        ensures { result ≡ blocker self.now.region maker (asked_kind op) }
    {
        match op {
            AskOp::Probe | AskOp::Read { .. } | AskOp::Size | AskOp::LockRead => {
                self.blocked_by(maker, LockKind::Reads)
            }
            AskOp::Write { .. } | AskOp::Append { .. } | AskOp::LockWrite => {
                self.blocked_by(maker, LockKind::Writes)
            }
            AskOp::Unlock => None,
        }
    }

    #[tactic(auto, using(crate::proofs::Sizes::size_after))]
    /// An operation that nobody blocks. The bytes that it carries are the first of the scratch, and bytes that are
    /// read come there.
    pub(crate) fn apply(
        &mut self,
        maker: u32,
        op: AskOp,
        scratch: &mut [u8],
    ) -> Result<Reply, AllocError>
        requires fits { Fits self.old.region op (length scratch.old) }
        requires free { blocker self.old.region maker (asked_kind op) ≡ None }
        ensures after { OnOk result (self.new ≡ applied maker (operation op scratch.old) self.old) }
        ensures reply { IfOk result (λ answer. reply_of answer scratch.new
            ≡ Some (reply self.old.region maker (operation op scratch.old))) }
        ensures scratch { OnOk result (scratch.new
            ≡ laid (reply self.old.region maker (operation op scratch.old)) scratch.old) }
        ensures want { OnErr result ((self.new ≡ self.old) × (scratch.new ≡ scratch.old)) }
        ensures size { self.new.region.size ≡ self.old.region.size }
    {
        self.locks = make_room(&mut self.region, self.locks, op)?;
        self.trail.push(mark_of(maker, op))?;
        Ok(perform(&mut self.region, maker, op, scratch))
    }

    #[tactic(auto, using(crate::proofs::Sizes::size_after))]
    /// Both operations of a move that nobody blocks.
    pub(crate) fn move_between(
        local: &mut Object,
        global: &mut Object,
        maker: u32,
        kind: Move,
    ) -> Result<(), AllocError>
        requires one_size { local.old.region.size ≡ global.old.region.size }
        requires fits { MoveFits kind local.old.region.size }
        requires free { move_blocker local.old.region global.old.region maker kind ≡ None }
        ensures local { OnOk result (local.new ≡ applied maker
            (local_part kind (moved local.old.region global.old.region kind)) local.old) }
        ensures global { OnOk result (global.new ≡ applied maker
            (global_part kind global.old.region.size (moved local.old.region global.old.region kind)) global.old) }
        ensures want { OnErr result ((local.new ≡ local.old) × (global.new ≡ global.old)) }
        ensures long { OnOk result (length (moved local.old.region global.old.region kind)
            ≡ moved_length kind global.old.region.size) }
        ensures local_size { local.new.region.size ≡ local.old.region.size }
        ensures global_size { global.new.region.size ≡ global.old.region.size }
    {
        let size = local.region.size();
        prove_eq!(size, global.region.size());
        local.trail.reserve(1)?;
        global.trail.push(global_mark(maker, kind, size))?;
        local.trail.push_reserved(local_mark(maker, kind, size));
        match Region::move_between(&mut local.region, &mut global.region, maker, kind) {
            Ok(()) => Ok(()),
            Err(_) => unreachable!(),
        }
    }
}

/// Makes room for one more holder where the operation locks. Of those that hold a lock then there are at most as many
/// as is answered.
fn make_room(region: &mut Region, locks: u32, op: AskOp) -> Result<u32, AllocError>
    requires { held_in region.old ≤ locks }
    ensures same { region.new.region ≡ region.old.region }
    ensures count { IfOk result (λ n. held_in region.old + lock_count op ≤ n) }
    ensures room { OnOk result (HasRoom op region.new) }
{
    match op {
        AskOp::LockRead | AskOp::LockWrite => {
            let room = locks.checked_add(1).ok_or(AllocError)?;
            region.reserve(room)?;
            Ok(room)
        }
        _ => Ok(locks),
    }
}

/// An operation that nobody blocks, on the region.
fn perform(region: &mut Region, maker: u32, op: AskOp, scratch: &mut [u8]) -> Reply
    requires fits { Fits region.old.region op (length scratch.old) }
    requires free { blocker region.old.region maker (asked_kind op) ≡ None }
    requires room { HasRoom op region.old }
    ensures after { region.new ≡ record region.old { region = after region.old.region maker (operation op scratch.old) } }
    ensures reply { reply_of result scratch.new ≡ Some (reply region.old.region maker (operation op scratch.old)) }
    ensures scratch { scratch.new ≡ laid (reply region.old.region maker (operation op scratch.old)) scratch.old }
{
    match op {
        AskOp::Probe => make(region, maker, &RegionOp::Probe, scratch),
        AskOp::Read { off, len } => make(region, maker, &RegionOp::Read { off, len }, scratch),
        AskOp::Write { off, len } => {
            let bytes = &scratch[..len as usize];
            make(region, maker, &RegionOp::Write { off, bytes }, &mut [])
        }
        AskOp::Append { len } => {
            let bytes = &scratch[..len as usize];
            make(region, maker, &RegionOp::Append { bytes }, &mut [])
        }
        AskOp::Size => make(region, maker, &RegionOp::Size, scratch),
        AskOp::LockRead => make(region, maker, &RegionOp::LockRead, scratch),
        AskOp::LockWrite => make(region, maker, &RegionOp::LockWrite, scratch),
        AskOp::Unlock => make(region, maker, &RegionOp::Unlock, scratch),
    }
}

fn make(region: &mut Region, maker: u32, op: &RegionOp, scratch: &mut [u8]) -> Reply
    requires fits { region_op.Fits region.old op.now (length scratch.old) }
    requires free { blocked_by region.old.region maker (region_op.operation_of op.now) ≡ None }
    ensures after { region.new ≡ record region.old {
      region = after region.old.region maker (region_op.operation_of op.now);
    } }
    ensures reply { reply_of result scratch.new ≡ Some (reply region.old.region maker (region_op.operation_of op.now)) }
    ensures scratch { scratch.new ≡ laid (reply region.old.region maker (region_op.operation_of op.now)) scratch.old }
{
    match region.apply(maker, op, scratch) {
        Ok(answer) => answer,
        Err(_) => unreachable!(),
    }
}

/// The rows are those of the operations in their order: probe, read, send, size, fill, write, take, put, append,
/// lock_read, lock_write, unlock.
fn mark_of(maker: u32, op: AskOp) -> Mark
    ensures { (scratch : _) → Carries op (length scratch) → result ≡ mark (maker, operation op scratch) }
{
    match op {
        AskOp::Probe => row(maker, 0, 0, 0),
        AskOp::Read { off, len } => row(maker, 1, off, len),
        AskOp::Size => row(maker, 3, 0, 0),
        AskOp::Write { off, len } => row(maker, 5, off, len),
        AskOp::Append { len } => row(maker, 8, 0, len),
        AskOp::LockRead => row(maker, 9, 0, 0),
        AskOp::LockWrite => row(maker, 10, 0, 0),
        AskOp::Unlock => row(maker, 11, 0, 0),
    }
}

fn local_mark(maker: u32, kind: Move, size: u32) -> Mark
    ensures { (bytes : _) → length bytes ≡ moved_length kind size → result ≡ mark (maker, local_part kind bytes) }
{
    match kind {
        Move::Fill => row(maker, 4, 0, size),
        Move::Pull { off, len } => row(maker, 6, off, len),
        Move::Push { off, len } => row(maker, 2, off, len),
    }
}

fn global_mark(maker: u32, kind: Move, size: u32) -> Mark
    ensures { (bytes : _) → length bytes ≡ moved_length kind size
        → result ≡ mark (maker, global_part kind size bytes) }
{
    match kind {
        Move::Fill => row(maker, 2, 0, size),
        Move::Pull { off, len } => row(maker, 2, off, len),
        Move::Push { off, len } => row(maker, 7, off, len),
    }
}

fn row(maker: u32, row: u32, off: u32, len: u32) -> Mark
    ensures { result ≡ record { maker = maker; row = row; off = off; len = len } }
{
    Mark {
        maker,
        row,
        off,
        len,
    }
}
