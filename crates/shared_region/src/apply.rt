//! One operation on a region.

ghost use Rattle.std.specs.Prelude.{◌≡◌, ◌+◌, ◌≤◌, None, Some, IfOk, IfErr, is_ok, length, slice_range};
ghost use Rattle.faaslet_meaning.specs.Asks.{reply_of};
ghost use Rattle.faaslet_meaning.specs.Channels.RegionOperation.{append};
ghost use Rattle.faaslet_meaning.specs.Memory.{over};
ghost use Rattle.faaslet_meaning.specs.Region.{after, blocked_by, may, reply};
ghost use Rattle.faaslet_meaning.specs.Spelling.{spelled};
ghost use Rattle.state_locks.specs.Locks.{holder_of};
ghost use Rattle.shared_region.specs.Entries.{MakesShared, OwnLocks};
ghost use Rattle.shared_region.specs.Operations.{operation_of, Fits, laid};

use crate::region::{Region, write_at};
use faaslet_meaning::{RegionOp, Reply};
use state_locks::{Blocked, LockKind};

impl Region {
    /// One operation of a maker. Bytes that are read come to the front of the scratch.
    pub fn apply(&mut self, maker: u32, op: &RegionOp, scratch: &mut [u8]) -> Result<Reply, Blocked>
        requires fits { Fits self.old op.now (length scratch.old) }
        ensures may { is_ok result ≡ may self.old.region maker (operation_of op.now) }
        ensures blocked { holder_of result ≡ blocked_by self.old.region maker (operation_of op.now) }
        ensures refused { IfErr result (λ _. (self.new ≡ self.old) × (scratch.new ≡ scratch.old)) }
        ensures after { IfOk result (λ _. self.new
            ≡ record self.old { region = after self.old.region maker (operation_of op.now) }) }
        ensures reply { IfOk result (λ answer. reply_of answer scratch.new
            ≡ Some (reply self.old.region maker (operation_of op.now))) }
        ensures scratch { IfOk result (λ _. scratch.new
            ≡ laid (reply self.old.region maker (operation_of op.now)) scratch.old) }
        ensures entry { IfOk result (λ _. OwnLocks self.old.region maker (operation_of op.now)
            → MakesShared maker (spelled (operation_of op.now)) self.old self.new) }
    {
        if let Some(holder) = self.blocked(maker, op) {
            return Err(Blocked { holder });
        }
        Ok(self.perform(maker, op, scratch))
    }

    // The least other maker that blocks an operation.
    fn blocked(&self, maker: u32, op: &RegionOp) -> Option<u32>
        ensures { result ≡ blocked_by self.now.region maker (operation_of op.now) }
    {
        match op {
            RegionOp::Probe | RegionOp::Read { .. } | RegionOp::Size | RegionOp::LockRead => {
                self.blocked_by(maker, LockKind::Reads)
            }
            RegionOp::Write { .. } | RegionOp::Append { .. } | RegionOp::LockWrite => {
                self.blocked_by(maker, LockKind::Writes)
            }
            RegionOp::Unlock => None,
        }
    }

    // An operation that nobody blocks.
    fn perform(&mut self, maker: u32, op: &RegionOp, scratch: &mut [u8]) -> Reply
        requires fits { Fits self.old op.now (length scratch.old) }
        requires free { blocked_by self.old.region maker (operation_of op.now) ≡ None }
        ensures after { self.new ≡ record self.old { region = after self.old.region maker (operation_of op.now) } }
        ensures reply { reply_of result scratch.new ≡ Some (reply self.old.region maker (operation_of op.now)) }
        ensures scratch { scratch.new ≡ laid (reply self.old.region maker (operation_of op.now)) scratch.old }
    {
        match *op {
            RegionOp::Probe => Reply::Present(self.present()),
            RegionOp::Read { off, len } => {
                self.read(off, len, scratch);
                Reply::Bytes(len)
            }
            RegionOp::Write { off, bytes } => {
                self.put(off, bytes);
                Reply::Done
            }
            RegionOp::Append { bytes } => self.append(bytes),
            RegionOp::Size => Reply::Number(self.used()),
            RegionOp::LockRead => {
                self.lock_read(maker);
                Reply::Done
            }
            RegionOp::LockWrite => {
                self.lock_write(maker);
                Reply::Done
            }
            RegionOp::Unlock => {
                self.unlock(maker);
                Reply::Done
            }
        }
    }

    // The bytes come to the front of the scratch.
    fn read(&self, off: u32, len: u32, scratch: &mut [u8])
        requires inside { off + len ≤ length self.now.region.bytes }
        requires room { len ≤ length scratch.old }
        ensures { scratch.new ≡ over scratch.old 0 (slice_range self.now.region.bytes off (off + len)) }
    {
        let from = off as usize;
        let to = from + len as usize;
        write_at(scratch, 0, &self.bytes()[from..to]);
    }

    // The bytes come behind those that are used, where there is room.
    fn append(&mut self, bytes: &[u8]) -> Reply
        ensures after { (maker : _) → self.new
            ≡ record self.old { region = after self.old.region maker (append bytes.now) } }
        ensures reply { (maker : _) (scratch : _) → reply_of result scratch
            ≡ Some (reply self.old.region maker (append bytes.now)) }
    {
        let used = self.used();
        if bytes.len() > (self.size() - used) as usize {
            return Reply::Full;
        }
        self.put(used, bytes);
        self.set_used(used + bytes.len() as u32);
        Reply::Number(used)
    }
}
