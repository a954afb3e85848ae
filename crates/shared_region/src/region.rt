//! A region, as it is made, told and changed.

ghost use Rattle.std.specs.Prelude.{◌≡◌, ◌+◌, ◌<◌, ◌≤◌, None, true, IfOk, IfErr, length, max, slice_range};
ghost use Rattle.faaslet_meaning.specs.Channels.RegionOperation.{lock_read, lock_write, unlock};
ghost use Rattle.faaslet_meaning.specs.Memory.{over};
ghost use Rattle.faaslet_meaning.specs.Region.{after, blocker, reads, writes, replica, global_value, with_bytes};
ghost use Rattle.state_locks.specs.Locks.{kind_of};
ghost use Rattle.shared_region.specs.Shared.{held_in};

use state_locks::{LockKind, LockState};
use std::alloc::{AllocError, Global};
use std::marker::Model;

/// The bytes of a page.
const PAGE: u32 = 65_536;

/// A region with its locks, and room for so many lock holders.
#[derive(Drop)]
pub struct Region {
    bytes: Vec<u8>,
    size: u32,
    used: u32,
    present: bool,
    locks: LockState,
}

impl Model for Region {
    ghost use Rattle.shared_region.specs.Shared.{Shared};

    ghost Value = { Shared };

    ghost use Rattle.shared_region.specs.Inside.{shared_in, IsShared};

    ghost view = { shared_in };

    ghost invariant = { IsShared };
}

impl Region {
    /// A replica of a key of this size: absent, and whole pages of zeros.
    pub fn local(alloc: Global, size: u32, room: u32) -> Result<Region, AllocError>
        ensures { IfOk result (λ r. r ≡ record { region = replica size; room = room }) }
    {
        let length = size.div_ceil(PAGE) as usize * PAGE as usize;
        let bytes = vec![in alloc; 0; length]?;
        let locks = LockState::new(alloc, room)?;
        Ok(Region {
            bytes,
            size,
            used: 0,
            present: false,
            locks,
        })
    }

    /// The global value of a key of this size: present, the initial bytes and behind them zeros.
    pub fn global(alloc: Global, size: u32, init: &[u8], room: u32) -> Result<Region, AllocError>
        requires { length init.now ≤ size }
        ensures { IfOk result (λ r. r ≡ record { region = global_value size init.now; room = room }) }
    {
        let used = init.len() as u32;
        let mut bytes = Vec::with_capacity(alloc, size as usize)?;
        bytes.extend_from_slice(init)?;
        bytes.resize(size as usize, 0)?;
        let locks = LockState::new(alloc, room)?;
        Ok(Region {
            bytes,
            size,
            used,
            present: true,
            locks,
        })
    }

    /// Makes room for so many lock holders.
    pub fn reserve(&mut self, room: u32) -> Result<(), AllocError>
        ensures ok { IfOk result (λ _. self.new ≡ record self.old { room = max self.old.room room }) }
        ensures want { IfErr result (λ _. self.new ≡ self.old) }
    {
        self.locks.reserve(room)
    }

    /// The size of its key.
    pub fn size(&self) -> u32
        ensures told { result ≡ self.now.region.size }
        ensures within { result ≤ length self.now.region.bytes }
    {
        self.size
    }

    /// How much of the size is used.
    pub fn used(&self) -> u32
        ensures told { result ≡ self.now.region.used }
        ensures within { result ≤ self.now.region.size }
    {
        self.used
    }

    /// Whether it holds the value of its key.
    pub fn present(&self) -> bool
        ensures { result ≡ self.now.region.present }
    {
        self.present
    }

    /// All bytes, of a replica those of its whole pages.
    pub fn bytes(&self) -> &[u8]
        ensures content { result.now ≡ self.now.region.bytes }
        ensures whole { self.now.region.size ≤ length result.now }
    {
        &self.bytes
    }

    /// The least other maker whose lock an operation of this kind cannot stand beside.
    pub fn blocked_by(&self, maker: u32, kind: LockKind) -> Option<u32>
        ensures { result ≡ blocker self.now.region maker (kind_of kind) }
    {
        self.locks.blocked_by(maker, kind)
    }

    // Puts bytes at an offset.
    pub(crate) fn put(&mut self, off: u32, bytes: &[u8])
        requires { off + length bytes.now ≤ length self.old.region.bytes }
        ensures { self.new ≡ record self.old { region = with_bytes self.old.region off bytes.now } }
    {
        write_at(&mut self.bytes, off, bytes);
    }

    // The bytes of another region come to the same place.
    pub(crate) fn copy_from(&mut self, other: &Region, off: u32, len: u32)
        requires one_size { self.old.region.size ≡ other.now.region.size }
        requires inside { off + len ≤ other.now.region.size }
        ensures { self.new ≡ record self.old {
          region = with_bytes self.old.region off (slice_range other.now.region.bytes off (off + len));
        } }
    {
        let from = off as usize;
        let to = from + len as usize;
        write_at(&mut self.bytes, off, &other.bytes()[from..to]);
    }

    // Holds the value of its key from now on.
    pub(crate) fn mark_present(&mut self)
        ensures { self.new ≡ record self.old { region = record self.old.region { present = true } } }
    {
        self.present = true;
    }

    // So much is used.
    pub(crate) fn set_used(&mut self, used: u32)
        requires { used ≤ self.old.region.size }
        ensures { self.new ≡ record self.old { region = record self.old.region { used = used } } }
    {
        self.used = used;
    }

    pub(crate) fn lock_read(&mut self, maker: u32)
        requires room { held_in self.old < self.old.room }
        requires free { blocker self.old.region maker reads ≡ None }
        ensures { self.new ≡ record self.old { region = after self.old.region maker lock_read } }
    {
        match self.locks.lock_read(maker) {
            Ok(()) => {}
            Err(_) => unreachable!(),
        }
    }

    pub(crate) fn lock_write(&mut self, maker: u32)
        requires free { blocker self.old.region maker writes ≡ None }
        ensures { self.new ≡ record self.old { region = after self.old.region maker lock_write } }
    {
        match self.locks.lock_write(maker) {
            Ok(()) => {}
            Err(_) => unreachable!(),
        }
    }

    pub(crate) fn unlock(&mut self, maker: u32)
        ensures { self.new ≡ record self.old { region = after self.old.region maker unlock } }
    {
        self.locks.unlock(maker);
    }
}

/// Puts bytes over others, from an offset on.
pub(crate) fn write_at(content: &mut [u8], off: u32, bytes: &[u8])
    requires { off + length bytes.now ≤ length content.old }
    ensures { content.new ≡ over content.old off bytes.now }
{
    let from = off as usize;
    let to = from + bytes.len();
    content[from..to].copy_from_slice(bytes);
}
