//! The locks, as they are taken, refused and given up.

ghost use Rattle.std.specs.Prelude.{◌≡◌, ◌<◌, [], ◌++◌, None, IfOk, IfErr, max, min, option_to_list};
ghost use Rattle.std.specs.Option.{option_map_or};
ghost use Rattle.faaslet_meaning.specs.Channels.RegionOperation.{lock_read, lock_write, unlock};
ghost use Rattle.faaslet_meaning.specs.Lists.{least};
ghost use Rattle.faaslet_meaning.specs.Region.{after, blocker, reads, writes};
ghost use Rattle.state_locks.specs.Locks.{locked, held, holder_of, kind_of, apart_from};

use std::alloc::{AllocError, Global};
use std::marker::Model;

/// What an operation does to what others may do.
#[derive(Clone, Copy)]
pub enum LockKind {
    Reads,
    Writes,
}

/// The least other holder of a lock that stands in the way.
#[derive(Clone, Copy, PartialEq, Eq)]
pub struct Blocked {
    pub holder: u32,
}

/// Who holds the write lock, and who read locks, in the order in which they locked, with room for so many.
#[derive(Drop)]
pub struct LockState {
    writer: Option<u32>,
    readers: Vec<u32>,
    room: u32,
}

impl Model for LockState {
    ghost use Rattle.std.specs.Prelude.{◌≤◌, vec_capacity};
    ghost use Rattle.state_locks.specs.Held.{Locks};

    ghost Value = { Locks };

    ghost view = { λ s. record { writer = s.writer; readers = s.readers.items; room = s.room } };

    ghost invariant = { λ s. s.room ≤ vec_capacity s.readers };
}

impl LockState {
    /// No locks, and room for so many holders.
    pub fn new(alloc: Global, room: u32) -> Result<LockState, AllocError>
        ensures { IfOk result (λ l. l ≡ record { writer = None; readers = []; room = room }) }
    {
        let readers = Vec::with_capacity(alloc, room as usize)?;
        Ok(LockState {
            writer: None,
            readers,
            room,
        })
    }

    /// Makes the room at least so large.
    pub fn reserve(&mut self, room: u32) -> Result<(), AllocError>
        ensures ok { IfOk result (λ _. self.new ≡ record self.old { room = max self.old.room room }) }
        ensures want { IfErr result (λ _. self.new ≡ self.old) }
    {
        let more = (room as usize).saturating_sub(self.readers.len());
        self.readers.reserve(more)?;
        self.room = self.room.max(room);
        Ok(())
    }

    /// The least other maker whose lock an operation of this kind cannot stand beside.
    pub fn blocked_by(&self, maker: u32, kind: LockKind) -> Option<u32>
        ensures { result ≡ blocker (locked self.now) maker (kind_of kind) }
    {
        match kind {
            LockKind::Reads => least_other(self.writer, &[], maker),
            LockKind::Writes => least_other(self.writer, &self.readers, maker),
        }
    }

    /// The maker gets a read lock, where no other holds the write lock.
    pub fn lock_read(&mut self, maker: u32) -> Result<(), Blocked>
        requires room { held self.old < self.old.room }
        ensures blocked { holder_of result ≡ blocker (locked self.old) maker reads }
        ensures taken { IfOk result (λ _. locked self.new ≡ after (locked self.old) maker lock_read) }
        ensures refused { IfErr result (λ _. self.new ≡ self.old) }
        ensures room { self.new.room ≡ self.old.room }
    {
        if let Some(holder) = self.blocked_by(maker, LockKind::Reads) {
            return Err(Blocked { holder });
        }
        match self.readers.push(maker) {
            Ok(()) => Ok(()),
            Err(_) => unreachable!(),
        }
    }

    /// The maker gets the write lock, where no other holds any lock.
    pub fn lock_write(&mut self, maker: u32) -> Result<(), Blocked>
        ensures blocked { holder_of result ≡ blocker (locked self.old) maker writes }
        ensures taken { IfOk result (λ _. locked self.new ≡ after (locked self.old) maker lock_write) }
        ensures refused { IfErr result (λ _. self.new ≡ self.old) }
        ensures room { self.new.room ≡ self.old.room }
    {
        if let Some(holder) = self.blocked_by(maker, LockKind::Writes) {
            return Err(Blocked { holder });
        }
        self.writer = Some(maker);
        Ok(())
    }

    /// The maker holds nothing any more. Other readers keep their order.
    pub fn unlock(&mut self, maker: u32)
        ensures given_up { locked self.new ≡ after (locked self.old) maker unlock }
        ensures room { self.new.room ≡ self.old.room }
    {
        if self.writer == Some(maker) {
            self.writer = None;
        }
        self.readers.retain(|holder| *holder != maker);
    }
}

/// The least of these that is not the maker.
fn least_other(writer: Option<u32>, readers: &[u32], maker: u32) -> Option<u32>
    ensures { result ≡ least (apart_from maker (option_to_list writer ++ readers.now)) }
{
    let mut least = writer.filter(|holder| *holder != maker);
    for holder in readers {
        if *holder != maker {
            least = Some(lesser(least, *holder));
        }
    }
    least
}

fn lesser(least: Option<u32>, holder: u32) -> u32
    ensures { result ≡ option_map_or (λ other. min other holder) least holder }
{
    least.map_or(holder, |other| other.min(holder))
}
