//! What events do to the calls on a floor.

ghost use Rattle.std.specs.Prelude.{◌≡◌, ◌<◌, ◌≤◌, ◌++◌, ◌∷◌, [], OnOk, false, length, map};
ghost use Rattle.std.specs.List.{insert, remove};
ghost use Rattle.faaslet_meaning.specs.Lists.{changed};
ghost use Rattle.world_core.specs.declared.floor.Seat.{Seat};
ghost use Rattle.world_core.specs.declared.floor.Waiting.{Waiting};

use crate::floor::{FLOOR_LIMIT, Floor, Seat, Stand, Waiting};
use std::alloc::{AllocError, Global};

impl Floor {
    ghost use Rattle.world_core.specs.Seating.{HasPlace, HasSeat, KeepsOpen, KeepsQueued, looked, with_stand};

    /// Makes room for one more open call.
    pub fn make_seat(&mut self) -> Result<(), AllocError>
        ensures room { OnOk result (HasSeat self.new) }
        ensures same { self.new.open.items ≡ self.old.open.items }
        ensures rest { KeepsQueued self.old self.new }
    {
        if self.open.len() >= FLOOR_LIMIT {
            return Err(AllocError);
        }
        self.open.reserve(1)
    }

    /// Makes room for one more queued call.
    pub fn make_place(&mut self) -> Result<(), AllocError>
        ensures room { OnOk result (HasPlace self.new) }
        ensures same { self.new.queued.items ≡ self.old.queued.items }
        ensures rest { KeepsOpen self.old self.new }
    {
        if self.queued.len() >= FLOOR_LIMIT {
            return Err(AllocError);
        }
        self.queued.reserve(1)
    }

    /// A call is open, at this place of those that are.
    pub fn add_seat(&mut self, at: usize, call: u32)
        requires room { HasSeat self.old }
        requires within { at ≤ length self.old.open.items }
        ensures seat { self.new.open.items ≡ insert self.old.open.items at (record { call = call; stand = Stand.Ended }) }
        ensures rest { KeepsQueued self.old self.new }
    {
        let seat = Seat {
            call,
            stand: Stand::Ended,
        };
        if self.open.insert(at, seat).is_err() {
            unreachable!();
        }
    }

    /// The call at this place of those that are open is no more.
    pub fn remove_seat(&mut self, at: usize)
        requires { at < length self.old.open.items }
        ensures seats { self.new.open.items ≡ remove self.old.open.items at }
        ensures rest { KeepsQueued self.old self.new }
    {
        self.open.remove(at);
    }

    /// Says how the open call at this place stands.
    pub fn set_stand(&mut self, at: usize, stand: Stand)
        requires { at < length self.old.open.items }
        ensures seats { self.new.open.items ≡ changed self.old.open.items at (with_stand stand) }
        ensures rest { KeepsQueued self.old self.new }
    {
        self.open[at].stand = stand;
    }

    /// A call is queued behind the others.
    pub fn add_waiting(&mut self, call: u32)
        requires { HasPlace self.old }
        ensures queued { self.new.queued.items ≡ self.old.queued.items ++ record { call = call; awaited = false } ∷ [] }
        ensures rest { KeepsOpen self.old self.new }
    {
        let waiting = Waiting {
            call,
            awaited: false,
        };
        if self.queued.push(waiting).is_err() {
            unreachable!();
        }
    }

    /// The call at this place of those that are queued is no more.
    pub fn remove_waiting(&mut self, at: usize)
        requires { at < length self.old.queued.items }
        ensures queued { self.new.queued.items ≡ remove self.old.queued.items at }
        ensures rest { KeepsOpen self.old self.new }
    {
        self.queued.remove(at);
    }

    /// An open call looks at this call.
    pub fn mark(&mut self, call: u32)
        ensures queued { self.new.queued.items ≡ map (looked call) self.old.queued.items }
        ensures rest { KeepsOpen self.old self.new }
    {
        for q in self.queued.iter_mut() {
            q.awaited = q.awaited || q.call == call;
        }
    }
}
