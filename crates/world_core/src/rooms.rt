//! Room for what an event adds, and who is where.

ghost use Rattle.std.specs.Prelude.{◌≡◌, ◌&&◌, ◌==◌, OnOk, position};
ghost use Rattle.faaslet_meaning.specs.Lists.{is_empty};
ghost use Rattle.world_core.specs.Living.{HasRooms, KeepsCore, Lives};

use crate::running::Running;
use std::alloc::AllocError;

impl<'s> Running<'s> {
    /// Makes room for what an event adds.
    pub(crate) fn make_rooms(&mut self) -> Result<(), AllocError>
        requires lives { Lives self.old }
        ensures room { OnOk result (HasRooms self.new) }
        ensures same { KeepsCore self.old self.new }
        ensures lives { Lives self.new }
    {
        self.floor.make_seat()?;
        self.floor.make_place()?;
        self.players.reserve(1)?;
        self.events.reserve(1)
    }

    /// Whether no call is queued and none is open.
    pub(crate) fn is_idle(&self) -> bool
        ensures { result ≡ (is_empty self.now.floor.queued.items && is_empty self.now.players.items) }
    {
        self.floor.queued.is_empty() && self.players.is_empty()
    }

    /// The place of a call among those that are queued.
    pub(crate) fn queued_at(&self, call: u32) -> Option<usize>
        ensures { result ≡ position (λ q. q.call == call) self.now.floor.queued.items }
    {
        self.floor.queued.iter().position(|q| q.call == call)
    }

    /// The place of a call among those that are open.
    pub(crate) fn seat_of(&self, call: u32) -> Option<usize>
        ensures { result ≡ position (λ p. p.call == call) self.now.players.items }
    {
        self.players.iter().position(|p| p.call == call)
    }
}
