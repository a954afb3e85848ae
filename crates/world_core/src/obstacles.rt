//! What keeps an open call from its next question, and how it stands on the floor.

ghost use Rattle.std.specs.Prelude.{◌≡◌, ◌+◌, ◌<◌, IfOk, IfSome, IsSome, OnOk, length, option_map, slice_get};
ghost use Rattle.faaslet_meaning.specs.Records.{child_of};
ghost use Rattle.session_meaning.specs.Events.{child_at, unfinished_child};
ghost use Rattle.session_meaning.specs.SessionReport as report;
ghost use Rattle.session_report.specs.Told as told;
ghost use Rattle.world_core.specs.Blocked.{BlockedTo};
ghost use Rattle.world_core.specs.Floor.{StandsSo};
ghost use Rattle.world_core.specs.Living.{Lives, SameWorld, Settling, world_of};
ghost use Rattle.world_objects.specs.Served.{AreThere, locks_at, question_at};

use crate::floor::Stand;
use crate::player::Place;
use crate::running::Running;
use faaslet_meaning::{Ask, CallState};
use faaslet_run::Turn;
use session_report::{Blocked, Obstacle};
use std::alloc::AllocError;
use world_objects::Objects;

/// The lock that keeps a call, which was taken at a host, from a question on a region or from a move.
fn lock_held(objects: &Objects, call: u32, host: u32, ask: &Ask) -> Option<Obstacle>
    requires { AreThere objects.now host ask.now }
    ensures { (scratch : _) → IfSome (question_at objects.now ask.now scratch) (λ q.
        option_map told.obstacle_of result ≡ locks_at objects.now call host q) }
{
    let held = objects.held(call, host, ask)?;
    Some(Obstacle::Held {
        channel: held.channel,
        holder: held.holder,
    })
}

impl Place {
    ghost use Rattle.world_core.specs.Played.{question_told};

    /// The question that a call stands at.
    pub(crate) fn question(self) -> Option<Ask>
        ensures { result ≡ question_told self }
    {
        match self {
            Place::Told(Turn::Asks(ask)) => Some(ask),
            Place::Told(Turn::Ended(_)) => None,
            Place::Broken(_) => None,
        }
    }
}

impl<'s> Running<'s> {
    /// A child of a call that is not finished.
    fn unfinished_child(&self, call: u32, child: u32) -> Option<Obstacle>
        requires { IsSome (child_of self.now.table.table.records call child) }
        ensures { option_map told.obstacle_of result
            ≡ unfinished_child self.now.table.table.records (child_at self.now.table.table.records call child) }
    {
        let Some(child) = self.table.child_of(call, child) else {
            unreachable!()
        };
        match self.table.record_of(child).state {
            CallState::Finished { .. } => None,
            _ => Some(Obstacle::Unfinished { child }),
        }
    }

    /// What keeps the open call at this place from its next question.
    pub(crate) fn obstacle(&self, seat: usize) -> Option<Obstacle>
        requires settling { Settling self.now }
        requires within { seat < length self.now.players.items }
        ensures { IfSome (slice_get self.now.players.items seat) (λ p.
            option_map told.obstacle_of result ≡ report.obstacle_of (world_of self.now) p.call) }
    {
        let player = &self.players[seat];
        let ask = player.place.question()?;
        match ask {
            Ask::Region { .. } => lock_held(&self.objects, player.call, player.host, &ask),
            Ask::Move { .. } => lock_held(&self.objects, player.call, player.host, &ask),
            Ask::Submit { .. } => None,
            Ask::Look { child } => self.unfinished_child(player.call, child),
        }
    }

    /// The calls that are kept from their next questions, by rising number, each with what keeps it.
    pub(crate) fn blocked(&self) -> Result<Vec<Blocked>, AllocError>
        requires { Settling self.now }
        ensures { IfOk result (λ all. told.AreBlocked (world_of self.now) all.items) }
    {
        let mut all = Vec::new(self.alloc);
        for seat in 0..self.players.len() {
            self.push_blocked(seat, &mut all)?;
        }
        Ok(all)
    }

    /// The call at this place comes behind those that are kept back, if it is.
    fn push_blocked(&self, seat: usize, all: &mut Vec<Blocked>) -> Result<(), AllocError>
        requires settling { Settling self.now }
        requires within { seat < length self.now.players.items }
        requires so_far { BlockedTo (world_of self.now) self.now.players.items seat all.old.items }
        ensures one_more { OnOk result (BlockedTo (world_of self.now) self.now.players.items (seat + 1) all.new.items) }
    {
        let Some(by) = self.obstacle(seat) else {
            return Ok(());
        };
        let call = self.players[seat].call;
        all.push(Blocked { call, by })?;
        Ok(())
    }

    /// How the open call at this place stands.
    fn stand(&self, seat: usize) -> Stand
        requires settling { Settling self.now }
        requires within { seat < length self.now.players.items }
        ensures { IfSome (slice_get self.now.players.items seat) (λ p.
            StandsSo (world_of self.now) (record { call = p.call; stand = result })) }
    {
        if self.players[seat].place.question().is_none() {
            Stand::Ended
        } else if self.obstacle(seat).is_none() {
            Stand::Free
        } else {
            Stand::Blocked
        }
    }

    /// Each open call stands on the floor as it stands in the world. It goes once over the open calls.
    pub(crate) fn settle(&mut self)
        requires { Settling self.old }
        ensures lives { Lives self.new }
        ensures same { SameWorld self.old self.new }
    {
        for seat in 0..self.players.len() {
            let stand = self.stand(seat);
            self.floor.set_stand(seat, stand);
        }
    }
}
