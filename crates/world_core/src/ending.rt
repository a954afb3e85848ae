//! A call that is through is finished.

ghost use Rattle.std.specs.Prelude.{◌≡◌, ◌==◌, ◌<◌, IfErr, IfOk, IfSome, None, Some, true, length, position, slice_get};
ghost use Rattle.session_meaning.specs.Events.{why};
ghost use Rattle.session_meaning.specs.declared.event.Event.TheVariants.{End as EndEvent};
ghost use Rattle.world_core.specs.Ending.{IsBroken, IsFinished, is_through};
ghost use Rattle.world_core.specs.Living.{Entered, HasRooms, Lives, Stepped, world_of};

use crate::player::Place;
use crate::running::{Running, StepFault};
use faaslet_meaning::{Broken, Outcome};
use faaslet_run::Turn;
use session_meaning::{Event, Why};

/// The counts of a call that made no entry: a call has at most 65 channels.
const NO_ENTRIES: [u64; 65] = [0; 65];

impl<'s> Running<'s> {
    /// The place among those that are open of a call that is through, or the first reason why it may not be finished.
    fn seat_to_end(&self, call: u32) -> Result<usize, Why>
        requires lives { Lives self.now }
        ensures seat { IfOk result (λ i. position (λ p. p.call == call) self.now.players.items ≡ Some i) }
        ensures through { IfOk result (λ i. IfSome (slice_get self.now.players.items i) (λ p. is_through p.place ≡ true)) }
        ensures free { IfOk result (λ i. why (world_of self.now) (EndEvent call) ≡ None) }
        ensures kept_back { IfErr result (λ x. why (world_of self.now) (EndEvent call) ≡ Some x) }
    {
        if call >= self.table.calls() {
            return Err(Why::NoCall);
        }
        let Some(seat) = self.seat_of(call) else {
            return Err(Why::NotOpen);
        };
        if self.players[seat].place.is_through() {
            Ok(seat)
        } else {
            Err(Why::NotEnded)
        }
    }

    /// The end that the Faaslet of the call at this place told goes to the table.
    fn finish_told(&mut self, seat: usize, outcome: Outcome)
        requires lives { Lives self.old }
        requires within { seat < length self.old.players.items }
        requires ended { IfSome (slice_get self.old.players.items seat) (λ p. p.place ≡ Place.Told (Turn.Ended outcome)) }
        ensures { IfSome (slice_get self.old.players.items seat) (λ p. IsFinished self.old p.call self.new) }
    {
        let player = &self.players[seat];
        let faaslet = &player.faaslet;
        self.table.finish(
            player.call,
            outcome,
            faaslet.used(),
            faaslet.output(),
            faaslet.counts(),
        );
    }

    /// A call of a broken function ends without an output, and without an entry.
    fn finish_broken(&mut self, call: u32, kind: Broken)
        requires lives { Lives self.old }
        requires call { call < length self.old.table.table.records }
        requires broken { IsBroken (world_of self.old) call kind }
        ensures { IsFinished self.old call self.new }
    {
        let function = self.table.record_of(call).function;
        let channels = self.table.callable(function).channels as usize;
        let counts = &NO_ENTRIES[..channels];
        self.table
            .finish(call, Outcome::Broken(kind), 0, &[], counts);
    }

    /// The end of the call at this place goes to the table.
    fn finish(&mut self, seat: usize)
        requires lives { Lives self.old }
        requires within { seat < length self.old.players.items }
        requires through { IfSome (slice_get self.old.players.items seat) (λ p. is_through p.place ≡ true) }
        ensures { IfSome (slice_get self.old.players.items seat) (λ p. IsFinished self.old p.call self.new) }
    {
        let call = self.players[seat].call;
        match self.players[seat].place {
            Place::Told(Turn::Ended(outcome)) => self.finish_told(seat, outcome),
            Place::Broken(kind) => self.finish_broken(call, kind),
            Place::Told(Turn::Asks(_)) => unreachable!(),
        }
    }

    /// The call at this place of those that are open is finished.
    fn leave(&mut self, call: u32, seat: usize)
        requires lives { Lives self.old }
        requires rooms { HasRooms self.old }
        requires seat { position (λ p. p.call == call) self.old.players.items ≡ Some seat }
        requires through { IfSome (slice_get self.old.players.items seat) (λ p. is_through p.place ≡ true) }
        requires free { why (world_of self.old) (EndEvent call) ≡ None }
        ensures { Entered (EndEvent call) self.old self.new }
    {
        self.finish(seat);
        self.floor.remove_seat(seat);
        self.players.remove(seat);
        if self.events.push(Event::End { call }).is_err() {
            unreachable!();
        }
    }

    /// A call that is through is finished.
    pub(crate) fn end(&mut self, call: u32) -> Result<(), StepFault>
        requires lives { Lives self.old }
        ensures { Stepped (EndEvent call) result self.old self.new }
    {
        let seat = match self.seat_to_end(call) {
            Ok(seat) => seat,
            Err(why) => return Err(StepFault::NotEnabled(why)),
        };
        if self.make_rooms().is_err() {
            return Err(StepFault::Want);
        }
        self.leave(call, seat);
        Ok(())
    }
}
