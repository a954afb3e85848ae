//! A call is taken at a host.

ghost use Rattle.std.specs.Prelude.{◌≡◌, ◌==◌, ◌<◌, ◌≤◌, IfErr, IfOk, IfSome, IsTrue, None, Some, length, map, nat_lt, position, slice_get, vec_capacity, vec_len};
ghost use Rattle.std.specs.List.{insert, position_or_len};
ghost use Rattle.faaslet_meaning.specs.Lists.{passes_at};
ghost use Rattle.faaslet_meaning.specs.Records.{is_queued};
ghost use Rattle.session_meaning.specs.Events.{why};
ghost use Rattle.session_meaning.specs.declared.event.Event.TheVariants.{Take as TakeEvent};
ghost use Rattle.world_core.specs.Living.{Entered, HasRooms, Lives, Stepped, world_of};
ghost use Rattle.world_core.specs.Played.{FitsFor};
ghost use Rattle.world_core.specs.Seating.{HasSeat};
ghost use Rattle.world_core.specs.Taking.{HandsOut, SeatsOnly};

use crate::floor::Stand;
use crate::player::{Player, begin, faaslet_for};
use crate::running::{Running, StepFault};
use call_table::Job;
use faaslet_run::Faaslet;
use session_meaning::{Event, Why};

impl<'s> Running<'s> {
    /// The place among those that are queued of a call that may be taken at a host, or the first reason why it may not.
    fn place_to_take(&self, call: u32, host: u32) -> Result<usize, Why>
        requires lives { Lives self.now }
        ensures place { IfOk result (λ i. position (λ q. q.call == call) self.now.floor.queued.items ≡ Some i) }
        ensures there { IfOk result (λ i. (call < length self.now.table.table.records) × (host < self.now.table.table.hosts)) }
        ensures free { IfOk result (λ i. why (world_of self.now) (TakeEvent call host) ≡ None) }
        ensures kept_back { IfErr result (λ x. why (world_of self.now) (TakeEvent call host) ≡ Some x) }
    {
        if call >= self.table.calls() {
            return Err(Why::NoCall);
        }
        if host >= self.table.hosts() {
            return Err(Why::NoHost);
        }
        match self.queued_at(call) {
            Some(place) => Ok(place),
            None => Err(Why::NotQueued),
        }
    }

    /// The first place among those that are open whose call has a higher number.
    fn place_behind(&self, call: u32) -> Option<usize>
        ensures { result ≡ position (λ p. nat_lt call p.call) self.now.players.items }
    {
        self.players.iter().position(|p| call < p.call)
    }

    /// The place that a call takes, by its number, among those that are open.
    fn place_for(&self, call: u32) -> usize
        ensures place { result ≡ position_or_len (λ p. nat_lt call p.call) self.now.players.items }
        ensures within { result ≤ length self.now.players.items }
    {
        match self.place_behind(call) {
            Some(place) => place,
            None => self.players.len(),
        }
    }

    /// A call that is open finds its place by its number.
    fn seat(&mut self, player: Player<'s>)
        requires seat { HasSeat self.old.floor }
        requires player { vec_len self.old.players < vec_capacity self.old.players }
        requires same { map (λ p. p.call) self.old.players.items ≡ map (λ s. s.call) self.old.floor.open.items }
        ensures players { self.new.players.items
            ≡ insert self.old.players.items (position_or_len (λ p. nat_lt player.entry.call p.call) self.old.players.items) player.entry }
        ensures seats { self.new.floor.open.items
            ≡ insert self.old.floor.open.items (position_or_len (λ p. nat_lt player.entry.call p.call) self.old.players.items)
            (record { call = player.entry.call; stand = Stand.Ended }) }
        ensures rest { SeatsOnly self.old self.new }
    {
        let at = self.place_for(player.call);
        self.floor.add_seat(at, player.call);
        if self.players.insert(at, player).is_err() {
            unreachable!();
        }
    }

    /// Takes a queued call from the table, with its input at the front of the Faaslet's.
    fn hand_out(&mut self, call: u32, host: u32, faaslet: &mut Faaslet<'s>) -> Job
        requires call { call < length self.old.table.table.records }
        requires queued { IsTrue (passes_at (λ r. is_queued r.state) self.old.table.table.records call) }
        requires host { host < self.old.table.table.hosts }
        ensures { HandsOut self.old call host faaslet.old result self.new faaslet.new }
    {
        // It tells that the input is short, and that the function is known.
        let _known = self.table.record_of(call);
        let Some(job) = self.table.take_this(call, host, call, faaslet.input_mut()) else {
            unreachable!()
        };
        job
    }

    /// A queued call, at this place of those that are queued, is taken and open.
    fn enter(&mut self, call: u32, host: u32, place: usize, mut faaslet: Faaslet<'s>)
        requires lives { Lives self.old }
        requires rooms { HasRooms self.old }
        requires call { call < length self.old.table.table.records }
        requires host { host < self.old.table.table.hosts }
        requires place { position (λ q. q.call == call) self.old.floor.queued.items ≡ Some place }
        requires faaslet { IfSome (slice_get self.old.table.table.records call) (λ r.
            IfSome (slice_get self.old.protos.now.functions r.function) (λ g. FitsFor faaslet g.function)) }
        ensures { Entered (TakeEvent call host) self.old self.new }
    {
        let job = self.hand_out(call, host, &mut faaslet);
        let at = begin(self.protos, &mut faaslet, job);
        self.floor.remove_waiting(place);
        self.seat(Player {
            call,
            host,
            faaslet,
            place: at,
        });
        if self.events.push(Event::Take { call, host }).is_err() {
            unreachable!();
        }
    }

    /// A call is taken at a host.
    pub(crate) fn take(&mut self, call: u32, host: u32) -> Result<(), StepFault>
        requires lives { Lives self.old }
        ensures { Stepped (TakeEvent call host) result self.old self.new }
    {
        let place = match self.place_to_take(call, host) {
            Ok(place) => place,
            Err(why) => return Err(StepFault::NotEnabled(why)),
        };
        let function = self.table.record_of(call).function;
        if self.make_rooms().is_err() {
            return Err(StepFault::Want);
        }
        match faaslet_for(self.alloc, self.protos, function) {
            Ok(faaslet) => {
                self.enter(call, host, place, faaslet);
                Ok(())
            }
            Err(_) => Err(StepFault::Want),
        }
    }
}
