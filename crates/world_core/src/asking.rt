//! The next question of an open call is served, and the call goes on.

ghost use Rattle.std.specs.Prelude.{◌≡◌, ℕ, ◌≤◌, ◌<◌, ◌-◌, ◌==◌, ◌++◌, IfErr, IfOk, IsSome, IsTrue, None, OnErr, OnOk, Some, fold, length, position, slice_get, take, vec_capacity, vec_len};
ghost use Rattle.std.specs.Option.{ForSome};
ghost use Rattle.faaslet_meaning.specs.Asks.{RepliesAs};
ghost use Rattle.faaslet_meaning.specs.Call.{fits};
ghost use Rattle.faaslet_meaning.specs.CallState.{State, asks};
ghost use Rattle.faaslet_meaning.specs.Channels.{Question, Reply as Answer, Transcript, entries};
ghost use Rattle.faaslet_meaning.specs.Lists.{passes_at};
ghost use Rattle.faaslet_meaning.specs.Records.{child_of, is_open};
ghost use Rattle.faaslet_run.specs.Places.{StandsAt};
ghost use Rattle.call_table.specs.Looked.{LookedAt};
ghost use Rattle.session_meaning.specs.Events.{why, why_of};
ghost use Rattle.session_meaning.specs.OpenCall.{Open, answered};
ghost use Rattle.session_meaning.specs.Registry.{callees_of};
ghost use Rattle.session_meaning.specs.declared.event.Event.TheVariants.{Ask as AskEvent};
ghost use Rattle.session_report.specs.Told as told;
ghost use Rattle.world_core.specs.Asking.{
  AsksAt,
  IsFinishedChild,
  IsReplied,
  IsServed,
  Submitted,
  WasServed,
  child_queued,
  looked_by,
  marked_as,
  with_scratch,
};
ghost use Rattle.world_core.specs.Living.{Entered, Lives, SameWorld, Stepped, world_of};
ghost use Rattle.world_core.specs.Opened.{Tallies};
ghost use Rattle.world_core.specs.Played.{IsAt};
ghost use Rattle.world_core.specs.Seating.{HasPlace, KeepsOpen};
ghost use Rattle.world_objects.specs.Served.{AreThere, IsWithin, entered_at, locks_at, question_at, reply_at};

use crate::player::{Place, Player};
use crate::running::{Running, StepFault};
use call_table::{CallTable, SubmitFault};
use faaslet_meaning::{Ask, Reply};
use faaslet_run::Turn;
use grant_registry::Registry;
use session_meaning::{Event, Why};
use session_report::Obstacle;
use std::alloc::AllocError;
use world_objects::Objects;

/// A question on a region, or a move.
fn serve_region(
    objects: &mut Objects,
    player: &mut Player<'_>,
    ask: &Ask,
) -> Result<Reply, AllocError>
    requires asked { IsSome (question_at objects.old ask.now player.old.faaslet.scratch) }
    requires there { AreThere objects.old player.old.host ask.now }
    requires within { IsWithin objects.old player.old.host ask.now 65536 }
    requires free { ForSome (question_at objects.old ask.now player.old.faaslet.scratch) (λ q.
        locks_at objects.old player.old.call player.old.host q ≡ None) }
    ensures after { ForSome (question_at objects.old ask.now player.old.faaslet.scratch) (λ q. OnOk result (objects.new
        ≡ fold (entered_at player.old.call player.old.host) objects.old
        (entries q (reply_at objects.old player.old.call player.old.host q)))) }
    ensures reply { ForSome (question_at objects.old ask.now player.old.faaslet.scratch) (λ q. IfOk result (λ answer.
        RepliesAs q answer player.new.faaslet.scratch (reply_at objects.old player.old.call player.old.host q))) }
    ensures want { OnErr result (objects.new ≡ objects.old) }
    ensures player { player.new ≡ with_scratch player.new.faaslet.scratch player.old }
    ensures wanting { OnErr result (player.new ≡ player.old) }
{
    objects.serve(player.call, player.host, ask, player.faaslet.scratch_mut())
}

/// The output of a finished child, and how it ended.
fn look(table: &CallTable, player: &mut Player<'_>, child: u32) -> Reply
    requires { IsFinishedChild table.now.table.records player.old.call child }
    ensures told { (k : ℕ) → child_of table.now.table.records player.old.call child ≡ Some k
        → LookedAt table.now k result player.old.faaslet.scratch player.new.faaslet.scratch }
    ensures player { player.new ≡ with_scratch player.new.faaslet.scratch player.old }
{
    let Some(call) = table.child_of(player.call, child) else {
        unreachable!()
    };
    match table.look(call, player.faaslet.scratch_mut()) {
        Ok(reply) => reply,
        Err(_) => unreachable!(),
    }
}

/// A child of a call, of the function at a place of those that it may call.
fn submit(
    table: &mut CallTable,
    registry: &Registry,
    player: &mut Player<'_>,
    place: u32,
    len: u32,
) -> Result<Reply, AllocError>
    requires open_so { IsTrue (passes_at (λ r. is_open r.state) table.old.table.records player.old.call) }
    requires known { ForSome (slice_get table.old.table.records player.old.call) (λ r.
        r.function < length registry.now.functions) }
    requires function { ForSome (slice_get table.old.table.records player.old.call) (λ r.
        (g : ℕ) × (slice_get (callees_of registry.now r.function) place ≡ Some g)
        × (g < length table.old.table.functions)) }
    requires input { len ≤ 65536 }
    ensures ok { (r : _) (g : ℕ) → slice_get table.old.table.records player.old.call ≡ Some r
        → slice_get (callees_of registry.now r.function) place ≡ Some g
        → IfOk result (Submitted table.old player.old.call g (take len player.old.faaslet.scratch) table.new) }
    ensures want { OnErr result (table.new ≡ table.old) }
    ensures player { player.new ≡ player.old }
{
    let caller = table.record_of(player.call).function;
    let Some(function) = registry.callee(caller, place) else {
        unreachable!()
    };
    submit_front(
        table,
        player.call,
        function,
        player.faaslet.scratch_mut(),
        len,
    )
}

/// A child of a call, with the front of the scratch as its input.
fn submit_front(
    table: &mut CallTable,
    call: u32,
    function: u32,
    scratch: &mut [u8],
    len: u32,
) -> Result<Reply, AllocError>
    requires open_so { IsTrue (passes_at (λ r. is_open r.state) table.old.table.records call) }
    requires function { function < length table.old.table.functions }
    requires input { len ≤ 65536 }
    requires front { len ≤ length scratch.old }
    ensures ok { IfOk result (Submitted table.old call function (take len scratch.old) table.new) }
    ensures want { OnErr result (table.new ≡ table.old) }
    ensures scratch { scratch.new ≡ scratch.old }
{
    let input = &scratch[..len as usize];
    match table.submit(call, function, input) {
        Ok(child) => Ok(Reply::Child(child)),
        Err(SubmitFault::ChainFull { .. }) => Ok(Reply::ChainFull),
        Err(SubmitFault::Want) => Err(AllocError),
    }
}

/// A call goes on after a reply, to its next question or to its end.
fn go_on(player: &mut Player<'_>, reply: Reply)
    requires { IsReplied player.old.faaslet reply }
    ensures goes { (o : Open) (start : State) (transcript : Transcript) (s : State) (q : Question) (r : Answer)
        → StandsAt player.old.faaslet o.invocation start transcript (asks s q)
        → RepliesAs q reply player.old.faaslet.scratch r → IsTrue (fits s q r) → Tallies o start transcript
        → IsAt (answered o s r (entries q r)) player.new.faaslet player.new.place }
    ensures call { player.new.call ≡ player.old.call }
    ensures host { player.new.host ≡ player.old.host }
{
    player.faaslet.answer(reply);
    player.place = Place::Told(player.faaslet.next());
}

/// What keeps a call back, as a reason.
fn reason_of(obstacle: Obstacle) -> Why
    ensures { result ≡ why_of (told.obstacle_of obstacle) }
{
    match obstacle {
        Obstacle::Held { holder, .. } => Why::Holder(holder),
        Obstacle::Unfinished { child } => Why::Child(child),
    }
}

impl<'s> Running<'s> {
    /// The place among those that are open of a call whose next question may stand, with this question, or the first reason
    /// why it may not.
    fn seat_to_ask(&self, call: u32) -> Result<(usize, Ask), Why>
        requires lives { Lives self.now }
        ensures seat { IfOk result (λ x. position (λ p. p.call == call) self.now.players.items ≡ Some x.0) }
        ensures asks { IfOk result (λ x. ForSome (slice_get self.now.players.items x.0) (λ p. AsksAt p x.1)) }
        ensures free { IfOk result (λ x. why (world_of self.now) (AskEvent call) ≡ None) }
        ensures kept_back { IfErr result (λ x. why (world_of self.now) (AskEvent call) ≡ Some x) }
    {
        if call >= self.table.calls() {
            return Err(Why::NoCall);
        }
        let Some(seat) = self.seat_of(call) else {
            return Err(Why::NotOpen);
        };
        let Some(ask) = self.players[seat].place.question() else {
            return Err(Why::HasEnded);
        };
        match self.obstacle(seat) {
            None => Ok((seat, ask)),
            Some(obstacle) => Err(reason_of(obstacle)),
        }
    }

    /// Serves the question of the call at this place.
    fn serve(&mut self, seat: usize, ask: &Ask) -> Result<Reply, AllocError>
        requires lives { Lives self.old }
        requires within { seat < length self.old.players.items }
        requires asks { ForSome (slice_get self.old.players.items seat) (λ p. AsksAt p ask.now) }
        requires free { ForSome (slice_get self.old.players.items seat) (λ p.
            why (world_of self.old) (AskEvent p.call) ≡ None) }
        ensures served { ForSome (slice_get self.old.players.items seat) (λ p.
            IfOk result (IsServed self.old self.new seat p ask.now)) }
        ensures want { OnErr result (SameWorld self.old self.new) }
        ensures lives { OnErr result (Lives self.new) }
    {
        let player = &mut self.players[seat];
        match *ask {
            Ask::Look { child } => Ok(look(&self.table, player, child)),
            Ask::Submit { function, len } => {
                let registry = self.protos.registry();
                submit(&mut self.table, registry, player, function, len)
            }
            Ask::Region { .. } | Ask::Move { .. } => {
                serve_region(&mut self.objects, player, ask)
            }
        }
    }

    /// A child that was submitted is queued.
    fn queue_child(&mut self, reply: Reply)
        requires room { HasPlace self.old.floor }
        requires some { 0 < length self.old.table.table.records }
        ensures queued { self.new.floor.queued.items
            ≡ self.old.floor.queued.items ++ child_queued reply (length self.old.table.table.records - 1) }
        ensures rest { KeepsOpen self.old.floor self.new.floor }
        ensures only { self.new ≡ record self.old { floor = self.new.floor } }
    {
        if let Reply::Child(_) = reply {
            self.floor.add_waiting(self.table.calls() - 1);
        }
    }

    /// A queued call is awaited where the call at this place looks at it next.
    fn mark_awaited(&mut self, seat: usize)
        requires { seat < length self.old.players.items }
        ensures queued { ForSome (slice_get self.old.players.items seat) (λ p. self.new.floor.queued.items
            ≡ marked_as (looked_by self.old.table.table.records p.call p.place) self.old.floor.queued.items) }
        ensures rest { KeepsOpen self.old.floor self.new.floor }
        ensures only { self.new ≡ record self.old { floor = self.new.floor } }
    {
        let player = &self.players[seat];
        if let Place::Told(Turn::Asks(Ask::Look { child })) = player.place {
            if let Some(call) = self.table.child_of(player.call, child) {
                self.floor.mark(call);
            }
        }
    }

    /// The call at this place goes on after the reply to its question.
    fn resume(&mut self, call: u32, seat: usize, reply: Reply)
        requires served { WasServed call seat reply self.old }
        requires place { HasPlace self.old.floor }
        requires event { vec_len self.old.events < vec_capacity self.old.events }
        ensures { Entered (AskEvent call) self.old self.new }
    {
        go_on(&mut self.players[seat], reply);
        self.queue_child(reply);
        self.mark_awaited(seat);
        if self.events.push(Event::Ask { call }).is_err() {
            unreachable!();
        }
    }

    /// The next question of a call is served.
    pub(crate) fn ask(&mut self, call: u32) -> Result<(), StepFault>
        requires lives { Lives self.old }
        ensures { Stepped (AskEvent call) result self.old self.new }
    {
        let (seat, ask) = match self.seat_to_ask(call) {
            Ok(found) => found,
            Err(why) => return Err(StepFault::NotEnabled(why)),
        };
        let Ok(()) = self.make_rooms() else {
            return Err(StepFault::Want);
        };
        match self.serve(seat, &ask) {
            Ok(reply) => {
                self.resume(call, seat, reply);
                Ok(())
            }
            Err(_) => Err(StepFault::Want),
        }
    }
}
