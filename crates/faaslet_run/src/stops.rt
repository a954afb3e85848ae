//! The stops of a machine that are no host call: shared pieces, and its end with the releases of locks. What follows a reply.

ghost use Rattle.std.specs.Prelude.{◌≡◌, ◌≢◌, ℕ, ◌<◌, ◌^◌, ◌+◌, ◌*◌, ◌≤◌, None, Some, length};
ghost use Rattle.faaslet_meaning.specs.Call.{replied};
ghost use Rattle.faaslet_meaning.specs.CallState.{Invocation, State, Progress};
ghost use Rattle.faaslet_meaning.specs.Channels.{Question, Reply as Answer, Transcript};
ghost use Rattle.faaslet_meaning.specs.Memory.{grant_limit};
ghost use Rattle.faaslet_run.specs.Counted.{counted_on};
ghost use Rattle.faaslet_run.specs.Hosts.{HasEnded, HasReply, HasStopped, piece_of, unlock_of};
ghost use Rattle.faaslet_run.specs.Places.{StandsAt};
ghost use Rattle.faaslet_run.specs.Turns.{IsReady, SameRoom};
ghost use Rattle.faaslet_run.specs.declared.faaslet.Called.{Called as Begun};
ghost use Rattle.faaslet_run.specs.declared.faaslet.Work.TheVariants as works;

use crate::faaslet::{Faaslet, Stage, Work};
use crate::grants::key_at;
use faaslet_meaning::{Ask, AskOp, Channel, Grant, Outcome, Reply};
use wasm_interp::PieceAsk;

// The question for a shared piece: a Read or a Write of its replica.
fn piece_ask(grants: &[Grant], piece: PieceAsk) -> Ask
    requires { piece.off < 2 ^ 32 }
    ensures { result ≡ piece_of grants.now piece }
{
    let channel = Channel::Local(key_at(grants, piece.place));
    let off = piece.off as u32;
    let len = piece.len;
    if piece.write {
        Ask::Region {
            channel,
            op: AskOp::Write { off, len },
        }
    } else {
        Ask::Region {
            channel,
            op: AskOp::Read { off, len },
        }
    }
}

// The question that releases a lock.
fn unlock_ask(grants: &[Grant], place: u32, local: bool) -> Ask
    ensures { result ≡ unlock_of grants.now place local }
{
    let key = key_at(grants, place);
    let op = AskOp::Unlock;
    if local {
        Ask::Region {
            channel: Channel::Local(key),
            op,
        }
    } else {
        Ask::Region {
            channel: Channel::Global(key),
            op,
        }
    }
}

impl<'s> Faaslet<'s> {
    /// A load or a store stands at a shared piece.
    pub(crate) fn stop_at(&mut self, piece: PieceAsk)
        requires { (j : Invocation) × (start : State) × (transcript : Transcript) × (p : Progress)
            × HasStopped self.old j start transcript p piece }
        ensures goes { (j : Invocation) (start : State) (transcript : Transcript) (p : Progress)
            → HasStopped self.old j start transcript p piece
            → StandsAt self.new j start transcript p × IsReady self.new j p }
        ensures rests { self.new.stage ≢ Stage.Runs }
        ensures rooms { SameRoom self.old self.new }
    {
        let called = self.called();
        let ask = piece_ask(called.grants.as_slice(), piece);
        self.stage = Stage::Asks(Work::Piece, ask);
    }

    /// The call has ended so. The lock that is to be released first, where one is held, is asked for.
    pub(crate) fn end(&mut self, outcome: Outcome)
        requires { (j : Invocation) × (start : State) × (transcript : Transcript) × (p : Progress)
            × HasEnded self.old j start transcript p outcome }
        ensures goes { (j : Invocation) (start : State) (transcript : Transcript) (p : Progress)
            → HasEnded self.old j start transcript p outcome
            → StandsAt self.new j start transcript p × IsReady self.new j p }
        ensures rests { self.new.stage ≢ Stage.Runs }
        ensures rooms { SameRoom self.old self.new }
    {
        match self.keys.next_lock() {
            None => self.stage = Stage::Over(outcome),
            Some((place, local)) => {
                let called = self.called();
                let ask = unlock_ask(called.grants.as_slice(), place, local);
                let work = Work::Release {
                    place,
                    local,
                    outcome,
                };
                self.stage = Stage::Asks(work, ask);
            }
        }
    }

    // A shared piece has its reply.
    fn after_piece(&mut self, reply: Reply)
        requires { (j : Invocation) × (start : State) × (transcript : Transcript) × (s : State) × (q : Question) × (r : Answer)
            × HasReply self.old j start transcript s q r works.Piece reply }
        ensures goes { (j : Invocation) (start : State) (transcript : Transcript) (s : State) (q : Question) (r : Answer)
            → HasReply self.old j start transcript s q r works.Piece reply
            → StandsAt self.new j start transcript (replied j s r) × IsReady self.new j (replied j s r) }
        ensures rooms { SameRoom self.old self.new }
    {
        self.machine.resume_piece();
        self.stage = Stage::Runs;
    }

    // A lock was released.
    fn after_release(&mut self, place: u32, local: bool, outcome: Outcome, reply: Reply)
        requires { (j : Invocation) × (start : State) × (transcript : Transcript) × (s : State) × (q : Question) × (r : Answer)
            × HasReply self.old j start transcript s q r (works.Release place local outcome) reply }
        ensures goes { (j : Invocation) (start : State) (transcript : Transcript) (s : State) (q : Question) (r : Answer)
            → HasReply self.old j start transcript s q r (works.Release place local outcome) reply
            → StandsAt self.new j start transcript (replied j s r) × IsReady self.new j (replied j s r) }
        ensures rooms { SameRoom self.old self.new }
    {
        self.keys.unlocked(place, local);
        self.end(outcome);
    }

    /// The entries that the reply to a question is.
    pub(crate) fn count(&mut self, ask: Ask, reply: Reply)
        requires called { self.old.called ≢ None }
        requires few { (x : Begun) → self.old.called ≡ Some x → length x.grants.now ≤ grant_limit }
        requires long { (x : Begun) → self.old.called ≡ Some x → length self.old.counts ≡ 2 * length x.grants.now + 1 }
        ensures only { self.new ≡ record self.old { counts = self.new.counts } }
        ensures counts { (x : Begun) → self.old.called ≡ Some x → self.new.counts ≡ counted_on x.grants.now ask reply self.old.counts }
    {
        let called = self.called();
        self.counts.count(called.grants.as_slice(), ask, reply);
    }

    /// What stood at a question goes on after the reply.
    pub(crate) fn after(&mut self, work: Work, reply: Reply)
        requires { (j : Invocation) × (start : State) × (transcript : Transcript) × (s : State) × (q : Question) × (r : Answer)
            × HasReply self.old j start transcript s q r work reply }
        ensures goes { (j : Invocation) (start : State) (transcript : Transcript) (s : State) (q : Question) (r : Answer)
            → HasReply self.old j start transcript s q r work reply
            → StandsAt self.new j start transcript (replied j s r) × IsReady self.new j (replied j s r) }
        ensures rooms { SameRoom self.old self.new }
    {
        match work {
            Work::Call(call) => self.after_call(call, reply),
            Work::State(call) => self.after_state(call, reply),
            Work::Piece => self.after_piece(reply),
            Work::Release {
                place,
                local,
                outcome,
            } => self.after_release(place, local, outcome, reply),
        }
    }
}
