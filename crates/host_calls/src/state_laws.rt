//! What replies to a host call on state may be, as a law about the definitions alone.

ghost use Rattle.std.specs.Prelude.{◌≡◌, Some, true};
ghost use Rattle.faaslet_meaning.specs.declared.ask.Reply.{Reply};
ghost use Rattle.faaslet_meaning.specs.Asked.{question_at};
ghost use Rattle.faaslet_meaning.specs.Asks.{RepliesAs};
ghost use Rattle.faaslet_meaning.specs.CallState.{Invocation, State};
ghost use Rattle.faaslet_meaning.specs.Channels.{Question, Reply as Answer, has_form};
ghost use Rattle.host_calls.specs.States.{Here, IsAmid, AtQuestion, Belongs};
ghost use Rattle.host_calls.specs.declared.state_call.StateStage.{StateStage};

/// A reply that stands for one of the form of the question belongs to the call that asked it.
pub fn state_replies_belong()
    ensures { (t : StateStage) (h : Here) (j : Invocation) (s : State) (q : Question) (r : Reply) (answer : Answer)
        → IsAmid t h s → AtQuestion t j.program.grants h.known h.memory → question_at j s ≡ Some q
        → RepliesAs q r h.scratch answer → has_form q answer ≡ true → Belongs t r }
{}
