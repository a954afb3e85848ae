//! A law of the replies to host calls on calls. Its body is empty: what counts is what it ensures.

ghost use Rattle.std.specs.Prelude.{◌≡◌, IsTrue, Some};
ghost use Rattle.faaslet_meaning.specs.Asked.{question_at};
ghost use Rattle.faaslet_meaning.specs.Asks.{RepliesAs};
ghost use Rattle.faaslet_meaning.specs.Call.{fits};
ghost use Rattle.faaslet_meaning.specs.CallState.{Invocation, State};
ghost use Rattle.faaslet_meaning.specs.Channels.{Question, Reply as Answer};
ghost use Rattle.faaslet_meaning.specs.declared.ask.Reply.{Reply};
ghost use Rattle.host_calls.specs.Calls.{Here, IsAmid, IsOf, AtQuestion, Belongs};
ghost use Rattle.host_calls.specs.declared.call_call.CallStage.{CallStage};

/// A reply that fits the question at which a call stands belongs to it.
pub fn fitting_replies_belong()
    ensures { (t : CallStage) (h : Here) (j : Invocation) (s : State) (q : Question) (r : Reply) (answer : Answer)
        → IsAmid t h j s → IsOf h s → AtQuestion t h.memory → question_at j s ≡ Some q
        → IsTrue (fits s q answer) → RepliesAs q r h.scratch answer → Belongs t h.children r }
{}
