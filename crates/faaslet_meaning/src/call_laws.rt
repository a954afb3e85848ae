//! Laws over the definitions of calls: how a call goes on, and what holds wherever it comes to. The
//! bodies are empty: what counts is what they ensure.

ghost use Rattle.std.specs.Prelude.{◌≡◌, ℕ, ◌<◌, List, ◌++◌, length, IsTrue, Some};
ghost use Rattle.faaslet_meaning.specs.declared.grant.Channel.{Channel};
ghost use Rattle.faaslet_meaning.specs.declared.outcome.Outcome.{Outcome};
ghost use Rattle.faaslet_meaning.specs.Asked.{question_at, IsCarried, IsNumbered};
ghost use Rattle.faaslet_meaning.specs.CallState.{
  Invocation,
  Tier,
  Lock,
  State,
  Progress,
  runs,
  asks,
  over,
  fresh_state,
};
ghost use Rattle.faaslet_meaning.specs.Channels.{
  on_region,
  RegionOperation,
  Reply,
  Question,
  ask,
  Transcript,
  entries_of,
  replies_on,
  told_by,
};
ghost use Rattle.faaslet_meaning.specs.Checks.{holds};
ghost use Rattle.faaslet_meaning.specs.Configuration.{Configuration};
ghost use Rattle.faaslet_meaning.specs.Fresh.{Function, makes, fresh};
ghost use Rattle.faaslet_meaning.specs.Goes.{Goes, Rests, NoWant, replies_in};
ghost use Rattle.faaslet_meaning.specs.Reach.{Reaches};
ghost use Rattle.faaslet_meaning.specs.Runs.{Run, invocation};
ghost use Rattle.faaslet_meaning.specs.Serve.{channel};
ghost use Rattle.faaslet_meaning.specs.Valid.{Valid};
ghost use Rattle.faaslet_meaning.specs.Formed.{Formed, FormedAt, KeysDiffer};

/// A whole run is a way that comes to its end.
pub fn runs_are_ways()
    ensures there { (j : Invocation) (p : Progress) (transcript : Transcript) (s : State) (o : Outcome)
        → Run j p transcript s o → Goes j p transcript (over s o) }
    ensures back { (j : Invocation) (p : Progress) (transcript : Transcript) (s : State) (o : Outcome)
        → Goes j p transcript (over s o) → Run j p transcript s o }
{}

/// A call comes to the points to which there is a way.
pub fn reached_by_ways()
    ensures there { (j : Invocation) (p q : Progress)
        → Reaches j p q → (transcript : Transcript) × Goes j p transcript q }
    ensures back { (j : Invocation) (p q : Progress) (transcript : Transcript)
        → Goes j p transcript q → Reaches j p q }
{}

/// A way goes on by another: its transcript is the first one's, and then the second one's. Where a
/// transcript is cut, there is a point between.
pub fn ways_join()
    ensures joined { (j : Invocation) (p q r : Progress) (before after : Transcript)
        → Goes j p before q → Goes j q after r → Goes j p (before ++ after) r }
    ensures parted { (j : Invocation) (p r : Progress) (before after : Transcript)
        → Goes j p (before ++ after) r
        → (q : Progress) × Goes j p before q × Goes j q after r }
{}

/// On each channel too, what was told comes after what was told before.
pub fn told_joins()
    ensures { (before after : Transcript) (channel : Channel)
        → told_by (before ++ after) channel ≡ told_by before channel ++ told_by after channel }
{}

/// By the same replies a call comes to one question, or to one end, by one transcript.
pub fn one_way()
    ensures { (j : Invocation) (p q r : Progress) (first second : Transcript)
        → Rests q → Rests r → Goes j p first q → Goes j p second r
        → replies_in first ≡ replies_in second → (first ≡ second) × (q ≡ r) }
{}

/// With more replies it comes to the same question on its way.
pub fn one_way_on()
    ensures { (j : Invocation) (p q r : Progress) (first second : Transcript) (more : List Reply)
        → Rests q → Rests r → Goes j p first q → Goes j p second r
        → replies_in second ≡ replies_in first ++ more
        → (rest : Transcript) × (second ≡ first ++ rest) × Goes j q rest r }
{}

/// The same where the replies are known channel by channel, want of memory aside.
pub fn one_way_by_channels()
    ensures { (j : Invocation) (p q r : Progress) (first second : Transcript)
        → Rests q → Rests r → NoWant first → NoWant second
        → Goes j p first q → Goes j p second r
        → ((channel : Channel)
        → replies_on channel (entries_of first) ≡ replies_on channel (entries_of second))
        → (first ≡ second) × (q ≡ r) }
{}

/// A call of a valid module that is about to run `main` is well formed.
pub fn fresh_is_formed()
    ensures { (f : Function) (input : List ℕ) (c : Configuration)
        → Valid f.code → fresh f ≡ makes c → Formed (invocation f input) (fresh_state c) }
{}

/// A well-formed call is well formed wherever it comes to, by its steps and by replies that fit.
pub fn stays_formed()
    ensures { (j : Invocation) (s : State) (p : Progress) (transcript : Transcript)
        → Formed j s → Goes j (runs s) transcript p → FormedAt j p }
{}

/// Its state says what it asks.
pub fn question_is_known()
    ensures { (j : Invocation) (s t : State) (q : Question) (transcript : Transcript)
        → Formed j s → Goes j (runs s) transcript (asks t q) → question_at j t ≡ Some q }
{}

/// What it asks has numbers below 2 ^ 32, and at most as many bytes as a buffer.
pub fn asks_are_carried()
    ensures { (j : Invocation) (s t : State) (q : Question) (transcript : Transcript)
        → IsNumbered j → Formed j s → Goes j (runs s) transcript (asks t q) → IsCarried q }
{}

/// It unlocks nothing but a lock that it holds.
pub fn unlocks_what_it_holds()
    ensures { (j : Invocation) (s t : State) (c : Channel) (transcript : Transcript)
        → Formed j s → Goes j (runs s) transcript (asks t (ask c (on_region RegionOperation.unlock)))
        → (lock : Lock) × (c ≡ channel j lock.tier lock.place)
        × IsTrue (holds t lock.tier lock.place) }
{}

/// Where grants are on different keys, each lock has a channel of its own.
pub fn locks_have_own_channels()
    ensures { (j : Invocation) (a b : Lock)
        → KeysDiffer j → a.place < length j.program.grants → b.place < length j.program.grants
        → channel j a.tier a.place ≡ channel j b.tier b.place → a ≡ b }
{}
