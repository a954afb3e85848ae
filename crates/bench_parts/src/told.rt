//! Laws on what a call was told by its questions and their replies, as what its bench heard. The bodies are empty: what counts is what
//! they ensure.
ghost use Rattle.std.specs.Prelude.{◌≡◌, ◌+◌, ◌++◌, ℕ, [], None, IsTrue, List, filter_map, map, not};
ghost use Rattle.std.specs.List.{list_all};
ghost use Rattle.faaslet_meaning.specs.declared.grant.Channel.{Channel};
ghost use Rattle.faaslet_meaning.specs.declared.grant.Channel.TheVariants.{Table};
ghost use Rattle.faaslet_meaning.specs.declared.grant.Grant.{Grant};
ghost use Rattle.faaslet_meaning.specs.declared.outcome.Broken.{Broken};
ghost use Rattle.faaslet_meaning.specs.declared.outcome.Outcome.{Outcome};
ghost use Rattle.faaslet_meaning.specs.declared.outcome.Outcome.TheVariants as outcome;
ghost use Rattle.faaslet_meaning.specs.CallState.{Progress, State, fresh_state, over, runs};
ghost use Rattle.faaslet_meaning.specs.Channels.{RegionOperation, Reply, Transcript, counts, is_on_region, on_region, told_by};
ghost use Rattle.faaslet_meaning.specs.Configuration.{Configuration};
ghost use Rattle.faaslet_meaning.specs.Fresh.{Function, breaks, fresh, makes};
ghost use Rattle.faaslet_meaning.specs.Goes.{Goes};
ghost use Rattle.faaslet_meaning.specs.Runs.{Runs, invocation};
ghost use Rattle.call_service.specs.Asked.{told_as};
ghost use Rattle.session_meaning.specs.Answered.{of_region, of_table, told_of};
ghost use Rattle.session_meaning.specs.Ran.{is_granted};
ghost use Rattle.bench_parts.specs.AnsweredBy.{answered, answered_by};

/// It is what the transcript tells. Of a key it is what a maker hears of a region, and on the table, where there are Submits and Looks
/// alone, what the call's own operations there are answered.
pub fn what_a_call_was_told()
    ensures told { (call : ℕ) (transcript : Transcript) (channel : Channel)
        → told_of (answered_by call transcript channel) ≡ told_by transcript channel }
    ensures of_keys { (heard : List (RegionOperation × Reply))
        → map (answered None) (map (λ x. (on_region x.0, x.1)) heard) ≡ map of_region heard }
    ensures on_table { (call : ℕ) (transcript : Transcript) → IsTrue (list_all (λ x. not (is_on_region x.0)) (told_by transcript Table))
        → answered_by call transcript Table ≡ filter_map of_table (told_as call (told_by transcript Table)) }
{}

/// A call that has ended, or is broken from the start, ran with that, and it is counted as that.
pub fn what_a_call_ran_with()
    ensures ended { (f : Function) (input : List ℕ) (c : Configuration) (transcript : Transcript) (s : State) (outcome : Outcome)
        (used call : ℕ) → fresh f ≡ makes c → Goes (invocation f input) (runs (fresh_state c)) transcript (over s outcome)
        → used + s.config.fuel ≡ f.fuel
        → Runs f input (λ channel. told_of (answered_by call transcript channel)) outcome s.output used }
    ensures broken { (f : Function) (input : List ℕ) (why : Broken) (call : ℕ) → fresh f ≡ breaks why
        → Runs f input (λ channel. told_of (answered_by call [] channel)) (outcome.Broken why) [] 0 }
    ensures counted { (grants : List Grant) (call : ℕ) (transcript : Transcript)
        → counts grants (λ channel. told_of (answered_by call transcript channel)) ≡ counts grants (told_by transcript) }
{}

/// What is told later comes behind.
pub fn what_was_told_joins()
    ensures { (call : ℕ) (before after : Transcript) (channel : Channel)
        → answered_by call (before ++ after) channel ≡ answered_by call before channel ++ answered_by call after channel }
{}

/// Wherever a call comes to, on each channel it was granted what it did, with the mode for it; and on the table it did nothing but
/// submit and look.
pub fn what_was_told_is_granted()
    ensures granted { (f : Function) (input : List ℕ) (c : Configuration) (transcript : Transcript) (p : Progress) (call : ℕ)
        (channel : Channel) → fresh f ≡ makes c → Goes (invocation f input) (runs (fresh_state c)) transcript p
        → IsTrue (list_all (is_granted call f.grants channel) (answered_by call transcript channel)) }
    ensures on_table { (f : Function) (input : List ℕ) (c : Configuration) (transcript : Transcript) (p : Progress)
        → fresh f ≡ makes c → Goes (invocation f input) (runs (fresh_state c)) transcript p
        → IsTrue (list_all (λ x. not (is_on_region x.0)) (told_by transcript Table)) }
{}
