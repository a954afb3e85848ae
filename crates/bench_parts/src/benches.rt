//! Laws on the calls of one bench: how they begin and end, and that nothing else changes what is known of them. The bodies are empty:
//! what counts is what they ensure.
ghost use Rattle.std.specs.Prelude.{◌≡◌, ◌++◌, ℕ, [], IsTrue, List, Some, slice_get};
ghost use Rattle.std.specs.List.{list_all};
ghost use Rattle.faaslet_meaning.specs.declared.call.CallRecord.{CallRecord};
ghost use Rattle.faaslet_meaning.specs.declared.grant.Channel.{Channel};
ghost use Rattle.faaslet_meaning.specs.declared.outcome.Outcome.{Outcome};
ghost use Rattle.faaslet_meaning.specs.Channels.{counts};
ghost use Rattle.faaslet_meaning.specs.Records.{takes};
ghost use Rattle.faaslet_meaning.specs.Runs.{Runs};
ghost use Rattle.held_calls.specs.Places.{EndedAt, SameOn, TookAt};
ghost use Rattle.session_meaning.specs.Answered.{told_of};
ghost use Rattle.session_meaning.specs.Own.{Session, heard, host_of_bench, part};
ghost use Rattle.session_meaning.specs.Plan.{NamedFunction, Plan};
ghost use Rattle.session_meaning.specs.Ran.{is_granted};
ghost use Rattle.bench_parts.specs.Parts.{Heard, part_in};
ghost use Rattle.bench_parts.specs.Ran.{BenchRan};
ghost use Rattle.bench_parts.specs.Runs.{BenchRuns};

/// In a session that has ended, the parts are those of its records and of what its benches heard.
pub fn parts_are_own()
    ensures { (plan : Plan) (s : Session) (r : CallRecord) (host bench : ℕ) (channel : Channel)
        → part plan s r host bench channel ≡ part_in plan s.records bench (heard plan s bench host) r channel }
{}

/// At first a bench has no calls, and was told nothing.
pub fn a_bench_begins()
    ensures { (plan : Plan) (bench : ℕ) → BenchRan plan [] bench (λ channel. []) }
{}

/// With a take a call runs on the bench, and all its others were taken before.
pub fn a_bench_takes()
    ensures { (plan : Plan) (bench call : ℕ) (before after : List CallRecord) (told_before : Heard)
        → (took : TookAt (host_of_bench plan bench) bench call before after) → BenchRan plan before bench told_before
        → BenchRuns plan after bench told_before call (takes before) took.of.function took.of.input }
{}

/// With the end of the call no call runs. Its part is what it was told, behind all that was heard before.
pub fn a_bench_ends()
    ensures { (plan : Plan) (bench call order function : ℕ) (input : List ℕ) (f : NamedFunction) (outcome : Outcome) (used : ℕ)
        (output counted : List ℕ) (before after : List CallRecord) (told_before told : Heard)
        → BenchRuns plan before bench told_before call order function input
        → EndedAt bench call outcome used output counted before after
        → slice_get plan.functions function ≡ Some f
        → counted ≡ counts f.function.grants (λ channel. told_of (told channel))
        → ∥ Runs f.function input (λ channel. told_of (told channel)) outcome output used ∥₁
        → ((channel : Channel) → IsTrue (list_all (is_granted call f.function.grants channel) (told channel)))
        → BenchRan plan after bench (λ channel. told_before channel ++ told channel) }
{}

/// What leaves the calls of a bench as they are leaves what is known of it.
pub fn others_leave_it()
    ensures ran { (plan : Plan) (bench : ℕ) (before after : List CallRecord) (told : Heard)
        → SameOn bench before after → BenchRan plan before bench told → BenchRan plan after bench told }
    ensures runs { (plan : Plan) (bench call order function : ℕ) (input : List ℕ) (before after : List CallRecord) (told : Heard)
        → SameOn bench before after → BenchRuns plan before bench told call order function input
        → BenchRuns plan after bench told call order function input }
{}

/// It is known of whatever is the same on each channel.
pub fn heard_alike()
    ensures ran { (plan : Plan) (bench : ℕ) (records : List CallRecord) (told other : Heard)
        → ((channel : Channel) → told channel ≡ other channel)
        → BenchRan plan records bench told → BenchRan plan records bench other }
    ensures runs { (plan : Plan) (bench call order function : ℕ) (input : List ℕ) (records : List CallRecord) (told other : Heard)
        → ((channel : Channel) → told channel ≡ other channel)
        → BenchRuns plan records bench told call order function input
        → BenchRuns plan records bench other call order function input }
{}
