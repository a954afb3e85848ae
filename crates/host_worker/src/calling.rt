//! A call goes from question to question, and each is served.
ghost use Rattle.std.specs.Prelude.{◌≡◌, ◌++◌};
ghost use Rattle.faaslet_meaning.specs.Channels.{Transcript};
ghost use Rattle.host_worker.specs.Asking.{Asking, Comes, OnState, OnTable, channel_asked};
ghost use Rattle.host_worker.specs.Busy.{Busy, Errand, SameBench, Went};
ghost use Rattle.host_worker.specs.Grew.{Grew};
ghost use Rattle.host_worker.specs.Halts.{Halts};

use crate::bench::{Bench, Halt, Passes, Tiers};
use crate::gate::Gate;
use call_service::{Service, serve_call};
use faaslet_meaning::{Ask, Channel};
use faaslet_run::Turn;
use state_service::serve_state;
use std::sync::Wait;

// The channel of a question.
fn channel_of(ask: &Ask) -> Channel
    ensures { result ≡ channel_asked ask.now }
{
    match *ask {
        Ask::Region { channel, .. } => channel,
        Ask::Move { key, .. } => Channel::Local(key),
        Ask::Submit { .. } | Ask::Look { .. } => Channel::Table,
    }
}

// A question on shared state.
fn ask_state<'s, R: Wait>(rt: &R, bench: Bench<'s>, tiers: Tiers, ask: &Ask) -> Bench<'s>
    requires asks { (e : Errand) × (t : Transcript) × Asking tiers bench e t ask.now }
    requires kind { OnState ask.now }
    ensures went { (e : Errand) (t : Transcript) → Asking tiers.entry bench.entry e t ask.now → Went tiers.entry result e t }
    ensures same { SameBench bench.entry result }
    ensures grew { Grew bench.entry result }
{
    let Bench {
        number,
        call,
        callees,
        mut faaslet,
        passes,
    } = bench;
    let Passes { mut state, table } = passes;
    let reply = serve_state(
        rt,
        ask,
        tiers.local,
        tiers.global,
        &mut state,
        faaslet.scratch_mut(),
    );
    faaslet.answer(reply);
    Bench {
        number,
        call,
        callees,
        faaslet,
        passes: Passes { state, table },
    }
}

// A question on the call table.
fn ask_table<'s, R: Wait>(
    rt: &R,
    bench: Bench<'s>,
    tiers: Tiers,
    ask: &Ask,
) -> (Bench<'s>, Option<Halt>)
    requires asks { (e : Errand) × (t : Transcript) × Asking tiers bench e t ask.now }
    requires kind { OnTable ask.now }
    ensures comes { (e : Errand) (t : Transcript) → Asking tiers.entry bench.entry e t ask.now → Comes tiers.entry result.0 e t result.1 }
    ensures same { SameBench bench.entry result.0 }
    ensures grew { Grew bench.entry result.0 }
{
    let Bench {
        number,
        call,
        callees,
        mut faaslet,
        passes,
    } = bench;
    let Passes { state, table } = passes;
    let (table, service) = serve_call(
        rt,
        ask,
        callees,
        tiers.table,
        table,
        call,
        faaslet.scratch_mut(),
    );
    match service {
        Service::Replied(reply) => {
            faaslet.answer(reply);
            let passes = Passes { state, table };
            let bench = Bench {
                number,
                call,
                callees,
                faaslet,
                passes,
            };
            (bench, None)
        }
        Service::Awaits(child) => {
            let passes = Passes { state, table };
            let bench = Bench {
                number,
                call,
                callees,
                faaslet,
                passes,
            };
            (bench, Some(Halt::Awaits(child)))
        }
    }
}

// The call goes on to its next question, which is served, or to its end.
fn go_on<'s, R: Wait, G: Gate>(
    rt: &R,
    bench: Bench<'s>,
    tiers: Tiers,
    gate: &G,
) -> (Bench<'s>, Option<Halt>)
    requires busy { (e : Errand) × (t : Transcript) × Busy tiers bench e t }
    ensures comes { (e : Errand) (t : Transcript) → Busy tiers.entry bench.entry e t → Comes tiers.entry result.0 e t result.1 }
    ensures same { SameBench bench.entry result.0 }
    ensures grew { Grew bench.entry result.0 }
{
    let mut bench = bench;
    match bench.faaslet.next() {
        Turn::Ended(outcome) => {
            // It tells that no more fuel was used than there was.
            let _used = bench.faaslet.used();
            (bench, Some(Halt::Ended(outcome)))
        }
        Turn::Asks(ask) => {
            gate.pass(bench.number, channel_of(&ask));
            serve(rt, bench, tiers, &ask)
        }
    }
}

fn serve<'s, R: Wait>(
    rt: &R,
    bench: Bench<'s>,
    tiers: Tiers,
    ask: &Ask,
) -> (Bench<'s>, Option<Halt>)
    requires asks { (e : Errand) × (t : Transcript) × Asking tiers bench e t ask.now }
    ensures comes { (e : Errand) (t : Transcript) → Asking tiers.entry bench.entry e t ask.now → Comes tiers.entry result.0 e t result.1 }
    ensures same { SameBench bench.entry result.0 }
    ensures grew { Grew bench.entry result.0 }
{
    match ask {
        Ask::Region { .. } | Ask::Move { .. } => (ask_state(rt, bench, tiers, ask), None),
        Ask::Submit { .. } | Ask::Look { .. } => ask_table(rt, bench, tiers, ask),
    }
}

/// Serves the call on the bench, question by question, until it is over, or until it looks at a child that isn't finished. It
/// may be called again then. Each question waits for its turn; where another bench keeps a lock that blocks it, it doesn't
/// return. A Submit takes memory.
pub fn run_call<'s, R: Wait, G: Gate>(
    rt: &R,
    bench: Bench<'s>,
    tiers: Tiers,
    gate: &G,
) -> (Bench<'s>, Halt)
    requires busy { (e : Errand) × (t : Transcript) × Busy tiers bench e t }
    ensures went { (e : Errand) (t : Transcript) → Busy tiers.entry bench.entry e t
        → (w : Went tiers.entry result.0 e t) × Halts tiers.entry result.0 e (t ++ w.trail) result.1 }
    ensures same { SameBench bench.entry result.0 }
    ensures grew { Grew bench.entry result.0 }
{
    let mut bench = bench;
    for _ in rt.forever() {
        let (next, halt) = go_on(rt, bench, tiers, gate);
        bench = next;
        if let Some(halt) = halt {
            return (bench, halt);
        }
    }
    unreachable!()
}
