//! How far a call is.

ghost use Rattle.std.specs.Prelude.{◌≡◌};
ghost use Rattle.faaslet_meaning.specs.Records as said;
ghost use Rattle.call_table.specs.Makers.{is_on};

use faaslet_meaning::CallState;

pub(crate) fn is_queued(state: &CallState) -> bool
    ensures { result ≡ said.is_queued state.now }
{
    matches!(state, CallState::Queued)
}

pub(crate) fn is_open(state: &CallState) -> bool
    ensures { result ≡ said.is_open state.now }
{
    matches!(state, CallState::Taken { .. })
}

pub(crate) fn is_on(state: &CallState, bench: u32) -> bool
    ensures { result ≡ is_on bench state.now }
{
    match state {
        CallState::Taken { bench: on, .. } => *on == bench,
        _ => false,
    }
}
