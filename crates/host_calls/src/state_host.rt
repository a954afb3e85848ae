//! The host calls on state with their arguments, and the checks of their places, modes, ranges and limits.

ghost use Rattle.std.specs.Prelude.{◌≡◌, ◌≤◌, slice_index};
ghost use Rattle.faaslet_meaning.specs.HostCalls.{HostCall};
ghost use Rattle.wasm_interp.specs.StandsFor.{AsksHost};
ghost use Rattle.host_calls.specs.CallHosts.{AreSmall};
ghost use Rattle.host_calls.specs.StateHosts.{host_at, host_of, needs_of, limit_of, refusal_of};

use crate::call_host::{fits, unless};
use crate::modes::includes;
use crate::state_known::{Known, Tier};
use faaslet_meaning::{Grant, Mode, Trap};
use wasm_interp::HostAsk;

/// How many keys a call may have mapped, and how many locks it may hold.
const MAPPING_LIMIT: u32 = 16;

const LOCK_LIMIT: u32 = 16;

/// What a host call on state does with a key. Buffers lie at `ptr`, ranges of the key at `off`.
#[derive(Clone, Copy)]
pub enum StateKind {
    Size,
    Used,
    Get,
    Read { off: u32, ptr: u32, len: u32 },
    Set { off: u32, ptr: u32, len: u32 },
    Push,
    Pull,
    PushPart { off: u32, len: u32 },
    PullPart { off: u32, len: u32 },
    Append { ptr: u32, len: u32 },
    Lock { tier: Tier, mode: Mode },
    Unlock { tier: Tier },
}

/// A host call on state, on the key at a place of the grants.
#[derive(Clone, Copy)]
pub struct StateHost {
    pub place: u32,
    pub kind: StateKind,
}

impl StateKind {
    fn of(ask: HostAsk) -> StateKind
        requires high { ask.call ≤ 15 }
        requires small { AreSmall ask.args }
        ensures { (h : HostCall) → AsksHost ask h → h ≡ host_at (slice_index ask.args 0) result }
    {
        let [_, first, second, third] = ask.args;
        let (first, second, third) = (first as u32, second as u32, third as u32);
        match ask.call {
            0 => StateKind::Size,
            1 => StateKind::Used,
            2 => StateKind::Get,
            3 => StateKind::Read {
                off: first,
                ptr: second,
                len: third,
            },
            4 => StateKind::Set {
                off: first,
                ptr: second,
                len: third,
            },
            5 => StateKind::Push,
            6 => StateKind::Pull,
            7 => StateKind::PushPart {
                off: first,
                len: second,
            },
            8 => StateKind::PullPart {
                off: first,
                len: second,
            },
            9 => StateKind::Append {
                ptr: first,
                len: second,
            },
            10 => StateKind::Lock {
                tier: Tier::Local,
                mode: Mode::Read,
            },
            11 => StateKind::Lock {
                tier: Tier::Local,
                mode: Mode::Write,
            },
            12 => StateKind::Unlock { tier: Tier::Local },
            13 => StateKind::Lock {
                tier: Tier::Global,
                mode: Mode::Read,
            },
            14 => StateKind::Lock {
                tier: Tier::Global,
                mode: Mode::Write,
            },
            _ => StateKind::Unlock { tier: Tier::Global },
        }
    }

    fn needs(self) -> Mode
        ensures { result ≡ needs_of self }
    {
        match self {
            StateKind::Size
            | StateKind::Used
            | StateKind::Get
            | StateKind::Read { .. }
            | StateKind::Unlock { .. } => Mode::Read,
            StateKind::Lock { mode, .. } => mode,
            _ => Mode::Write,
        }
    }

    // The trap of its limit, on a key of this size at a place.
    fn limit(self, place: u32, size: u32, known: &Known) -> Option<Trap>
        ensures { result ≡ limit_of known.now place size self }
    {
        let entry = known.at(place);
        let few_mappings = known.mappings() < MAPPING_LIMIT;
        let few_locks = known.locks() < LOCK_LIMIT;
        match self {
            StateKind::Get => unless(entry.is_mapped() || few_mappings, Trap::TooManyMappings),
            StateKind::Read { off, len, .. }
            | StateKind::Set { off, len, .. }
            | StateKind::PushPart { off, len }
            | StateKind::PullPart { off, len } => unless(fits(off, len, size), Trap::StateRange),
            StateKind::Lock { tier, .. } => {
                if entry.holds(tier) {
                    Some(Trap::LockMisuse)
                } else {
                    unless(few_locks, Trap::TooManyLocks)
                }
            }
            StateKind::Unlock { tier } => unless(entry.holds(tier), Trap::LockMisuse),
            _ => None,
        }
    }
}

impl StateHost {
    /// The host call that the machine stands at.
    pub fn of(ask: HostAsk) -> StateHost
        requires high { ask.call ≤ 15 }
        requires small { AreSmall ask.args }
        ensures { (h : HostCall) → AsksHost ask h → h ≡ host_of result }
    {
        StateHost {
            place: ask.args[0] as u32,
            kind: StateKind::of(ask),
        }
    }

    /// The trap of the first check that doesn't pass, of those on places, modes, ranges and limits.
    pub fn refusal(self, grants: &[Grant], known: &Known) -> Option<Trap>
        ensures { result ≡ refusal_of grants.now known.now self }
    {
        match grants.get(self.place as usize) {
            None => Some(Trap::BadKey),
            Some(grant) => {
                if includes(grant.mode, self.kind.needs()) {
                    self.kind.limit(self.place, grant.size, known)
                } else {
                    Some(Trap::Denied)
                }
            }
        }
    }
}
