//! The host calls on calls with their arguments, and the checks of their places and limits.

ghost use Rattle.std.specs.Prelude.{◌≡◌, ℕ, ◌+◌, ◌<◌, ◌≤◌, ◌^◌, List, Option, Some, None, nat_le, if◌then◌else◌};
ghost use Rattle.faaslet_meaning.specs.declared.outcome.Trap.{Trap as trap};
ghost use Rattle.faaslet_meaning.specs.HostCalls.{HostCall};
ghost use Rattle.wasm_interp.specs.StandsFor.{AsksHost};
ghost use Rattle.host_calls.specs.CallHosts.{AreSmall, host_of, refusal_of};

use crate::call_known::CallKnown;
use faaslet_meaning::Trap;
use wasm_interp::HostAsk;

/// A host call on calls, with its arguments.
#[derive(Clone, Copy)]
pub enum CallHost {
    InputSize,
    ReadInput {
        off: u32,
        ptr: u32,
        len: u32,
    },
    WriteOutput {
        ptr: u32,
        len: u32,
    },
    ChainCall {
        function: u32,
        ptr: u32,
        len: u32,
    },
    AwaitCall {
        child: u32,
    },
    OutputSize {
        child: u32,
    },
    ReadOutput {
        child: u32,
        off: u32,
        ptr: u32,
        len: u32,
    },
}

/// How many functions a call may call, how long its input and its output are, and how long its output may be.
#[derive(Clone, Copy)]
pub struct CallLimits {
    pub callees: u32,
    pub input: u32,
    pub output: u32,
    pub room: u32,
}

pub(crate) fn unless(holds: bool, trap: Trap) -> Option<Trap>
    ensures { result ≡ (if holds then None else Some trap) }
{
    if holds { None } else { Some(trap) }
}

pub(crate) fn fits(off: u32, len: u32, size: u32) -> bool
    ensures { result ≡ nat_le (off + len) size }
{
    u64::from(off) + u64::from(len) <= u64::from(size)
}

impl CallHost {
    /// The host call that the machine stands at.
    pub fn of(ask: HostAsk) -> CallHost
        requires low { 16 ≤ ask.call }
        requires high { ask.call ≤ 22 }
        requires small { AreSmall ask.args }
        ensures { (h : HostCall) → AsksHost ask h → h ≡ host_of result }
    {
        let [first, second, third, fourth] = ask.args;
        let (first, second) = (first as u32, second as u32);
        let (third, fourth) = (third as u32, fourth as u32);
        match ask.call {
            16 => CallHost::InputSize,
            17 => CallHost::ReadInput {
                off: first,
                ptr: second,
                len: third,
            },
            18 => CallHost::WriteOutput {
                ptr: first,
                len: second,
            },
            19 => CallHost::ChainCall {
                function: first,
                ptr: second,
                len: third,
            },
            20 => CallHost::AwaitCall { child: first },
            21 => CallHost::OutputSize { child: first },
            _ => CallHost::ReadOutput {
                child: first,
                off: second,
                ptr: third,
                len: fourth,
            },
        }
    }

    /// The trap of the first check that doesn't pass, of those on places and limits.
    pub fn refusal(self, known: &CallKnown, limits: CallLimits) -> Option<Trap>
        ensures { result ≡ refusal_of known.now limits self }
    {
        match self {
            CallHost::InputSize => None,
            CallHost::ReadInput { off, len, .. } => {
                unless(fits(off, len, limits.input), Trap::CallRange)
            }
            CallHost::WriteOutput { len, .. } => {
                unless(fits(limits.output, len, limits.room), Trap::OutputFull)
            }
            CallHost::ChainCall { function, .. } => {
                unless(function < limits.callees, Trap::BadFunction)
            }
            CallHost::AwaitCall { child } => {
                unless((child as usize) < known.count(), Trap::BadChild)
            }
            CallHost::OutputSize { child } => unless(known.noted(child).is_some(), Trap::BadChild),
            CallHost::ReadOutput {
                child,
                off,
                len,
                ..
            } => match known.noted(child) {
                None => Some(Trap::BadChild),
                Some(length) => unless(fits(off, len, length), Trap::CallRange),
            },
        }
    }
}
