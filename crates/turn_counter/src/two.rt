//! Two threads add to one tally.
ghost use Rattle.std.specs.Prelude.{◌≡◌, ◌+◌, ◌*◌, ◌%◌, ◌^◌, ◌∷◌, [], replicate, IfSome};
ghost use Rattle.turn_cell.specs.Cell.{IsPassOf, whole_list};
ghost use Rattle.turn_cell.specs.History.{own, entry};
ghost use Rattle.turn_counter.specs.Added.{HasAdded};

use crate::adding::add_times;
use crate::tally::Tally;
use std::alloc::Global;
use std::sync::Wait;
use std::thread::{Threads, join};
use turn_cell::{Pass, Seen, Turns};

/// Two passes of one cell.
pub type Pair = (Pass<Tally>, Pass<Tally>);

/// Two threads add, each its own amount, so many times each. The tally at the end has it all, and the entries of each
/// thread stand in the one history. `None` is for want of memory.
pub fn add_in_two<R: Threads + Wait + Sync>(
    rt: &R,
    alloc: Global,
    start: u64,
    amounts: (u64, u64),
    times: u64,
) -> Option<(Tally, Seen<Tally>)>
    ensures value { IfSome result (λ r. r.0.count ≡ (start + (times * amounts.0 + times * amounts.1)) % 2 ^ 64) }
    ensures first { IfSome result (λ r. own 0 (whole_list r.1) ≡ replicate times (entry 0 (amounts.0 ∷ []))) }
    ensures second { IfSome result (λ r. own 1 (whole_list r.1) ≡ replicate times (entry 1 (amounts.1 ∷ []))) }
{
    let Ok((turns, mut passes)) = Turns::open(alloc, Tally { count: start }, 2) else {
        return None;
    };
    let Some(second) = passes.pop() else {
        unreachable!()
    };
    let Some(first) = passes.pop() else {
        unreachable!()
    };
    let (first, second) = two_threads(rt, &turns, (first, second), amounts, times);
    passes.push_reserved(first);
    passes.push_reserved(second);
    Some(turns.close(passes))
}

/// Two threads add in turns of these passes.
pub fn two_threads<R: Threads + Wait + Sync>(
    rt: &R,
    turns: &Turns<Tally>,
    passes: Pair,
    amounts: (u64, u64),
    times: u64,
) -> Pair
    requires first { IsPassOf passes.0 turns.now }
    requires second { IsPassOf passes.1 turns.now }
    ensures first { HasAdded turns.now amounts.0 times passes.0 result.0 }
    ensures second { HasAdded turns.now amounts.1 times passes.1 result.1 }
{
    let (first, second) = passes;
    let (x, y) = amounts;
    join(
        rt,
        move || -> Pass<Tally>
            requires { IsPassOf first turns.now }
            ensures { HasAdded turns.entry.now x times first result }
        { add_times(rt, turns, first, x, times) },
        move || -> Pass<Tally>
            requires { IsPassOf second turns.now }
            ensures { HasAdded turns.entry.now y times second result }
        { add_times(rt, turns, second, y, times) },
    )
}
