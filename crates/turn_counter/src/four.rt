//! Four threads add to one tally, many times each.
ghost use Rattle.std.specs.Prelude.{◌≡◌, ◌*◌, ◌%◌, ◌^◌, IfSome};
ghost use Rattle.turn_cell.specs.Cell.{IsPassOf};
ghost use Rattle.turn_counter.specs.Added.{HasAdded};

use crate::tally::Tally;
use crate::two::{Pair, two_threads};
use std::alloc::Global;
use std::sync::Wait;
use std::thread::{Threads, join};
use turn_cell::Turns;

/// Four threads add the amount, each so many times. The tally at the end has it all. `None` is for want of memory.
pub fn add_in_four<R: Threads + Wait + Sync>(
    rt: &R,
    alloc: Global,
    amount: u64,
    times: u64,
) -> Option<Tally>
    ensures { IfSome result (λ t. t.count ≡ (4 * (times * amount)) % 2 ^ 64) }
{
    let Ok((turns, mut passes)) = Turns::open(alloc, Tally { count: 0 }, 4) else {
        return None;
    };
    let (Some(d), Some(c)) = (passes.pop(), passes.pop()) else {
        unreachable!()
    };
    let (Some(b), Some(a)) = (passes.pop(), passes.pop()) else {
        unreachable!()
    };
    let ((a, b), (c, d)) = four_threads(rt, &turns, (a, b), (c, d), amount, times);
    passes.push_reserved(a);
    passes.push_reserved(b);
    passes.push_reserved(c);
    passes.push_reserved(d);
    let (tally, _seen) = turns.close(passes);
    Some(tally)
}

fn four_threads<R: Threads + Wait + Sync>(
    rt: &R,
    turns: &Turns<Tally>,
    low: Pair,
    high: Pair,
    amount: u64,
    times: u64,
) -> (Pair, Pair)
    requires low { IsPassOf low.0 turns.now × IsPassOf low.1 turns.now }
    requires high { IsPassOf high.0 turns.now × IsPassOf high.1 turns.now }
    ensures low { HasAdded turns.now amount times low.0 result.0.0 × HasAdded turns.now amount times low.1 result.0.1 }
    ensures high { HasAdded turns.now amount times high.0 result.1.0 × HasAdded turns.now amount times high.1 result.1.1 }
{
    join(
        rt,
        move || -> Pair
            requires { IsPassOf low.0 turns.now × IsPassOf low.1 turns.now }
            ensures { HasAdded turns.entry.now amount times low.0 result.0 × HasAdded turns.entry.now amount times low.1 result.1 }
        { two_threads(rt, turns, low, (amount, amount), times) },
        move || -> Pair
            requires { IsPassOf high.0 turns.now × IsPassOf high.1 turns.now }
            ensures { HasAdded turns.entry.now amount times high.0 result.0 × HasAdded turns.entry.now amount times high.1 result.1 }
        { two_threads(rt, turns, high, (amount, amount), times) },
    )
}
