//! Callers that work at any type of value, and leave it as it is.
ghost use Rattle.std.specs.Prelude.{◌≡◌, IfSome};
ghost use mathlib.Core.List.{IsPrefix};
ghost use Rattle.turn_cell.specs.Cell.{IsPassOf, pass_list, pass_number};
ghost use Rattle.turn_cell.specs.History.{Extends};

use crate::tally::Tally;
use std::alloc::Global;
use std::sync::Wait;
use std::thread::{Threads, join};
use turn_cell::{Kept, Pass, Turns};

fn look<S: Kept, R: Wait>(rt: &R, turns: &Turns<S>, pass: Pass<S>) -> Pass<S>
    requires { IsPassOf pass turns.now }
    ensures cell { IsPassOf result turns.now × (pass_number result ≡ pass_number pass) }
    ensures list { Extends (pass_number pass) (pass_list pass) (pass_list result) }
{
    let held = turns.take(rt, pass);
    turns.give_back(held)
}

/// Two threads take a turn each and leave the value as it is.
pub fn both_look<S: Kept + Send, R: Threads + Wait + Sync>(
    rt: &R,
    turns: &Turns<S>,
    one: Pass<S>,
    two: Pass<S>,
) -> (Pass<S>, Pass<S>)
    requires one { IsPassOf one turns.now }
    requires two { IsPassOf two turns.now }
    ensures one { IsPassOf result.0 turns.now × (pass_number result.0 ≡ pass_number one) }
    ensures two { IsPassOf result.1 turns.now × (pass_number result.1 ≡ pass_number two) }
    ensures lists { Extends (pass_number one) (pass_list one) (pass_list result.0) × Extends (pass_number two) (pass_list two) (pass_list result.1) }
{
    join(
        rt,
        move || -> Pass<S>
            requires { IsPassOf one turns.now }
            ensures { IsPassOf result turns.entry.now × (pass_number result ≡ pass_number one) × Extends (pass_number one) (pass_list one) (pass_list result) }
        { look(rt, turns, one) },
        move || -> Pass<S>
            requires { IsPassOf two turns.now }
            ensures { IsPassOf result turns.entry.now × (pass_number result ≡ pass_number two) × Extends (pass_number two) (pass_list two) (pass_list result) }
        { look(rt, turns, two) },
    )
}

/// Tells the second pass all that the first has seen.
pub fn hand_over<S: Kept>(turns: &Turns<S>, from: &mut Pass<S>, to: &mut Pass<S>)
    requires from { IsPassOf from.old turns.now }
    requires to { IsPassOf to.old turns.now }
    ensures from { IsPassOf from.new turns.now × (pass_number from.new ≡ pass_number from.old) × (pass_list from.new ≡ pass_list from.old) }
    ensures to { IsPassOf to.new turns.now × (pass_number to.new ≡ pass_number to.old) }
    ensures told { IsPrefix (pass_list from.old) (pass_list to.new) }
    ensures list { Extends (pass_number to.old) (pass_list to.old) (pass_list to.new) }
{
    let note = turns.split(from);
    turns.join(to, note);
}

/// Two threads look at a tally, and one tells the other what it has seen: no entry, so the tally is as at the start.
/// `None` is for want of memory.
pub fn look_in_two<R: Threads + Wait + Sync>(rt: &R, alloc: Global, start: u64) -> Option<Tally>
    ensures { IfSome result (λ t. t.count ≡ start) }
{
    let Ok((turns, mut passes)) = Turns::open(alloc, Tally { count: start }, 2) else {
        return None;
    };
    let Some(second) = passes.pop() else {
        unreachable!()
    };
    let Some(first) = passes.pop() else {
        unreachable!()
    };
    let (mut first, mut second) = both_look(rt, &turns, first, second);
    hand_over(&turns, &mut first, &mut second);
    passes.push_reserved(first);
    passes.push_reserved(second);
    let (tally, _seen) = turns.close(passes);
    Some(tally)
}
