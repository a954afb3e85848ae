//! One pass by itself, call by call.
ghost use Rattle.std.specs.Prelude.{◌≡◌, ◌+◌, ◌%◌, ◌^◌, IfSome};

use crate::adding::add_two;
use crate::tally::Tally;
use std::alloc::Global;
use std::sync::Wait;
use turn_cell::Turns;

/// What was found on the way.
#[derive(Drop)]
pub struct Found {
    /// The number of the pass.
    pub number: u32,
    /// The count in a turn that left no entry.
    pub at_turn: u64,
    /// The tally at the end.
    pub last: Tally,
}

/// A cell with one pass: it adds twice, tells itself what it has seen, looks in a turn, and the cell is closed. `None`
/// is for want of memory.
pub fn alone<R: Wait>(rt: &R, alloc: Global, x: u64, y: u64) -> Option<Found>
    ensures number { IfSome result (λ f. f.number ≡ 0) }
    ensures last { IfSome result (λ f. f.last.count ≡ (x + y) % 2 ^ 64) }
{
    let Ok((turns, mut passes)) = Turns::open(alloc, Tally { count: 0 }, 1) else {
        return None;
    };
    let Some(pass) = passes.pop() else {
        unreachable!()
    };
    let number = pass.number();
    let mut pass = add_two(rt, &turns, pass, x, y);
    let note = turns.split(&mut pass);
    turns.join(&mut pass, note);
    let held = turns.take(rt, pass);
    let at_turn = held.value().count;
    passes.push_reserved(turns.give_back(held));
    let (last, _seen) = turns.close(passes);
    Some(Found {
        number,
        at_turn,
        last,
    })
}
