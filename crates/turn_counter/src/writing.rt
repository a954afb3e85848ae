//! A pass writes in a journal, where there is memory for the line.
ghost use Rattle.std.specs.Prelude.{◌≡◌, ◌++◌, ◌∷◌, [], IfSome, MatchBool};
ghost use Rattle.turn_cell.specs.Cell.{IsPassOf, pass_list, pass_number};
ghost use Rattle.turn_cell.specs.History.{own};
ghost use Rattle.turn_counter.specs.Lines.{entry_if};

use crate::journal::Journal;
use std::alloc::Global;
use std::marker::Brand;
use std::sync::Wait;
use turn_cell::{Named, Pass, Turns};

fn write_named<E: Named, R: Wait>(
    rt: &R,
    turns: &Turns<Journal>,
    pass: Pass<Journal>,
    line: u64,
) -> (Pass<Journal>, bool)
    requires entry { E.entry ≡ line ∷ [] }
    requires cell { IsPassOf pass turns.now }
    ensures cell { IsPassOf result.0 turns.now × (pass_number result.0 ≡ pass_number pass) }
    ensures own { own (pass_number pass) (pass_list result.0) ≡ own (pass_number pass) (pass_list pass) ++ entry_if result.1 (pass_number pass) line }
{
    let mut held = turns.take(rt, pass);
    if held.value_mut().add(line) {
        (turns.give::<E>(held), true)
    } else {
        (turns.give_back(held), false)
    }
}

/// Writes in one turn of this pass, and says whether there was memory. Where there was none, the turn leaves no entry.
pub fn write<R: Wait>(
    rt: &R,
    turns: &Turns<Journal>,
    pass: Pass<Journal>,
    line: u64,
) -> (Pass<Journal>, bool)
    requires cell { IsPassOf pass turns.now }
    ensures cell { IsPassOf result.0 turns.now × (pass_number result.0 ≡ pass_number pass) }
    ensures own { own (pass_number pass) (pass_list result.0) ≡ own (pass_number pass) (pass_list pass) ++ entry_if result.1 (pass_number pass) line }
{
    write_named::<Brand, R>(rt, turns, pass, line)
}

/// A journal from its first turn to its end: it is what its entries say. `None` is for want of memory for the cell.
pub fn one_line<R: Wait>(rt: &R, alloc: Global, line: u64) -> Option<(Journal, bool)>
    ensures { IfSome result (λ r. MatchBool r.1 (r.0 ≡ line ∷ []) (r.0 ≡ [])) }
{
    let Ok((turns, mut passes)) = Turns::open(alloc, Journal::new(alloc), 1) else {
        return None;
    };
    let Some(pass) = passes.pop() else {
        unreachable!()
    };
    let (pass, done) = write(rt, &turns, pass, line);
    passes.push_reserved(pass);
    let (journal, _seen) = turns.close(passes);
    Some((journal, done))
}
