//! One pass adds to a tally: once, twice, many times.
ghost use Rattle.std.specs.Prelude.{◌≡◌, ◌++◌, ◌∷◌, [], replicate};
ghost use Rattle.turn_cell.specs.Cell.{IsPassOf, pass_list, pass_number};
ghost use Rattle.turn_cell.specs.History.{own, entry};

use crate::tally::Tally;
use std::marker::Brand;
use std::sync::Wait;
use turn_cell::{Named, Pass, Turns};

fn add_named<E: Named, R: Wait>(
    rt: &R,
    turns: &Turns<Tally>,
    pass: Pass<Tally>,
    amount: u64,
) -> Pass<Tally>
    requires entry { E.entry ≡ amount ∷ [] }
    requires cell { IsPassOf pass turns.now }
    ensures cell { IsPassOf result turns.now × (pass_number result ≡ pass_number pass) }
    ensures own { own (pass_number pass) (pass_list result) ≡ own (pass_number pass) (pass_list pass) ++ entry (pass_number pass) (amount ∷ []) ∷ [] }
{
    let mut held = turns.take(rt, pass);
    let tally = held.value_mut();
    tally.count = tally.count.wrapping_add(amount);
    turns.give::<E>(held)
}

/// Adds in one turn of this pass.
pub fn add<R: Wait>(rt: &R, turns: &Turns<Tally>, pass: Pass<Tally>, amount: u64) -> Pass<Tally>
    requires cell { IsPassOf pass turns.now }
    ensures cell { IsPassOf result turns.now × (pass_number result ≡ pass_number pass) }
    ensures own { own (pass_number pass) (pass_list result) ≡ own (pass_number pass) (pass_list pass) ++ entry (pass_number pass) (amount ∷ []) ∷ [] }
{
    add_named::<Brand, R>(rt, turns, pass, amount)
}

fn add_two_named<E: Named, F: Named, R: Wait>(
    rt: &R,
    turns: &Turns<Tally>,
    pass: Pass<Tally>,
    x: u64,
    y: u64,
) -> Pass<Tally>
    requires entry { (E.entry ≡ x ∷ []) × (F.entry ≡ y ∷ []) }
    requires cell { IsPassOf pass turns.now }
    ensures cell { IsPassOf result turns.now × (pass_number result ≡ pass_number pass) }
    ensures own { own (pass_number pass) (pass_list result) ≡ own (pass_number pass) (pass_list pass) ++ entry (pass_number pass) (x ∷ []) ∷ [] ++ entry (pass_number pass) (y ∷ []) ∷ [] }
{
    let pass = add_named::<E, R>(rt, turns, pass, x);
    add_named::<F, R>(rt, turns, pass, y)
}

/// Adds in two turns of this pass: two entries that are named in one function.
pub fn add_two<R: Wait>(
    rt: &R,
    turns: &Turns<Tally>,
    pass: Pass<Tally>,
    x: u64,
    y: u64,
) -> Pass<Tally>
    requires cell { IsPassOf pass turns.now }
    ensures cell { IsPassOf result turns.now × (pass_number result ≡ pass_number pass) }
    ensures own { own (pass_number pass) (pass_list result) ≡ own (pass_number pass) (pass_list pass) ++ entry (pass_number pass) (x ∷ []) ∷ [] ++ entry (pass_number pass) (y ∷ []) ∷ [] }
{
    add_two_named::<Brand, Brand, R>(rt, turns, pass, x, y)
}

/// Adds in so many turns of this pass.
pub fn add_times<R: Wait>(
    rt: &R,
    turns: &Turns<Tally>,
    pass: Pass<Tally>,
    amount: u64,
    times: u64,
) -> Pass<Tally>
    requires cell { IsPassOf pass turns.now }
    ensures cell { IsPassOf result turns.now × (pass_number result ≡ pass_number pass) }
    ensures own { own (pass_number pass) (pass_list result) ≡ own (pass_number pass) (pass_list pass) ++ replicate times (entry (pass_number pass) (amount ∷ [])) }
{
    let mut pass = pass;
    let mut done = 0;
    while done < times {
        pass = add(rt, turns, pass, amount);
        done += 1;
    }
    pass
}
