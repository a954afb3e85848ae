//! A worker finishes a call, in a turn.
ghost use Rattle.std.specs.Prelude.{◌≡◌, ℕ, length};
ghost use Rattle.faaslet_meaning.specs.Spelling.{CodeFits, spelled_on_table};
ghost use Rattle.faaslet_meaning.specs.Table as calls;
ghost use Rattle.turn_cell.specs.Cell.{IsPassOf, numbers_of, pass_list, pass_number, start_of};
ghost use Rattle.turn_cell.specs.History.{MakersBelow};
ghost use Rattle.worker_turns.specs.Ending.{Finishes, MayFinish, RunsBy};

use call_table::CallTable;
use faaslet_meaning::Outcome;
use std::marker::Brand;
use std::sync::Wait;
use turn_cell::{Named, Pass, Turns};

/// Ends a call that by the worker's own list runs on one of its benches. It takes no memory and makes no test, since others
/// leave the call where it is.
pub fn finish<R: Wait>(
    rt: &R,
    table: &Turns<CallTable>,
    pass: Pass<CallTable>,
    call: u32,
    outcome: Outcome,
    used: u64,
    output: &[u8],
    counts: &[u64],
) -> Pass<CallTable>
    requires cell { IsPassOf pass table.now }
    requires may { MayFinish (start_of table.now) (pass_number pass) (pass_list pass) call (length output.now) (length counts.now) }
    ensures cell { IsPassOf result table.now × (pass_number result ≡ pass_number pass) }
    ensures makers { MakersBelow (numbers_of table.now) (pass_list result) }
    ensures finishes { (bench : ℕ) → RunsBy (start_of table.now) (pass_list pass) call bench
        → Finishes (start_of table.now) (pass_number pass) bench call outcome used output.now counts.now (pass_list pass) (pass_list result) }
{
    finish_named::<Brand, R>(rt, table, pass, call, outcome, used, output, counts)
}

fn finish_named<E: Named, R: Wait>(
    rt: &R,
    table: &Turns<CallTable>,
    pass: Pass<CallTable>,
    call: u32,
    outcome: Outcome,
    used: u64,
    output: &[u8],
    counts: &[u64],
) -> Pass<CallTable>
    requires entry { E.entry ≡ spelled_on_table (calls.finish call outcome used output.now counts.now) }
    requires cell { IsPassOf pass table.now }
    requires may { MayFinish (start_of table.now) (pass_number pass) (pass_list pass) call (length output.now) (length counts.now) }
    ensures cell { IsPassOf result table.now × (pass_number result ≡ pass_number pass) }
    ensures makers { MakersBelow (numbers_of table.now) (pass_list result) }
    ensures finishes { (bench : ℕ) → RunsBy (start_of table.now) (pass_list pass) call bench
        → Finishes (start_of table.now) (pass_number pass) bench call outcome used output.now counts.now (pass_list pass) (pass_list result) }
{
    code_fits(&outcome);
    let mut held = table.take(rt, pass);
    held.value_mut().finish(call, outcome, used, output, counts);
    table.give::<E>(held)
}

// The result of a call is an i32, so that its Finish can be told from its spelling.
fn code_fits(outcome: &Outcome)
    ensures { CodeFits outcome.now }
{
    if let Outcome::Done(code) = outcome {
        let _code = *code;
    }
}
