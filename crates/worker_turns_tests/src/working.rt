//! The worker takes both calls and finishes them.
ghost use Rattle.std.specs.Prelude.{◌≡◌, ◌≤◌, length, IfSome};
ghost use Rattle.turn_cell.specs.Cell.{IsPassOf, pass_list, pass_number, start_of};
ghost use Rattle.call_table.specs.Held.{piece_limit};
ghost use Rattle.worker_turns_tests.specs.Begun.{BothMayEnd, begun};

use call_table::{CallTable, Job, Next};
use faaslet_meaning::Outcome;
use std::sync::Wait;
use turn_cell::{Pass, Turns};
use worker_turns::{finish, take_next, take_this};

/// Takes the next call on bench 0, and call 1 on bench 1.
pub(crate) fn take_two<R: Wait>(
    rt: &R,
    table: &Turns<CallTable>,
    pass: Pass<CallTable>,
    input: &mut [u8],
) -> (Pass<CallTable>, Option<(Job, Job)>)
    requires cell { IsPassOf pass table.now }
    requires begun { start_of table.now ≡ begun }
    requires worker { pass_number pass ≡ 8 }
    requires buffer { piece_limit ≤ length input.old }
    ensures cell { IsPassOf result.0 table.now × (pass_number result.0 ≡ pass_number pass) }
    ensures buffer { length input.new ≡ length input.old }
    ensures both { IfSome result.1 (λ jobs. BothMayEnd begun (pass_list result.0) jobs.0.call jobs.1.call) }
{
    let (pass, first) = take_next(rt, table, pass, 0, 0, input);
    let Next::Call(first) = first else {
        return (pass, None);
    };
    let (pass, second) = take_this(rt, table, pass, 1, 0, 1, input);
    let Some(second) = second else {
        return (pass, None);
    };
    if first.room < 2 || second.room < 2 {
        return (pass, None);
    }
    (pass, Some((first, second)))
}

/// Ends the call on bench 1, and then the one on bench 0.
pub(crate) fn finish_two<R: Wait>(
    rt: &R,
    table: &Turns<CallTable>,
    pass: Pass<CallTable>,
    first: u32,
    second: u32,
) -> Pass<CallTable>
    requires cell { IsPassOf pass table.now }
    requires begun { start_of table.now ≡ begun }
    requires worker { pass_number pass ≡ 8 }
    requires both { BothMayEnd begun (pass_list pass) first second }
    ensures cell { IsPassOf result table.now × (pass_number result ≡ pass_number pass) }
{
    let pass = finish(rt, table, pass, second, Outcome::Done(5), 4, &[3, 4], &[0]);
    finish(rt, table, pass, first, Outcome::FuelOut, 10, &[1, 2], &[0])
}

/// How many calls are not finished, where none is queued.
pub(crate) fn unfinished<R: Wait>(
    rt: &R,
    table: &Turns<CallTable>,
    pass: Pass<CallTable>,
    input: &mut [u8],
) -> (Pass<CallTable>, Option<u32>)
    requires cell { IsPassOf pass table.now }
    requires begun { start_of table.now ≡ begun }
    requires worker { pass_number pass ≡ 8 }
    requires buffer { piece_limit ≤ length input.old }
    ensures cell { IsPassOf result.0 table.now × (pass_number result.0 ≡ pass_number pass) }
{
    let (pass, next) = take_next(rt, table, pass, 0, 0, input);
    let Next::None { unfinished } = next else {
        return (pass, None);
    };
    (pass, Some(unfinished))
}
