//! Two requests come.
ghost use Rattle.std.specs.Prelude.{◌≡◌};
ghost use Rattle.turn_cell.specs.Cell.{IsPassOf, pass_list, pass_number, start_of};
ghost use Rattle.worker_turns.specs.Coming.{CameBy};
ghost use Rattle.worker_turns_tests.specs.Begun.{begun};

use call_table::CallTable;
use std::alloc::AllocError;
use std::sync::Wait;
use turn_cell::{Pass, Turns};
use worker_turns::submit_request;

/// The numbers of the two calls.
pub(crate) type Calls = Result<(u32, u32), AllocError>;

pub(crate) fn two_come<R: Wait>(
    rt: &R,
    table: &Turns<CallTable>,
    pass: Pass<CallTable>,
) -> (Pass<CallTable>, Calls)
    requires cell { IsPassOf pass table.now }
    requires begun { start_of table.now ≡ begun }
    requires session { pass_number pass ≡ 9 }
    requires none { CameBy begun (pass_list pass) 0 }
    ensures cell { IsPassOf result.0 table.now × (pass_number result.0 ≡ pass_number pass) }
{
    let (pass, first) = submit_request(rt, table, pass, 0, 0, &[7]);
    let Ok(first) = first else {
        return (pass, Err(AllocError));
    };
    let (pass, second) = submit_request(rt, table, pass, 0, 0, &[8, 9]);
    let Ok(second) = second else {
        return (pass, Err(AllocError));
    };
    (pass, Ok((first, second)))
}
