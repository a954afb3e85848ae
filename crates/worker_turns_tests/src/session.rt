//! A whole session.
ghost use Rattle.std.specs.Prelude.{◌≡◌, ◌≤◌, length};
ghost use Rattle.turn_cell.specs.Cell.{IsPassOf, pass_list, pass_number, start_of};
ghost use Rattle.call_table.specs.Held.{piece_limit};
ghost use Rattle.worker_turns.specs.Coming.{CameBy};
ghost use Rattle.worker_turns_tests.specs.Begun.{begun};

use crate::coming::two_come;
use crate::working::{finish_two, take_two, unfinished};
use call_table::CallTable;
use faaslet_meaning::Callable;
use std::alloc::Global;
use std::sync::Wait;
use turn_cell::{Pass, Turns};

/// What the session and the worker were told: the numbers of the requests' calls, those of the calls that were taken, and how
/// many were not finished at the end.
#[derive(Clone, Copy, Debug, PartialEq, Eq)]
pub struct Came {
    pub requested: (u32, u32),
    pub taken: (u32, u32),
    pub unfinished: u32,
}

/// Two requests come to one host with one worker, which takes and finishes both. The buffer has room for an input. `None` is
/// for want of memory.
pub fn run<R: Wait>(rt: &R, alloc: Global, input: &mut [u8]) -> Option<(Came, CallTable)>
    requires { piece_limit ≤ length input.old }
{
    let known = Callable {
        fuel: 10,
        room: 2,
        channels: 1,
    };
    let Ok(table) = CallTable::new(alloc, &[known], 1, 1, 2) else {
        return None;
    };
    let Ok((turns, mut passes)) = Turns::open(alloc, table, 10) else {
        return None;
    };
    let (Some(session), Some(worker)) = (passes.pop(), passes.pop()) else {
        unreachable!()
    };
    let (session, worker, came) = serve(rt, &turns, session, worker, input);
    passes.push_reserved(worker);
    passes.push_reserved(session);
    let (table, _seen) = turns.close(passes);
    Some((came?, table))
}

fn serve<R: Wait>(
    rt: &R,
    table: &Turns<CallTable>,
    session: Pass<CallTable>,
    worker: Pass<CallTable>,
    input: &mut [u8],
) -> (Pass<CallTable>, Pass<CallTable>, Option<Came>)
    requires session { IsPassOf session table.now × (pass_number session ≡ 9) }
    requires worker { IsPassOf worker table.now × (pass_number worker ≡ 8) }
    requires begun { start_of table.now ≡ begun }
    requires none { CameBy begun (pass_list session) 0 }
    requires buffer { piece_limit ≤ length input.old }
    ensures session { IsPassOf result.0 table.now × (pass_number result.0 ≡ 9) }
    ensures worker { IsPassOf result.1 table.now × (pass_number result.1 ≡ 8) }
{
    let (session, requested) = two_come(rt, table, session);
    let Ok(requested) = requested else {
        return (session, worker, None);
    };
    let (worker, jobs) = take_two(rt, table, worker, input);
    let Some((first, second)) = jobs else {
        return (session, worker, None);
    };
    let worker = finish_two(rt, table, worker, first.call, second.call);
    let (worker, left) = unfinished(rt, table, worker, input);
    let came = left.map(|unfinished| Came {
        requested,
        taken: (first.call, second.call),
        unfinished,
    });
    (session, worker, came)
}
