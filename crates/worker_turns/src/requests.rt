//! A request comes, in a turn of the session.
ghost use Rattle.std.specs.Prelude.{◌≡◌, ◌<◌, ◌≤◌, IfOk, OnErr, length};
ghost use Rattle.faaslet_meaning.specs.Channels.{Reply};
ghost use Rattle.faaslet_meaning.specs.Spelling.{spelled_on_table};
ghost use Rattle.faaslet_meaning.specs.Table as calls;
ghost use Rattle.turn_cell.specs.Cell.{IsPassOf, numbers_of, pass_list, pass_number, start_of};
ghost use Rattle.turn_cell.specs.History.{MakersBelow};
ghost use Rattle.call_table.specs.Held.{piece_limit};
ghost use Rattle.call_table.specs.Makers.{session};
ghost use Rattle.worker_turns.specs.Coming.{AreDeep, SomeToCome};
ghost use Rattle.worker_turns.specs.Turned.{Entered, Left};

use call_table::CallTable;
use std::alloc::AllocError;
use std::marker::Brand;
use std::sync::Wait;
use turn_cell::{Named, Pass, Turns};

/// Adds a request of the function that comes from a host, and answers the number of its call. It takes memory; where there is
/// none, the turn ends without an entry.
pub fn submit_request<R: Wait>(
    rt: &R,
    table: &Turns<CallTable>,
    pass: Pass<CallTable>,
    function: u32,
    host: u32,
    input: &[u8],
) -> (Pass<CallTable>, Result<u32, AllocError>)
    requires cell { IsPassOf pass table.now }
    requires session { pass_number pass ≡ session (start_of table.now) }
    requires deep { AreDeep (start_of table.now).table.records }
    requires to_come { SomeToCome (start_of table.now) (pass_list pass) }
    requires function { function < length (start_of table.now).table.functions }
    requires host { host < (start_of table.now).table.hosts }
    requires input { length input.now ≤ piece_limit }
    ensures cell { IsPassOf result.0 table.now × (pass_number result.0 ≡ pass_number pass) }
    ensures makers { MakersBelow (numbers_of table.now) (pass_list result.0) }
    ensures ok { IfOk result.1 (λ call. Entered (start_of table.now) (pass_number pass) (pass_list pass) (pass_list result.0)
        (calls.submit_request function host input.now, Reply.number call)) }
    ensures want { OnErr result.1 (Left (start_of table.now) (pass_number pass) (pass_list pass) (pass_list result.0)) }
{
    submit_request_named::<Brand, R>(rt, table, pass, function, host, input)
}

fn submit_request_named<E: Named, R: Wait>(
    rt: &R,
    table: &Turns<CallTable>,
    pass: Pass<CallTable>,
    function: u32,
    host: u32,
    input: &[u8],
) -> (Pass<CallTable>, Result<u32, AllocError>)
    requires entry { E.entry ≡ spelled_on_table (calls.submit_request function host input.now) }
    requires cell { IsPassOf pass table.now }
    requires session { pass_number pass ≡ session (start_of table.now) }
    requires deep { AreDeep (start_of table.now).table.records }
    requires to_come { SomeToCome (start_of table.now) (pass_list pass) }
    requires function { function < length (start_of table.now).table.functions }
    requires host { host < (start_of table.now).table.hosts }
    requires input { length input.now ≤ piece_limit }
    ensures cell { IsPassOf result.0 table.now × (pass_number result.0 ≡ pass_number pass) }
    ensures makers { MakersBelow (numbers_of table.now) (pass_list result.0) }
    ensures ok { IfOk result.1 (λ call. Entered (start_of table.now) (pass_number pass) (pass_list pass) (pass_list result.0)
        (calls.submit_request function host input.now, Reply.number call)) }
    ensures want { OnErr result.1 (Left (start_of table.now) (pass_number pass) (pass_list pass) (pass_list result.0)) }
{
    let mut held = table.take(rt, pass);
    match held.value_mut().submit_request(function, host, input) {
        Ok(call) => (table.give::<E>(held), Ok(call)),
        Err(want) => (table.give_back(held), Err(want)),
    }
}
