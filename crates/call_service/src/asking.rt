//! A Submit and a Look, each in a turn of the table at which the call runs on its bench.
ghost use Rattle.std.specs.Prelude.{◌≡◌, ◌<◌, ◌≤◌, length};
ghost use Rattle.faaslet_meaning.specs.Spelling.{spelled_on_table};
ghost use Rattle.faaslet_meaning.specs.Table as calls;
ghost use Rattle.turn_cell.specs.Cell.{
  IsPassOf,
  IsTurnOf,
  maker_of,
  numbers_of,
  pass_list,
  pass_number,
  start_of,
  taken_of,
  turn_list,
  value_of,
};
ghost use Rattle.turn_cell.specs.History.{MakersBelow};
ghost use Rattle.call_table.specs.Held.{piece_limit};
ghost use Rattle.call_service.specs.May.{IsChild};
ghost use Rattle.call_service.specs.Served.{AtTurn};
ghost use Rattle.call_service.specs.Turned.{Looks, Submits};

use crate::service::Service;
use call_table::{CallTable, SubmitFault};
use faaslet_meaning::Reply;
use std::marker::Brand;
use std::sync::Wait;
use turn_cell::{Held, Named, Pass, Turns};

/// Submits a child in a turn. Where there is no memory for it, the turn ends without an entry.
pub(crate) fn submit<R: Wait>(
    rt: &R,
    table: &Turns<CallTable>,
    pass: Pass<CallTable>,
    call: u32,
    function: u32,
    input: &[u8],
) -> (Pass<CallTable>, Reply)
    requires cell { IsPassOf pass table.now }
    requires function { function < length (start_of table.now).table.functions }
    requires input { length input.now ≤ piece_limit }
    ensures cell { IsPassOf result.0 table.now × (pass_number result.0 ≡ pass_number pass) }
    ensures makers { MakersBelow (numbers_of table.now) (pass_list result.0) }
    ensures submits { Submits (start_of table.now) (pass_number pass) call function input.now
        (pass_list pass) (pass_list result.0) result.1 }
{
    submit_named::<Brand, R>(rt, table, pass, call, function, input)
}

fn submit_named<E: Named, R: Wait>(
    rt: &R,
    table: &Turns<CallTable>,
    pass: Pass<CallTable>,
    call: u32,
    function: u32,
    input: &[u8],
) -> (Pass<CallTable>, Reply)
    requires entry { E.entry ≡ spelled_on_table (calls.submit call function input.now) }
    requires cell { IsPassOf pass table.now }
    requires function { function < length (start_of table.now).table.functions }
    requires input { length input.now ≤ piece_limit }
    ensures cell { IsPassOf result.0 table.now × (pass_number result.0 ≡ pass_number pass) }
    ensures makers { MakersBelow (numbers_of table.now) (pass_list result.0) }
    ensures submits { Submits (start_of table.now) (pass_number pass) call function input.now
        (pass_list pass) (pass_list result.0) result.1 }
{
    let mut held = take_running(rt, table, pass, call);
    match held.value_mut().submit(call, function, input) {
        Ok(child) => (table.give::<E>(held), Reply::Child(child)),
        Err(SubmitFault::ChainFull { .. }) => (table.give::<E>(held), Reply::ChainFull),
        Err(SubmitFault::Want) => (table.give_back(held), Reply::Want),
    }
}

/// Looks at a child in a turn. Where it isn't finished, the turn ends without an entry.
pub(crate) fn look<R: Wait>(
    rt: &R,
    table: &Turns<CallTable>,
    pass: Pass<CallTable>,
    call: u32,
    child: u32,
    scratch: &mut [u8],
) -> (Pass<CallTable>, Service)
    requires cell { IsPassOf pass table.now }
    requires child { IsChild (start_of table.now) (pass_list pass) call child }
    requires scratch { piece_limit ≤ length scratch.old }
    ensures cell { IsPassOf result.0 table.now × (pass_number result.0 ≡ pass_number pass) }
    ensures makers { MakersBelow (numbers_of table.now) (pass_list result.0) }
    ensures looks { Looks (start_of table.now) (pass_number pass) call child
        (pass_list pass) (pass_list result.0) result.1 scratch.old scratch.new }
{
    look_named::<Brand, R>(rt, table, pass, call, child, scratch)
}

fn look_named<E: Named, R: Wait>(
    rt: &R,
    table: &Turns<CallTable>,
    pass: Pass<CallTable>,
    call: u32,
    child: u32,
    scratch: &mut [u8],
) -> (Pass<CallTable>, Service)
    requires entry { E.entry ≡ spelled_on_table (calls.look call child) }
    requires cell { IsPassOf pass table.now }
    requires child { IsChild (start_of table.now) (pass_list pass) call child }
    requires scratch { piece_limit ≤ length scratch.old }
    ensures cell { IsPassOf result.0 table.now × (pass_number result.0 ≡ pass_number pass) }
    ensures makers { MakersBelow (numbers_of table.now) (pass_list result.0) }
    ensures looks { Looks (start_of table.now) (pass_number pass) call child
        (pass_list pass) (pass_list result.0) result.1 scratch.old scratch.new }
{
    let held = take_running(rt, table, pass, call);
    let Some(at) = held.value().child_of(call, child) else {
        unreachable!()
    };
    match held.value().look(at, scratch) {
        Ok(reply) => (table.give::<E>(held), Service::Replied(reply)),
        Err(_) => (table.give_back(held), Service::Awaits(at)),
    }
}

// Takes turns until one at which the call runs on the bench of this pass. Other turns leave no entry.
fn take_running<R: Wait>(
    rt: &R,
    table: &Turns<CallTable>,
    pass: Pass<CallTable>,
    call: u32,
) -> Held<CallTable>
    requires cell { IsPassOf pass table.now }
    ensures cell { IsTurnOf result table.now × (maker_of result ≡ pass_number pass) }
    ensures taken { taken_of result ≡ value_of result }
    ensures makers { MakersBelow (numbers_of table.now) (turn_list result) }
    ensures turn { AtTurn (start_of table.now) (pass_number pass) call (pass_list pass) (turn_list result) (value_of result) }
{
    let bench = pass.number();
    let mut pass = pass;
    for _ in rt.forever() {
        let held = table.take(rt, pass);
        if held.value().runs_on(call, bench) {
            return held;
        }
        pass = table.give_back(held);
    }
    unreachable!()
}
