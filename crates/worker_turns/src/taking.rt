//! A worker takes a call for one of its benches, in a turn.
ghost use Rattle.std.specs.Prelude.{◌≡◌, ◌<◌, ◌≤◌, length, Some, slice_get};
ghost use Rattle.faaslet_meaning.specs.declared.call.CallRecord.{CallRecord};
ghost use Rattle.faaslet_meaning.specs.Spelling.{spelled_on_table};
ghost use Rattle.faaslet_meaning.specs.Table as calls;
ghost use Rattle.turn_cell.specs.Cell.{IsPassOf, numbers_of, pass_list, pass_number, start_of};
ghost use Rattle.turn_cell.specs.History.{MakersBelow};
ghost use Rattle.call_table.specs.Held.{IsHeld, piece_limit};
ghost use Rattle.call_table.specs.Makers.{Keeps};
ghost use Rattle.call_table.specs.Mine.{Ordered};
ghost use Rattle.worker_turns.specs.Taking.{TookNext, TookThis};

use call_table::{CallTable, Job, Next};
use std::marker::Brand;
use std::sync::Wait;
use turn_cell::{Named, Pass, Turns};

/// Takes the lowest call that is queued at the worker's host, or else the lowest that is queued, for a bench of the worker.
/// Its input goes to the front of the buffer.
pub fn take_next<R: Wait>(
    rt: &R,
    table: &Turns<CallTable>,
    pass: Pass<CallTable>,
    host: u32,
    bench: u32,
    input: &mut [u8],
) -> (Pass<CallTable>, Next)
    requires cell { IsPassOf pass table.now }
    requires keeps { Keeps (start_of table.now) (pass_number pass) host bench }
    requires ordered { Ordered (start_of table.now).table.records }
    requires buffer { piece_limit ≤ length input.old }
    ensures cell { IsPassOf result.0 table.now × (pass_number result.0 ≡ pass_number pass) }
    ensures makers { MakersBelow (numbers_of table.now) (pass_list result.0) }
    ensures took { TookNext (start_of table.now) (pass_number pass) host bench (pass_list pass) (pass_list result.0)
        result.1 input.old input.new }
{
    take_next_named::<Brand, R>(rt, table, pass, host, bench, input)
}

fn take_next_named<E: Named, R: Wait>(
    rt: &R,
    table: &Turns<CallTable>,
    pass: Pass<CallTable>,
    host: u32,
    bench: u32,
    input: &mut [u8],
) -> (Pass<CallTable>, Next)
    requires entry { E.entry ≡ spelled_on_table (calls.take_next host bench) }
    requires cell { IsPassOf pass table.now }
    requires keeps { Keeps (start_of table.now) (pass_number pass) host bench }
    requires ordered { Ordered (start_of table.now).table.records }
    requires buffer { piece_limit ≤ length input.old }
    ensures cell { IsPassOf result.0 table.now × (pass_number result.0 ≡ pass_number pass) }
    ensures makers { MakersBelow (numbers_of table.now) (pass_list result.0) }
    ensures took { TookNext (start_of table.now) (pass_number pass) host bench (pass_list pass) (pass_list result.0)
        result.1 input.old input.new }
{
    let mut held = table.take(rt, pass);
    match held.value_mut().take_next(host, bench, input) {
        Next::Call(job) => {
            is_held(held.value(), job.call);
            (table.give::<E>(held), Next::Call(job))
        }
        Next::None { unfinished } => (table.give_back(held), Next::None { unfinished }),
    }
}

/// Takes a call for a bench of the worker, if it is queued. Its input goes to the front of the buffer.
pub fn take_this<R: Wait>(
    rt: &R,
    table: &Turns<CallTable>,
    pass: Pass<CallTable>,
    call: u32,
    host: u32,
    bench: u32,
    input: &mut [u8],
) -> (Pass<CallTable>, Option<Job>)
    requires cell { IsPassOf pass table.now }
    requires keeps { Keeps (start_of table.now) (pass_number pass) host bench }
    requires ordered { Ordered (start_of table.now).table.records }
    requires buffer { piece_limit ≤ length input.old }
    ensures cell { IsPassOf result.0 table.now × (pass_number result.0 ≡ pass_number pass) }
    ensures makers { MakersBelow (numbers_of table.now) (pass_list result.0) }
    ensures took { TookThis (start_of table.now) (pass_number pass) call host bench (pass_list pass) (pass_list result.0)
        result.1 input.old input.new }
{
    take_this_named::<Brand, R>(rt, table, pass, call, host, bench, input)
}

fn take_this_named<E: Named, R: Wait>(
    rt: &R,
    table: &Turns<CallTable>,
    pass: Pass<CallTable>,
    call: u32,
    host: u32,
    bench: u32,
    input: &mut [u8],
) -> (Pass<CallTable>, Option<Job>)
    requires entry { E.entry ≡ spelled_on_table (calls.take_this call host bench) }
    requires cell { IsPassOf pass table.now }
    requires keeps { Keeps (start_of table.now) (pass_number pass) host bench }
    requires ordered { Ordered (start_of table.now).table.records }
    requires buffer { piece_limit ≤ length input.old }
    ensures cell { IsPassOf result.0 table.now × (pass_number result.0 ≡ pass_number pass) }
    ensures makers { MakersBelow (numbers_of table.now) (pass_list result.0) }
    ensures took { TookThis (start_of table.now) (pass_number pass) call host bench (pass_list pass) (pass_list result.0)
        result.1 input.old input.new }
{
    let mut held = table.take(rt, pass);
    match held.value_mut().take_this(call, host, bench, input) {
        Some(job) => {
            is_held(held.value(), job.call);
            (table.give::<E>(held), Some(job))
        }
        None => (table.give_back(held), None),
    }
}

// What holds of each record holds of that of the call.
fn is_held(table: &CallTable, call: u32)
    requires { call < length table.now.table.records }
    ensures { (r : CallRecord) → slice_get table.now.table.records call ≡ Some r
        → IsHeld table.now.table.hosts (length table.now.table.functions) (length table.now.table.records) r }
{
    let _record = table.record_of(call);
}
