//! What a call asks of the call table.
ghost use Rattle.std.specs.Prelude.{◌≡◌};
ghost use Rattle.turn_cell.specs.Cell.{IsPassOf, numbers_of, pass_list, pass_number, start_of};
ghost use Rattle.turn_cell.specs.History.{MakersBelow};
ghost use Rattle.call_service.specs.May.{MayCall};
ghost use Rattle.call_service.specs.Served.{Serves};

use crate::asking::{look, submit};
use call_table::CallTable;
use faaslet_meaning::{Ask, Reply};
use std::sync::Wait;
use turn_cell::{Pass, Turns};

/// What serving a question came to.
#[derive(Clone, Copy, Debug, PartialEq, Eq)]
pub enum Service {
    Replied(Reply),
    /// The child at which it looks isn't finished. This is the number of the child's call.
    Awaits(u32),
}

/// Makes one Submit or one Look of a call that runs on the bench of the pass, in a turn of the table. The function of a
/// Submit is at its place among the callees, and its input is the first bytes of the scratch; an output goes there. Turns at
/// which the call does not run on that bench are given back, so it does not return while the call doesn't. A Submit takes
/// memory.
pub fn serve_call<R: Wait>(
    rt: &R,
    ask: &Ask,
    callees: &[u32],
    table: &Turns<CallTable>,
    pass: Pass<CallTable>,
    call: u32,
    scratch: &mut [u8],
) -> (Pass<CallTable>, Service)
    requires cell { IsPassOf pass table.now }
    requires may { MayCall callees.now (start_of table.now) call ask.now (pass_list pass) scratch.old }
    ensures cell { IsPassOf result.0 table.now × (pass_number result.0 ≡ pass_number pass) }
    ensures makers { MakersBelow (numbers_of table.now) (pass_list result.0) }
    ensures serves { Serves callees.now (start_of table.now) (pass_number pass) call ask.now
        (pass_list pass) (pass_list result.0) result.1 scratch.old scratch.new }
{
    match *ask {
        Ask::Submit { function, len } => {
            let input = &scratch[..len as usize];
            let (pass, reply) = submit(rt, table, pass, call, callees[function as usize], input);
            (pass, Service::Replied(reply))
        }
        Ask::Look { child } => look(rt, table, pass, call, child, scratch),
        Ask::Region { .. } | Ask::Move { .. } => unreachable!(),
    }
}
