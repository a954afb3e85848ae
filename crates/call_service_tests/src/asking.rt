//! Asks of one call, one after the other.
ghost use Rattle.std.specs.Prelude.{◌≡◌, ◌<◌, ◌≤◌, ◌+◌, true, length, vec_capacity, vec_len};
ghost use Rattle.turn_cell.specs.Cell.{IsPassOf, pass_list, pass_number, start_of};
ghost use Rattle.call_table.specs.Held.{piece_limit};
ghost use Rattle.call_service_tests.specs.Parents.{HasTwo, IsParent, IsPlain};

use call_service::{Service, serve_call};
use call_table::CallTable;
use faaslet_meaning::Ask;
use std::alloc::Global;
use std::sync::Wait;
use turn_cell::{Pass, Turns};

/// Call 0 asks each of these in order, by bench 0; what it looks at or submits stands in the scratch. Asks on shared state,
/// of other functions than the first and of other children than its first two are passed over. `None` is for want of memory.
pub fn ask_all<R: Wait>(
    rt: &R,
    alloc: Global,
    table: CallTable,
    asks: &[Ask],
    scratch: &mut [u8],
) -> Option<Vec<Service>>
    requires parent { IsParent table }
    requires scratch { length scratch.old ≡ piece_limit }
{
    let Ok(mut told) = Vec::with_capacity(alloc, asks.len()) else {
        return None;
    };
    let Ok((turns, mut passes)) = Turns::open(alloc, table, 1) else {
        return None;
    };
    let Some(mut pass) = passes.pop() else {
        unreachable!()
    };
    for asked in asks {
        pass = ask_plain(rt, asked, &turns, pass, scratch, &mut told);
    }
    passes.push_reserved(pass);
    turns.close(passes);
    Some(told)
}

// The ask is served, if it is a plain one.
fn ask_plain<R: Wait>(
    rt: &R,
    asked: &Ask,
    turns: &Turns<CallTable>,
    pass: Pass<CallTable>,
    scratch: &mut [u8],
    told: &mut Vec<Service>,
) -> Pass<CallTable>
    requires cell { IsPassOf pass turns.now }
    requires known { 0 < length (start_of turns.now).table.functions }
    requires two { HasTwo (start_of turns.now) (pass_list pass) }
    requires scratch { length scratch.old ≡ piece_limit }
    requires room { vec_len told.old < vec_capacity told.old }
    ensures cell { IsPassOf result turns.now × (pass_number result ≡ pass_number pass) }
    ensures two { HasTwo (start_of turns.now) (pass_list result) }
    ensures told { (vec_len told.new ≤ vec_len told.old + 1) × (vec_capacity told.new ≡ vec_capacity told.old) }
{
    if !is_plain(asked) {
        return pass;
    }
    let (pass, service) = ask_one(rt, asked, turns, pass, scratch);
    told.push_reserved(service);
    pass
}

fn ask_one<R: Wait>(
    rt: &R,
    asked: &Ask,
    turns: &Turns<CallTable>,
    pass: Pass<CallTable>,
    scratch: &mut [u8],
) -> (Pass<CallTable>, Service)
    requires cell { IsPassOf pass turns.now }
    requires known { 0 < length (start_of turns.now).table.functions }
    requires two { HasTwo (start_of turns.now) (pass_list pass) }
    requires plain { IsPlain asked.now }
    requires scratch { length scratch.old ≡ piece_limit }
    ensures cell { IsPassOf result.0 turns.now × (pass_number result.0 ≡ pass_number pass) }
    ensures two { HasTwo (start_of turns.now) (pass_list result.0) }
{
    serve_call(rt, asked, &[0], turns, pass, 0, scratch)
}

// A Submit of the first function, or a Look at one of two children.
fn is_plain(asked: &Ask) -> bool
    ensures { result ≡ true → IsPlain asked.now }
{
    match *asked {
        Ask::Submit { function: 0, len } => len <= 65_536,
        Ask::Look { child } => child < 2,
        _ => false,
    }
}
