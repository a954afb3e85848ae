//! A call that has two children, the first of which is finished.
ghost use Rattle.std.specs.Prelude.{IfSome, ◌≤◌, ◌<◌, length};
ghost use Rattle.call_service_tests.specs.Parents.{IsParent};

use call_table::CallTable;
use faaslet_meaning::{Callable, Outcome};
use std::alloc::Global;

/// Call 0 runs on bench 0 and has submitted calls 1 and 2, with inputs of one byte. Call 1 has ended with an output of two
/// bytes. `None` is for want of memory.
pub fn parent(alloc: Global) -> Option<CallTable>
    ensures { IfSome result (λ t. IsParent t) }
{
    let known = Callable {
        fuel: 10,
        room: 2,
        channels: 1,
    };
    let Ok(mut table) = CallTable::new(alloc, &[known], 1, 1, 1) else {
        return None;
    };
    begin(alloc, &mut table)?;
    if table.functions() == 0 {
        return None;
    }
    let _first = table.child_of(0, 0)?;
    let _second = table.child_of(0, 1)?;
    Some(table)
}

fn begin(alloc: Global, table: &mut CallTable) -> Option<()> {
    let Ok(mut buffer) = vec![in alloc; 0; 65_536] else {
        return None;
    };
    if table.functions() == 0 || table.hosts() == 0 {
        return None;
    }
    table.submit_request(0, 0, &[]).ok()?;
    take(table, 0, 0, &mut buffer)?;
    child(table, &[1])?;
    child(table, &[2])?;
    take(table, 1, 1, &mut buffer)?;
    end(table, 1)
}

fn take(table: &mut CallTable, call: u32, bench: u32, buffer: &mut [u8]) -> Option<()> {
    if table.hosts() == 0 || buffer.len() < 65_536 {
        return None;
    }
    table.take_this(call, 0, bench, buffer)?;
    Some(())
}

fn child(table: &mut CallTable, input: &[u8; 1]) -> Option<()> {
    if table.functions() == 0 || !table.is_taken(0) {
        return None;
    }
    table.submit(0, 0, input).ok()?;
    Some(())
}

fn end(table: &mut CallTable, call: u32) -> Option<()> {
    if !table.is_taken(call) || call >= table.calls() {
        return None;
    }
    let known = table.record_of(call);
    if known.room < 2 || table.callable(known.function).channels != 1 {
        return None;
    }
    table.finish(call, Outcome::Done(5), 4, &[8, 9], &[0]);
    Some(())
}
