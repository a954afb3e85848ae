//! The limits of a request, and each call once, with values worked out by hand.

ghost use Rattle.std.specs.Prelude.{◌≤◌, length};

use call_table::{CallTable, Job, Next, SubmitFault};
use faaslet_meaning::{Callable, Outcome, Reply};
use std::alloc::{AllocError, Global};
use std::test::Fail;

/// A table of one function and of two hosts with one worker each, to which one request will come.
fn table(alloc: Global, room: u32) -> Result<CallTable, AllocError>
    requires { room ≤ 65536 }
{
    let known = Callable {
        fuel: 10,
        room,
        channels: 1,
    };
    CallTable::new(alloc, &[known], 2, 1, 1)
}

/// The call of a request of function 0 that comes from host 0.
fn request(table: &mut CallTable, input: &[u8]) -> Option<u32>
    requires { length input.now ≤ 65536 }
{
    if table.functions() == 0 || table.hosts() == 0 {
        return None;
    }
    table.submit_request(0, 0, input).ok()
}

/// The call of a request of function 0 that comes from a host, without an input.
fn request_from(table: &mut CallTable, host: u32) -> Option<u32> {
    if table.functions() == 0 || table.hosts() <= host {
        return None;
    }
    table.submit_request(0, host, &[]).ok()
}

/// The host at which a call was placed.
fn placed(table: &CallTable, call: u32) -> Option<u32> {
    if call >= table.calls() {
        return None;
    }
    Some(table.record_of(call).placed)
}

/// Whether host 1 takes this call next.
fn takes(table: &mut CallTable, call: u32, buffer: &mut [u8]) -> bool {
    match taken(table, buffer) {
        Some(job) => job.call == call,
        None => false,
    }
}

/// What a submit of a child of function 0 answers.
fn child(table: &mut CallTable, parent: u32, input: &[u8]) -> Option<Result<u32, SubmitFault>>
    requires { length input.now ≤ 65536 }
{
    if table.functions() == 0 || !table.is_taken(parent) {
        return None;
    }
    Some(table.submit(parent, 0, input))
}

/// What host 1 takes next.
fn taken(table: &mut CallTable, buffer: &mut [u8]) -> Option<Job> {
    if table.hosts() < 2 || buffer.len() < 65_536 {
        return None;
    }
    match table.take_next(1, 3, buffer) {
        Next::Call(job) => Some(job),
        Next::None { .. } => None,
    }
}

/// Whether host 1 takes nothing, and so many calls are unfinished.
fn is_idle(table: &mut CallTable, count: u32, buffer: &mut [u8]) -> bool {
    if table.hosts() < 2 || buffer.len() < 65_536 {
        return false;
    }
    match table.take_next(1, 3, buffer) {
        Next::Call(_) => false,
        Next::None { unfinished } => unfinished == count,
    }
}

/// What host 0 takes of a call.
fn taken_this(table: &mut CallTable, call: u32, buffer: &mut [u8]) -> Option<Job> {
    if table.hosts() == 0 || buffer.len() < 65_536 {
        return None;
    }
    table.take_this(call, 0, 0, buffer)
}

/// Whether a call is taken, and then no more.
fn is_taken_once(table: &mut CallTable, call: u32, buffer: &mut [u8]) -> bool {
    taken_this(table, call, buffer).is_some() && taken_this(table, call, buffer).is_none()
}

fn is_first(job: &Job) -> bool {
    job.call == 0 && job.function == 0 && job.len == 2 && job.fuel == 10 && job.room == 0
}

fn begins(buffer: &[u8], front: &[u8]) -> bool {
    buffer.starts_with(front)
}

/// Whether so many children are added one after the other, with the numbers from 0.
fn has_children(table: &mut CallTable, parent: u32, count: u32, input: &[u8]) -> bool
    requires { length input.now ≤ 65536 }
{
    for n in 0..count {
        match child(table, parent, input) {
            Some(Ok(number)) if number == n => {}
            _ => return false,
        }
    }
    true
}

/// Whether the next child is refused, and these numbers are told.
fn is_full(table: &mut CallTable, parent: u32, input: &[u8], told: (u32, u64, u32)) -> bool
    requires { length input.now ≤ 65536 }
{
    match child(table, parent, input) {
        Some(
            Err(
                SubmitFault::ChainFull {
                    calls,
                    bytes,
                    depth,
                },
            ),
        ) => (calls, bytes, depth) == told,
        _ => false,
    }
}

#[test]
fn a_request_has_1024_calls(rt: HostRuntime) -> Result<(), Fail> {
    let mut buffer = vec![in rt.alloc(); 0; 65_536]?;
    let mut table = table(rt.alloc(), 0)?;
    assert!(rt; request(&mut table, &[]) == Some(0));
    assert!(rt; taken(&mut table, &mut buffer).is_some());
    assert!(rt; has_children(&mut table, 0, 1_023, &[]));
    assert!(rt; is_full(&mut table, 0, &[], (1_024, 0, 1)));
    assert!(rt; table.calls() == 1_024 && table.unfinished() == 1_024);
    Ok(())
}

#[test]
fn a_request_has_2097152_bytes(rt: HostRuntime) -> Result<(), Fail> {
    let mut buffer = vec![in rt.alloc(); 0; 65_536]?;
    let mut table = table(rt.alloc(), 1_024)?;
    assert!(rt; request(&mut table, &[7; 65_536]) == Some(0));
    assert!(rt; taken(&mut table, &mut buffer).is_some());
    assert!(rt; has_children(&mut table, 0, 30, &[7; 65_536]));
    assert!(rt; is_full(&mut table, 0, &[7; 65_536], (31, 2_063_360, 1)));
    Ok(())
}

#[test]
fn a_call_is_at_most_8_deep(rt: HostRuntime) -> Result<(), Fail> {
    let mut buffer = vec![in rt.alloc(); 0; 65_536]?;
    let mut table = table(rt.alloc(), 1)?;
    assert!(rt; request(&mut table, &[]) == Some(0));
    for parent in 0..7 {
        assert!(rt; taken(&mut table, &mut buffer).is_some());
        assert!(rt; has_children(&mut table, parent, 1, &[9]));
    }
    assert!(rt; taken(&mut table, &mut buffer).is_some());
    assert!(rt; is_full(&mut table, 7, &[], (8, 15, 8)));
    Ok(())
}

#[test]
fn a_request_is_to_come(rt: HostRuntime) -> Result<(), Fail> {
    let mut buffer = vec![in rt.alloc(); 0; 65_536]?;
    let mut table = table(rt.alloc(), 0)?;
    assert!(rt; table.workers() == 1 && table.requests() == 1);
    assert!(rt; table.unfinished() == 1);
    assert!(rt; is_idle(&mut table, 1, &mut buffer));
    assert!(rt; request(&mut table, &[]) == Some(0));
    assert!(rt; table.unfinished() == 1);
    assert!(rt; request(&mut table, &[]) == Some(1));
    assert!(rt; table.unfinished() == 2);
    Ok(())
}

#[test]
fn a_host_takes_its_own_calls_first(rt: HostRuntime) -> Result<(), Fail> {
    let mut buffer = vec![in rt.alloc(); 0; 65_536]?;
    let mut table = table(rt.alloc(), 0)?;
    for call in 0..1_000 {
        assert!(rt; request_from(&mut table, call % 2) == Some(call));
    }
    for n in 0..500 {
        assert!(rt; takes(&mut table, 2 * n + 1, &mut buffer));
    }
    for n in 0..500 {
        assert!(rt; takes(&mut table, 2 * n, &mut buffer));
    }
    assert!(rt; is_idle(&mut table, 1_000, &mut buffer));
    assert!(rt; request_from(&mut table, 0) == Some(1_000));
    assert!(rt; placed(&table, 999) == Some(1) && placed(&table, 1_000) == Some(1));
    assert!(rt; ended(&mut table, 7, &[]) && table.unfinished() == 1_000);
    assert!(rt; takes(&mut table, 1_000, &mut buffer));
    Ok(())
}

#[test]
fn nothing_is_queued(rt: HostRuntime) -> Result<(), Fail> {
    let mut buffer = vec![in rt.alloc(); 0; 65_536]?;
    let mut table = table(rt.alloc(), 0)?;
    assert!(rt; request(&mut table, &[1, 2]) == Some(0));
    let job = taken(&mut table, &mut buffer).ok_or("a job")?;
    assert!(rt; is_first(&job));
    assert!(rt; begins(&buffer, &[1, 2, 0]));
    assert!(rt; table.runs_on(0, 3) && !table.runs_on(0, 2));
    assert!(rt; is_idle(&mut table, 1, &mut buffer));
    Ok(())
}

/// Ends a call, if it is taken and has room for this output and one count.
fn ended(table: &mut CallTable, call: u32, output: &[u8]) -> bool {
    if !table.is_taken(call) || call >= table.calls() {
        return false;
    }
    let known = table.record_of(call);
    if (known.room as usize) < output.len() || table.callable(known.function).channels != 1 {
        return false;
    }
    table.finish(call, Outcome::Done(5), 4, output, &[2]);
    true
}

/// The outcome of a call and the length of its output, where it is finished.
fn looked(table: &CallTable, call: u32, buffer: &mut [u8]) -> Option<(Outcome, u32)> {
    if call >= table.calls() || buffer.len() < 65_536 {
        return None;
    }
    match table.look(call, buffer) {
        Ok(Reply::Finished { outcome, len }) => Some((outcome, len)),
        _ => None,
    }
}

#[test]
fn a_child_is_looked_at(rt: HostRuntime) -> Result<(), Fail> {
    let mut buffer = vec![in rt.alloc(); 0; 65_536]?;
    let mut table = table(rt.alloc(), 3)?;
    assert!(rt; request(&mut table, &[]) == Some(0));
    assert!(rt; taken(&mut table, &mut buffer).is_some());
    assert!(rt; has_children(&mut table, 0, 2, &[]));
    assert!(rt; table.child_of(0, 1) == Some(2) && table.child_of(0, 2) == None);
    assert!(rt; looked(&table, 2, &mut buffer) == None);
    assert!(rt; is_taken_once(&mut table, 2, &mut buffer));
    assert!(rt; looked(&table, 2, &mut buffer) == None);
    assert!(rt; ended(&mut table, 2, &[8, 9]));
    assert!(rt; looked(&table, 2, &mut buffer) == Some((Outcome::Done(5), 2)));
    assert!(rt; begins(&buffer, &[8, 9, 0]));
    assert!(rt; table.unfinished() == 2);
    Ok(())
}
