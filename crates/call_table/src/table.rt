//! The call table.

ghost use Rattle.std.specs.Prelude.{◌≡◌, ◌+◌, ◌<◌, ◌≤◌, ◌^◌, ◌++◌, ◌&&◌, ◌==◌, All, IsTrue, IfOk, IfErr, OnOk, OnErr, Some, false, length, nat_le, nat_lt, slice_get};
ghost use Rattle.faaslet_meaning.specs.Channels.{Reply as SpecReply};
ghost use Rattle.faaslet_meaning.specs.Lists.{first, passes_at};
ghost use Rattle.faaslet_meaning.specs.Records as said;
ghost use Rattle.faaslet_meaning.specs.Spelling.{CodeFits};
ghost use Rattle.faaslet_meaning.specs.Table as table;
ghost use Rattle.call_table.specs.Handed.{Handed, NextIs, ThisIs};
ghost use Rattle.call_table.specs.Held.{piece_limit, IsHeld};
ghost use Rattle.call_table.specs.Looked.{LookedAt};
ghost use Rattle.call_table.specs.Made.{Made};
ghost use Rattle.call_table.specs.Makers.{is_on};
ghost use Rattle.call_table.specs.Parent.{IsParent, IsChildOf};
ghost use Rattle.call_table.specs.Refused.{Refused};
ghost use Rattle.call_table.specs.Session.{empty_session, unfinished};

use crate::chains::Chains;
use crate::children::Children;
use crate::heads::Heads;
use crate::jobs::{Job, Next, SubmitFault, Unfinished};
use crate::loads::Loads;
use crate::progress::Progress;
use crate::store::{Parent, Store};
use faaslet_meaning::{CallRecord, Callable, Outcome, Reply};
use std::alloc::{AllocError, Global};
use std::marker::Model;

/// The most calls of a request.
const CALL_LIMIT: u32 = 1024;

/// The most bytes of the inputs and rooms of a request.
const BYTE_LIMIT: u64 = 2_097_152;

/// The greatest depth of a call.
const DEPTH_LIMIT: u32 = 8;

/// The records of all calls of a session, which may be kept in turns.
#[derive(Drop)]
pub struct CallTable {
    store: Store,
    progress: Progress,
    heads: Heads,
    loads: Loads,
    chains: Chains,
    children: Children,
    workers: u32,
    requests: u32,
}

impl Model for CallTable {
    ghost use Rattle.call_table.specs.Session.{SessionTable};

    ghost Value = { SessionTable };

    ghost use Rattle.call_table.specs.SessionInside.{session_in, IsSession};

    ghost view = { session_in };

    ghost invariant = { IsSession };
}

impl CallTable {
    /// A table without records, of so many hosts with so many workers each, to which so many requests will come. The
    /// functions are numbered by their places.
    pub fn new(
        alloc: Global,
        functions: &[Callable],
        hosts: u32,
        workers: u32,
        requests: u32,
    ) -> Result<CallTable, AllocError>
        requires rooms { All (λ f. f.room ≤ piece_limit) functions.now }
        requires requests { requests < 2 ^ 31 }
        ensures { IfOk result (λ t. t ≡ empty_session hosts functions.now workers requests) }
    {
        let store = Store::new(alloc, functions, hosts)?;
        let heads = Heads::new(alloc, hosts)?;
        Ok(CallTable {
            store,
            progress: Progress::new(),
            heads,
            loads: Loads::new(alloc, hosts)?,
            chains: Chains::new(alloc),
            children: Children::new(alloc),
            workers,
            requests,
        })
    }

    pub fn hosts(&self) -> u32
        ensures { result ≡ self.now.table.hosts }
    {
        self.store.hosts()
    }

    /// How many workers each host has.
    pub fn workers(&self) -> u32
        ensures { result ≡ self.now.workers }
    {
        self.workers
    }

    /// How many requests there will be.
    pub fn requests(&self) -> u32
        ensures { result ≡ self.now.requests }
    {
        self.requests
    }

    /// How many functions are known.
    pub fn functions(&self) -> usize
        ensures { result ≡ length self.now.table.functions }
    {
        self.store.functions()
    }

    /// What is known of a function.
    pub fn callable(&self, function: u32) -> Callable
        requires { function < length self.now.table.functions }
        ensures { result ≡ table.callable self.now.table function }
    {
        self.store.callable(function)
    }

    /// The number of records.
    pub fn calls(&self) -> u32
        ensures { result ≡ length self.now.table.records }
    {
        self.store.calls()
    }

    /// How many calls are not finished, with those of the requests that are still to come.
    pub fn unfinished(&self) -> u32
        ensures { result ≡ unfinished self.now }
    {
        self.progress.unfinished + self.requests.saturating_sub(self.progress.came)
    }

    /// Whether there is such a call, and it is taken and not finished.
    pub fn is_taken(&self, call: u32) -> bool
        ensures { result ≡ passes_at (λ r. said.is_open r.state) self.now.table.records call }
    {
        self.store.is_taken(call)
    }

    /// Whether there is such a call, and it is taken by this bench and not finished.
    pub fn runs_on(&self, call: u32, bench: u32) -> bool
        ensures { result ≡ passes_at (λ r. is_on bench r.state) self.now.table.records call }
    {
        self.store.runs_on(call, bench)
    }

    /// The number of the call that is this child of its parent.
    pub fn child_of(&self, call: u32, child: u32) -> Option<u32>
        ensures { result ≡ said.child_of self.now.table.records call child }
    {
        self.children.find(call, child)
    }

    /// The record of a call.
    pub fn record_of(&self, call: u32) -> &CallRecord
        requires { call < length self.now.table.records }
        ensures there { slice_get self.now.table.records call ≡ Some result.now }
        ensures held { IsHeld self.now.table.hosts (length self.now.table.functions) (length self.now.table.records) result.now }
    {
        self.store.record_of(call)
    }

    /// Adds a request of the function that comes from a host, and answers the number of its call.
    pub fn submit_request(
        &mut self,
        function: u32,
        host: u32,
        input: &[u8],
    ) -> Result<u32, AllocError>
        requires function { function < length self.old.table.functions }
        requires host { host < self.old.table.hosts }
        requires input { length input.now ≤ piece_limit }
        ensures ok { IfOk result (λ call. Made self.old (table.submit_request function host input.now) self.new (SpecReply.number call)) }
        ensures want { OnErr result (self.new ≡ self.old) }
    {
        let placed = self.place(function, host);
        let call = self.store.calls();
        let bytes = self.bytes(function, input);
        let queued = self
            .store
            .queued_record(function, host, self.progress.came, placed, input)?;
        self.loads.reserve(call + 1 - self.progress.taken)?;
        self.chains.reserve()?;
        self.children.reserve()?;
        self.store.push(queued)?;
        self.progress.add_request();
        self.loads.add(placed);
        self.chains.start(bytes);
        self.children.add_call();
        Ok(call)
    }

    /// Adds a child of a call that is taken and not finished, and answers the child's number in its parent's order.
    pub fn submit(&mut self, parent: u32, function: u32, input: &[u8]) -> Result<u32, SubmitFault>
        requires parent { IsTrue (passes_at (λ r. said.is_open r.state) self.old.table.records parent) }
        requires function { function < length self.old.table.functions }
        requires input { length input.now ≤ piece_limit }
        ensures ok { IfOk result (λ child. Made self.old (table.submit parent function input.now) self.new (SpecReply.child child)) }
        ensures refused { IfErr result (λ fault. Refused self.old parent function input.now self.new fault) }
    {
        let p = self.store.parent_of(parent);
        let chain = self.chains.of(p.request);
        let bytes = self.bytes(function, input);
        if !has_room(chain.calls, chain.bytes + bytes, p.depth) {
            return Err(SubmitFault::ChainFull {
                calls: chain.calls,
                bytes: chain.bytes,
                depth: p.depth,
            });
        }
        match self.add_child(p, function, input, bytes) {
            Ok(()) => Ok(p.child),
            Err(_) => Err(SubmitFault::Want),
        }
    }

    /// Takes the lowest call that is queued at the host, or else the lowest that is queued.
    pub fn take_next(&mut self, host: u32, bench: u32, input: &mut [u8]) -> Next
        requires host { host < self.old.table.hosts }
        requires buffer { piece_limit ≤ length input.old }
        ensures { NextIs self.old host bench self.new input.old input.new result }
    {
        match self.next(host) {
            Some(call) => Next::Call(self.take(call, host, bench, input)),
            None => Next::None {
                unfinished: self.unfinished(),
            },
        }
    }

    /// Takes a call, if it is queued.
    pub fn take_this(&mut self, call: u32, host: u32, bench: u32, input: &mut [u8]) -> Option<Job>
        requires host { host < self.old.table.hosts }
        requires buffer { piece_limit ≤ length input.old }
        ensures { ThisIs self.old call host bench self.new input.old input.new result }
    {
        if self.store.is_queued(call) {
            Some(self.take(call, host, bench, input))
        } else {
            None
        }
    }

    /// Ends a call that is taken and not finished.
    pub fn finish(&mut self, call: u32, outcome: Outcome, used: u64, output: &[u8], counts: &[u64])
        requires open { IsTrue (passes_at (λ r. said.is_open r.state) self.old.table.records call) }
        requires output { IsTrue (passes_at (λ r. nat_le (length output.now) r.room) self.old.table.records call) }
        requires counts { IsTrue (passes_at (λ r. length counts.now == (table.callable self.old.table r.function).channels) self.old.table.records call) }
        ensures { Made self.old (table.finish call outcome used output.now counts.now) self.new SpecReply.done }
    {
        code_fits(&outcome);
        self.store.finish(call, outcome, used, output, counts);
        self.progress.finish();
    }

    /// The outcome of a call and the length of its output, which goes to the front of the buffer.
    pub fn look(&self, call: u32, out: &mut [u8]) -> Result<Reply, Unfinished>
        requires call { call < length self.now.table.records }
        requires buffer { piece_limit ≤ length out.old }
        ensures finished { IfOk result (λ reply. LookedAt self.now call reply out.old out.new) }
        ensures unfinished { OnErr result ((passes_at (λ r. said.is_finished r.state) self.now.table.records call ≡ false) × (out.new ≡ out.old)) }
    {
        self.store.look(call, out)
    }

    /// The host of a call of the function that comes from a host.
    fn place(&self, function: u32, from: u32) -> u32
        requires from { from < self.now.table.hosts }
        ensures { result ≡ table.place_of self.now.table function from }
    {
        self.loads.place(function, from)
    }

    /// The bytes that a call of the function takes of its request's.
    fn bytes(&self, function: u32, input: &[u8]) -> u64
        requires function { function < length self.now.table.functions }
        requires input { length input.now ≤ piece_limit }
        ensures sum { result ≡ length input.now + (table.callable self.now.table function).room }
        ensures few { result ≤ 131072 }
    {
        input.len() as u64 + u64::from(self.store.callable(function).room)
    }

    /// Adds a child for which the limits have room, and which takes so many bytes.
    fn add_child(
        &mut self,
        p: Parent,
        function: u32,
        input: &[u8],
        bytes: u64,
    ) -> Result<(), AllocError>
        requires parent { IsParent self.old.table p }
        requires depth { p.depth < 8 }
        requires bytes { bytes ≡ length input.now + (table.callable self.old.table function).room }
        requires calls { length (said.calls_of self.old.table.records p.request) < table.call_limit }
        requires room { said.bytes_of self.old.table.records p.request + bytes ≤ table.byte_limit }
        requires function { function < length self.old.table.functions }
        requires input { length input.now ≤ piece_limit }
        ensures ok { OnOk result (IsChildOf self.old.table p function input.now self.new.table) }
        ensures rest { (self.new.workers ≡ self.old.workers) × (self.new.requests ≡ self.old.requests) }
        ensures want { OnErr result (self.new ≡ self.old) }
    {
        let placed = self.place(function, p.host);
        let call = self.store.calls();
        self.loads.reserve(call + 1 - self.progress.taken)?;
        self.children.reserve()?;
        self.children.reserve_child(p.call)?;
        self.store.push_child(p, function, placed, input)?;
        self.progress.add_child();
        self.loads.add(placed);
        self.chains.add(p.request, bytes);
        self.children.add_child(p.call, call);
        self.children.add_call();
        Ok(())
    }

    /// The call that a host takes next.
    fn next(&mut self, host: u32) -> Option<u32>
        requires host { host < self.old.table.hosts }
        ensures same { self.new ≡ self.old }
        ensures first { result ≡ first (said.queue self.old.table.records host ++ said.queued_calls self.old.table.records) }
    {
        self.heads.next(self.store.records(), host)
    }

    /// Takes a call that is queued.
    fn take(&mut self, call: u32, host: u32, bench: u32, input: &mut [u8]) -> Job
        requires call { IsTrue (passes_at (λ r. said.is_queued r.state) self.old.table.records call) }
        requires host { host < self.old.table.hosts }
        requires buffer { piece_limit ≤ length input.old }
        ensures taken { self.new ≡ record self.old { table = table.taken self.old.table call host bench } }
        ensures handed { Handed self.old.table.records call result input.old input.new }
    {
        let known = self.store.record_of(call);
        let placed = known.placed;
        let job = self
            .store
            .take(call, host, bench, self.progress.taken, input);
        self.progress.take();
        self.loads.start(job.function, placed, host);
        job
    }
}

/// The result of a call is an i32, so that its Finish can be told from its spelling.
fn code_fits(outcome: &Outcome)
    ensures { CodeFits outcome.now }
{
    if let Outcome::Done(code) = outcome {
        let _code = *code;
    }
}

/// Whether a request of so many calls, whose bytes will be these, may have a child of a call of this depth.
fn has_room(calls: u32, bytes: u64, depth: u32) -> bool
    ensures { result ≡ (nat_lt calls table.call_limit && nat_le bytes table.byte_limit && nat_lt depth table.depth_limit) }
{
    calls < CALL_LIMIT && bytes <= BYTE_LIMIT && depth < DEPTH_LIMIT
}
