//! The records, each with the room that its end takes.

ghost use Rattle.std.specs.Prelude.{◌≡◌, ℕ, ◌&&◌, nat_lt, false, ◌+◌, ◌<◌, ◌≤◌, ◌^◌, ◌++◌, ◌∷◌, ◌==◌, [], All, IsTrue, IfOk, IfErr, IfSome, OnOk, OnErr, Some, length, filter, not, nat_le, slice_get, option_and_then, vec_capacity, vec_len};
ghost use Rattle.faaslet_meaning.specs.Channels.{Reply as SpecReply};
ghost use Rattle.faaslet_meaning.specs.Lists.{passes_at, changed};
ghost use Rattle.faaslet_meaning.specs.Records as said;
ghost use Rattle.faaslet_meaning.specs.Table as table;
ghost use Rattle.call_table.specs.Did.{Did};
ghost use Rattle.call_table.specs.Handed.{Handed};
ghost use Rattle.call_table.specs.Held.{piece_limit, IsHeld};
ghost use Rattle.call_table.specs.Looked.{Looked};
ghost use Rattle.call_table.specs.Makers.{is_on};
ghost use Rattle.call_table.specs.Parent.{IsParent, IsChildOf};

use crate::jobs::{self, Job, Unfinished};
use crate::records;
use crate::spare::{Spare, filled};
use faaslet_meaning::{Bytes, CallRecord, CallState, Callable, Outcome, Reply};
use std::alloc::{AllocError, Global};
use std::marker::Model;

/// The most records, so that their number and one more number of requests fit a `u32`.
const MOST_RECORDS: usize = 2_147_483_647;

/// The records of calls by their numbers, with what is known of each function.
#[derive(Drop)]
pub(crate) struct Store {
    alloc: Global,
    hosts: u32,
    functions: Vec<Callable>,
    records: Vec<CallRecord>,
    spares: Vec<Option<Spare>>,
}

impl Model for Store {
    ghost use Rattle.faaslet_meaning.specs.Table.{Table};

    ghost Value = { Table };

    ghost use Rattle.call_table.specs.Inside.{table_in, IsInside};

    ghost view = { table_in };

    ghost invariant = { IsInside };
}

/// What a new child takes of its parent: the numbers of the parent and of its request, the parent's depth, the child's
/// number, and the host at which the parent was taken.
#[derive(Clone, Copy)]
pub(crate) struct Parent {
    pub(crate) call: u32,
    pub(crate) request: u32,
    pub(crate) depth: u32,
    pub(crate) child: u32,
    pub(crate) host: u32,
}

impl Store {
    /// A table without records, of so many hosts. The functions are numbered by their places.
    pub(crate) fn new(
        alloc: Global,
        functions: &[Callable],
        hosts: u32,
    ) -> Result<Store, AllocError>
        requires { All (λ f. f.room ≤ piece_limit) functions.now }
        ensures { IfOk result (λ t. t ≡ table.empty_table hosts functions.now) }
    {
        let functions = functions.to_vec(alloc)?;
        Ok(Store {
            alloc,
            hosts,
            functions,
            records: Vec::new(alloc),
            spares: Vec::new(alloc),
        })
    }

    pub(crate) fn hosts(&self) -> u32
        ensures { result ≡ self.now.hosts }
    {
        self.hosts
    }

    /// How many functions are known.
    pub(crate) fn functions(&self) -> usize
        ensures { result ≡ length self.now.functions }
    {
        self.functions.len()
    }

    /// What is known of a function.
    pub(crate) fn callable(&self, function: u32) -> Callable
        requires { function < length self.now.functions }
        ensures known { result ≡ table.callable self.now function }
        ensures room { result.room ≤ piece_limit }
    {
        self.functions[function as usize]
    }

    pub(crate) fn records(&self) -> &[CallRecord]
        ensures all { result.now ≡ self.now.records }
        ensures few { length result.now < 2 ^ 31 }
    {
        &self.records
    }

    /// The number of records.
    pub(crate) fn calls(&self) -> u32
        ensures { result ≡ length self.now.records }
    {
        self.records.len() as u32
    }

    /// Whether there is such a call, and it is taken and not finished.
    pub(crate) fn is_taken(&self, call: u32) -> bool
        ensures { result ≡ passes_at (λ r. said.is_open r.state) self.now.records call }
    {
        match self.records.get(call as usize) {
            Some(known) => records::is_open(&known.state),
            None => false,
        }
    }

    /// Whether there is such a call, and it is taken by this bench and not finished.
    pub(crate) fn runs_on(&self, call: u32, bench: u32) -> bool
        ensures { result ≡ passes_at (λ r. is_on bench r.state) self.now.records call }
    {
        match self.records.get(call as usize) {
            Some(known) => records::is_on(&known.state, bench),
            None => false,
        }
    }

    /// The record of a call.
    pub(crate) fn record_of(&self, call: u32) -> &CallRecord
        requires { call < length self.now.records }
        ensures there { slice_get self.now.records call ≡ Some result.now }
        ensures held { IsHeld self.now.hosts (length self.now.functions) (length self.now.records) result.now }
    {
        &self.records[call as usize]
    }

    /// Ends a call that is taken and not finished.
    pub(crate) fn finish(
        &mut self,
        call: u32,
        outcome: Outcome,
        used: u64,
        output: &[u8],
        counts: &[u64],
    )
        requires open { IsTrue (passes_at (λ r. said.is_open r.state) self.old.records call) }
        requires output { IsTrue (passes_at (λ r. nat_le (length output.now) r.room) self.old.records call) }
        requires counts { IsTrue (passes_at (λ r. length counts.now == (table.callable self.old r.function).channels) self.old.records call) }
        ensures { Did self.old (table.finish call outcome used output.now counts.now) self.new SpecReply.done }
    {
        let at = call as usize;
        let Some(spare) = self.spares[at].take() else {
            unreachable!();
        };
        let Spare {
            output: bytes,
            counts: numbers,
        } = spare;
        let known = &mut self.records[at];
        let CallState::Taken { host, bench, order } = known.state else {
            unreachable!();
        };
        known.state = CallState::Finished {
            host,
            bench,
            order,
            outcome,
            used,
            output: filled(bytes, output),
            counts: filled(numbers, counts),
        };
    }

    /// The outcome of a call and the length of its output, which goes to the front of the buffer.
    pub(crate) fn look(&self, call: u32, out: &mut [u8]) -> Result<Reply, Unfinished>
        requires call { call < length self.now.records }
        requires buffer { piece_limit ≤ length out.old }
        ensures finished { IfOk result (λ reply. Looked self.now call reply out.old out.new) }
        ensures unfinished { OnErr result ((passes_at (λ r. said.is_finished r.state) self.now.records call ≡ false) × (out.new ≡ out.old)) }
    {
        match &self.records[call as usize].state {
            CallState::Finished {
                outcome,
                output,
                ..
            } => {
                let output = output.as_slice();
                jobs::copied(output, out);
                Ok(Reply::Finished {
                    outcome: *outcome,
                    len: output.len() as u32,
                })
            }
            _ => Err(Unfinished),
        }
    }

    pub(crate) fn is_queued(&self, call: u32) -> bool
        ensures { result ≡ passes_at (λ r. said.is_queued r.state) self.now.records call }
    {
        match self.records.get(call as usize) {
            Some(known) => records::is_queued(&known.state),
            None => false,
        }
    }

    pub(crate) fn parent_of(&self, call: u32) -> Parent
        requires { IsTrue (passes_at (λ r. said.is_open r.state) self.now.records call) }
        ensures call { result.call ≡ call }
        ensures parent { IsParent self.now result }
    {
        let known = &self.records[call as usize];
        let CallState::Taken { host, .. } = known.state else {
            unreachable!();
        };
        Parent {
            call,
            request: known.request,
            depth: known.depth,
            child: known.children,
            host,
        }
    }

    /// A record of a request with this number, or of a child but for what it takes of its parent.
    pub(crate) fn queued_record(
        &self,
        function: u32,
        from: u32,
        request: u32,
        placed: u32,
        input: &[u8],
    ) -> Result<CallRecord, AllocError>
        requires function { function < length self.now.functions }
        requires placed { placed ≡ table.place_of self.now function from }
        requires input { length input.now ≤ piece_limit }
        ensures queued { IfOk result (λ r. r ≡ record (table.queued_record self.now function from input.now) { request = request }) }
        ensures held { IfOk result (λ r. IsHeld self.now.hosts (length self.now.functions) (length self.now.records) r) }
    {
        let known = self.functions[function as usize];
        let input = input.to_vec(self.alloc)?;
        Ok(CallRecord {
            request,
            parent: None,
            child: 0,
            depth: 1,
            function,
            input: Bytes::of(input),
            room: known.room,
            fuel: known.fuel,
            from,
            placed,
            state: CallState::Queued,
            children: 0,
        })
    }

    /// Puts a record behind the others, with room for its output and its counts.
    pub(crate) fn push(&mut self, queued: CallRecord) -> Result<(), AllocError>
        requires queued { queued.state ≡ CallState.Queued }
        requires held { IsHeld self.old.hosts (length self.old.functions) (length self.old.records) queued }
        ensures ok { OnOk result (self.new ≡ record self.old { records = self.old.records ++ queued ∷ [] }) }
        ensures few { OnOk result (length self.old.records + 1 < 2 ^ 31) }
        ensures want { OnErr result (self.new ≡ self.old) }
    {
        let channels = self.functions[queued.function as usize].channels;
        let spare = Spare::new(self.alloc, queued.room as usize, channels as usize)?;
        make_room(&mut self.records, &mut self.spares)?;
        self.records.push_reserved(queued);
        self.spares.push_reserved(Some(spare));
        Ok(())
    }

    pub(crate) fn push_child(
        &mut self,
        p: Parent,
        function: u32,
        placed: u32,
        input: &[u8],
    ) -> Result<(), AllocError>
        requires parent { IsParent self.old p }
        requires depth { p.depth < 8 }
        requires placed { placed ≡ table.place_of self.old function p.host }
        requires function { function < length self.old.functions }
        requires input { length input.now ≤ piece_limit }
        ensures ok { OnOk result (IsChildOf self.old p function input.now self.new) }
        ensures few { OnOk result (length self.old.records + 1 < 2 ^ 31) }
        ensures want { OnErr result (self.new ≡ self.old) }
    {
        let queued = self.queued_record(function, p.host, p.request, placed, input)?;
        let child = CallRecord {
            request: p.request,
            parent: Some(p.call),
            child: p.child,
            depth: p.depth + 1,
            ..queued
        };
        self.push(child)?;
        self.records[p.call as usize].children = p.child + 1;
        Ok(())
    }

    pub(crate) fn take(
        &mut self,
        call: u32,
        host: u32,
        bench: u32,
        order: u32,
        input: &mut [u8],
    ) -> Job
        requires order { order ≡ said.takes self.old.records }
        requires call { IsTrue (passes_at (λ r. said.is_queued r.state) self.old.records call) }
        requires host { host < self.old.hosts }
        requires buffer { piece_limit ≤ length input.old }
        ensures taken { self.new ≡ table.taken self.old call host bench }
        ensures handed { Handed self.old.records call result input.old input.new }
    {
        let at = call as usize;
        let job = jobs::handed(call, &self.records[at], input);
        self.records[at].state = CallState::Taken { host, bench, order };
        job
    }
}

/// Makes room for one more record.
fn make_room(
    records: &mut Vec<CallRecord>,
    spares: &mut Vec<Option<Spare>>,
) -> Result<(), AllocError>
    ensures records { records.new.items ≡ records.old.items }
    ensures spares { spares.new.items ≡ spares.old.items }
    ensures ok { OnOk result ((vec_len records.new < vec_capacity records.new) × (vec_len spares.new < vec_capacity spares.new)) }
    ensures few { OnOk result (length records.old.items + 1 < 2 ^ 31) }
{
    if records.len() >= MOST_RECORDS {
        return Err(AllocError);
    }
    records.reserve(1)?;
    spares.reserve(1)
}
