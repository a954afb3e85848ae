//! How much each request has taken, kept beside the records, so that a Submit goes over none of them.

ghost use Rattle.std.specs.Prelude.{◌≡◌, ◌+◌, ◌<◌, ◌≤◌, ◌^◌, ◌++◌, ◌∷◌, [], OnOk, length, slice_set, vec_capacity};
ghost use Rattle.faaslet_meaning.specs.Table.{byte_limit};
ghost use Rattle.call_table.specs.Chains.{ChainsFit, chain_at};

use std::alloc::{AllocError, Global};

/// How many calls a request has, and the bytes of their inputs and rooms.
#[derive(Clone, Copy)]
pub(crate) struct Chain {
    pub(crate) calls: u32,
    pub(crate) bytes: u64,
}

/// The chain of each request by the number of the request.
#[derive(Drop)]
pub(crate) struct Chains {
    kept: Vec<Chain>,
}

impl Chains {
    pub(crate) fn new(alloc: Global) -> Chains
        ensures { ChainsFit [] result }
    {
        Chains {
            kept: Vec::new(alloc),
        }
    }

    pub(crate) fn of(&self, request: u32) -> Chain
        requires { request < length self.now.kept.items }
        ensures { result ≡ chain_at self.now.kept.items request }
    {
        self.kept[request as usize]
    }

    /// Makes room for one more request.
    pub(crate) fn reserve(&mut self) -> Result<(), AllocError>
        ensures same { self.new.kept.items ≡ self.old.kept.items }
        ensures ok { OnOk result (length self.old.kept.items < vec_capacity self.new.kept) }
    {
        self.kept.reserve(1)
    }

    /// A request comes, whose call takes so many bytes.
    pub(crate) fn start(&mut self, bytes: u64)
        requires room { length self.old.kept.items < vec_capacity self.old.kept }
        ensures { self.new.kept.items ≡ self.old.kept.items ++ record { calls = 1; bytes = bytes } ∷ [] }
    {
        self.kept.push_reserved(Chain { calls: 1, bytes });
    }

    /// A request has one call more, which takes so many bytes.
    pub(crate) fn add(&mut self, request: u32, bytes: u64)
        requires there { request < length self.old.kept.items }
        requires calls { (chain_at self.old.kept.items request).calls < 2 ^ 31 }
        requires bytes { (chain_at self.old.kept.items request).bytes + bytes ≤ byte_limit }
        ensures { self.new.kept.items ≡ slice_set self.old.kept.items request record {
          calls = (chain_at self.old.kept.items request).calls + 1;
          bytes = (chain_at self.old.kept.items request).bytes + bytes;
        } }
    {
        let chain = &mut self.kept[request as usize];
        chain.calls += 1;
        chain.bytes += bytes;
    }
}
