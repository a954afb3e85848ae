//! How many entries a call made on each of its channels.

ghost use Rattle.std.specs.Prelude.{◌≡◌, ℕ, ◌+◌, ◌*◌, ◌≤◌, [], IfOk, length, replicate};
ghost use Rattle.faaslet_meaning.specs.Memory.{grant_limit};
ghost use Rattle.faaslet_run.specs.Counted.{counted_on, raised};

use crate::grants::place_on;
use faaslet_meaning::{Ask, Channel, Grant, Reply};
use std::alloc::{AllocError, Global};
use std::marker::Model;

/// How many channels a call has at most: two for each of 32 grants, and the table.
const CHANNELS: usize = 65;

/// One number for each channel, in their order.
#[derive(Drop)]
pub struct Tally {
    counts: Vec<u64>,
    len: usize,
}

impl Model for Tally {
    ghost use Rattle.std.specs.Prelude.{ℕ, List, length, take, ◌≡◌, ◌≤◌};

    ghost Value = { List ℕ };

    ghost view = { λ t. take t.len t.counts.items };

    ghost invariant = { λ t. (length t.counts.items ≡ 65) × (t.len ≤ 65) };
}

impl Tally {
    pub fn new(alloc: Global) -> Result<Tally, AllocError>
        ensures { IfOk result (λ t. t ≡ []) }
    {
        let counts = vec![in alloc; 0; CHANNELS]?;
        Ok(Tally { counts, len: 0 })
    }

    /// No entries yet on so many channels.
    #[tactic(auto, using(crate::proofs::Counting::zeros_front))]
    pub fn restart(&mut self, channels: usize)
        requires { channels ≤ 65 }
        ensures { self.new ≡ replicate channels 0 }
    {
        self.counts.as_mut_slice().copy_from_slice(&[0; CHANNELS]);
        self.len = channels;
    }

    pub fn as_slice(&self) -> &[u64]
        ensures { result.now ≡ self.now }
    {
        &self.counts[..self.len]
    }

    // One entry more on a channel of these grants. The number stands still at its type's end.
    fn raise(&mut self, grants: &[Grant], channel: Channel)
        requires few { length grants.now ≤ grant_limit }
        requires long { length self.old ≡ 2 * length grants.now + 1 }
        ensures raised { self.new ≡ raised grants.now channel self.old }
        ensures long { length self.new ≡ 2 * length grants.now + 1 }
    {
        if let Some(place) = place_on(grants, channel) {
            let count = self.counts[place];
            self.counts[place] = count.saturating_add(1);
        }
    }

    /// The entries that the reply to a question is: one, two for a move, and none where there was no memory for a call.
    pub fn count(&mut self, grants: &[Grant], ask: Ask, reply: Reply)
        requires few { length grants.now ≤ grant_limit }
        requires long { length self.old ≡ 2 * length grants.now + 1 }
        ensures { self.new ≡ counted_on grants.now ask reply self.old }
    {
        if matches!(reply, Reply::Want) {
            return;
        }
        match ask {
            Ask::Region { channel, .. } => self.raise(grants, channel),
            Ask::Move { key, .. } => {
                self.raise(grants, Channel::Local(key));
                self.raise(grants, Channel::Global(key));
            }
            Ask::Submit { .. } | Ask::Look { .. } => self.raise(grants, Channel::Table),
        }
    }
}
