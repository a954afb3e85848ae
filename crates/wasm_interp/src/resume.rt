//! The rest of a load or a store behind a shared piece.

ghost use Rattle.std.specs.Prelude.{◌≡◌, ℕ, ◌+◌, ◌-◌, ◌*◌, ◌<◌, ◌≤◌, ◌^◌, List, Some, length, take};
ghost use Rattle.faaslet_meaning.specs.declared.grant.Grant.{Grant};
ghost use Rattle.faaslet_meaning.specs.declared.module.Module.{Module};
ghost use Rattle.faaslet_meaning.specs.Configuration.{Configuration, Begun, touches};
ghost use Rattle.faaslet_meaning.specs.LoadStore.{Load, load_of, load_size, store_of};
ghost use Rattle.faaslet_meaning.specs.Memory.{reads, pieces, shared_pieces, write_on};
ghost use Rattle.faaslet_meaning.specs.MemoryRules.{load_on, stored, resumed};
ghost use Rattle.wasm_interp.specs.Goes.{SameRun};
ghost use Rattle.wasm_interp.specs.Parts.{Within, SoFar, left_to_write};
ghost use Rattle.wasm_interp.specs.Stands.{Stands};
ghost use Rattle.wasm_interp.specs.StandsFor.{StandsFor, StageStands, reply_size};

use crate::machine::{Machine, Pending, Stage};
use crate::pieces::{read_on, write_on};
use crate::rows::load_value;
use crate::words::{joined, number_of};
use faaslet_meaning::Linear;

impl<'m, M: Linear> Machine<'m, M> {
    // A load of which so many bytes are through goes on to a shared piece or to its end.
    pub(crate) fn read_rest(&mut self, op: u8, addr: u64, size: u64, done: u64, so_far: u64)
        requires row { (l : Load) × (load_of op ≡ Some l) }
        requires range { Within (M.memory self.old.memory) addr size done }
        requires small { so_far < 2 ^ (8 * done) }
        requires value { 0 < length self.old.thread.values }
        ensures done { (c : Configuration) (l : Load) (copy : List ℕ) → load_of op ≡ Some l → size ≡ load_size l
            → Stands (M.memory self.old.memory) self.old.thread c → 0 < length c.frame.values
            → addr + size ≤ length (M.memory self.old.memory).bytes → SoFar (M.memory self.old.memory).bytes copy addr done so_far
            → StageStands (M.memory self.new.memory) self.new.thread self.new.stage
            (load_on c l (reads addr size (shared_pieces (M.memory self.old.memory) (addr + done) (size - done)) copy)) }
        ensures same { SameRun M.backing self.old self.new }
    {
        let reached = read_on(&self.memory, addr, size, done, so_far);
        match reached.ask {
            Some(ask) => {
                self.stage = Stage::Piece(Pending {
                    op,
                    addr,
                    size,
                    done: reached.done,
                    value: reached.value,
                    ask,
                });
            }
            None => {
                self.stage = Stage::Runs;
                self.thread.values.replace(load_value(op, reached.value));
            }
        }
    }

    // A store of which so many bytes are through goes on to a shared piece or to its end.
    pub(crate) fn write_rest(&mut self, op: u8, addr: u64, size: u64, done: u64, value: u64)
        requires row { store_of op ≡ Some size }
        requires range { Within (M.memory self.old.memory) addr size done }
        requires values { 2 ≤ length self.old.thread.values }
        ensures done { (c : Configuration) → Stands (M.memory self.old.memory) self.old.thread c → 2 ≤ length c.frame.values
            → StageStands (M.memory self.new.memory) self.new.thread self.new.stage
            (stored c (write_on (pieces (M.memory self.old.memory) (addr + done) (size - done)) (M.memory self.old.memory) (left_to_write size done value))) }
        ensures same { SameRun M.backing self.old self.new }
    {
        let reached = write_on(&mut self.memory, addr, size, done, value);
        match reached.ask {
            Some(ask) => {
                self.stage = Stage::Piece(Pending {
                    op,
                    addr,
                    size,
                    done: reached.done,
                    value,
                    ask,
                });
            }
            None => {
                self.stage = Stage::Runs;
                self.thread.values.cut(2);
            }
        }
    }

    /// Goes on after a shared piece. Bytes that were read are the first of the scratch.
    pub fn resume_piece(&mut self)
        requires { (code : Module) × (grants : List Grant) × (given : ℕ) × (c : Configuration) × (b : Begun)
            × StandsFor M.memory self.old code grants given (touches c b) }
        ensures done { (code : Module) (grants : List Grant) (given : ℕ) (c : Configuration) (b : Begun)
            → StandsFor M.memory self.old code grants given (touches c b)
            → StandsFor M.memory self.new code grants given (resumed c b (take (reply_size b) self.old.scratch)) }
        ensures same { SameRun M.backing self.old self.new }
    {
        let Stage::Piece(q) = self.stage else {
            unreachable!()
        };
        let len = u64::from(q.ask.len);
        if q.ask.write {
            self.write_rest(q.op, q.addr, q.size, q.done + len, q.value);
        } else {
            let part = number_of(&self.scratch.as_slice()[..q.ask.len as usize]);
            let value = joined(q.value, q.done, part, len);
            self.read_rest(q.op, q.addr, q.size, q.done + len, value);
        }
    }
}
