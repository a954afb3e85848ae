//! The parts that host calls on state are made of: questions of presence, and the pages of a replica.

ghost use Rattle.std.specs.Prelude.{◌≡◌, ◌*◌, ◌<◌, ◌≤◌, IsTrue};
ghost use Rattle.faaslet_meaning.specs.Memory.{IsMemory, grant_limit, key_pages, mapping_limit, mappings, may_map, page_size, pages_of, with_map};
ghost use Rattle.host_calls.specs.Acts.{fill_of, is_sought, map_trap, probe_of};
ghost use Rattle.host_calls.specs.Known.{mapped_at};
ghost use Rattle.host_calls.specs.Reads.{key_of, size_of};

use crate::modes::key_at;
use crate::state_act::StateAct;
use crate::state_known::Known;
use faaslet_meaning::{Ask, AskOp, Channel, Grant, Linear, Move, Trap};
use wasm_interp::Machine;

const PAGE: u32 = 65_536;

/// The most pages of any memory.
const PAGE_LIMIT: u32 = 65_536;

/// The size of the key at a place, or 0 where there is none.
pub fn size_at(grants: &[Grant], place: u32) -> u32
    ensures { result ≡ size_of grants.now place }
{
    match grants.get(place as usize) {
        Some(grant) => grant.size,
        None => 0,
    }
}

/// The question whether the key at a place is present.
pub fn probe_ask(grants: &[Grant], place: u32) -> Ask
    ensures { result ≡ probe_of (key_of grants.now place) }
{
    Ask::Region {
        channel: Channel::Local(key_at(grants, place)),
        op: AskOp::Probe,
    }
}

/// The transfer of the whole key at a place.
pub fn fill_ask(grants: &[Grant], place: u32) -> Ask
    ensures { result ≡ fill_of (key_of grants.now place) }
{
    Ask::Move {
        key: key_at(grants, place),
        kind: Move::Fill,
    }
}

/// The key at a place must be present for this, and was not seen so.
pub fn is_sought(known: &Known, place: u32, act: StateAct) -> bool
    ensures { result ≡ is_sought known.now place act }
{
    let seen = known.at(place).present;
    act.needs_presence() && !seen
}

// How many pages the memory has.
fn page_count<'m, M: Linear>(machine: &mut Machine<'m, M>) -> u32
    ensures same { machine.new ≡ machine.old }
    ensures count { result ≡ pages_of (M.memory machine.old.memory).segments }
    ensures sound { IsMemory (M.memory machine.old.memory) }
{
    machine.memory_mut().pages()
}

/// The trap where the pages of a key of this size would be more than there may be.
pub fn map_refusal<'m, M: Linear>(machine: &mut Machine<'m, M>, size: u32) -> Option<Trap>
    ensures same { machine.new ≡ machine.old }
    ensures trap { result ≡ map_trap (M.memory machine.old.memory) size }
{
    let pages = page_count(machine);
    if u64::from(pages) + u64::from(size.div_ceil(PAGE)) <= u64::from(PAGE_LIMIT) {
        None
    } else {
        Some(Trap::MapFull)
    }
}

fn map_pages<'m, M: Linear>(machine: &mut Machine<'m, M>, place: u32, pages: u32) -> u32
    requires place { place < grant_limit }
    requires some { 1 ≤ pages }
    requires few { mappings (M.memory machine.old.memory) < mapping_limit }
    requires may { IsTrue (may_map (M.memory machine.old.memory) pages) }
    ensures only { machine.new ≡ record machine.old { memory = machine.new.memory } }
    ensures backing { M.backing machine.new.memory ≡ M.backing machine.old.memory }
    ensures mapped { M.memory machine.new.memory ≡ with_map (M.memory machine.old.memory) place pages }
    ensures address { result ≡ pages_of (M.memory machine.old.memory).segments * page_size }
{
    match machine.memory_mut().map(place, pages) {
        Ok(address) => address,
        Err(_) => unreachable!(),
    }
}

/// Maps the replica of the key at a place, and answers its address.
pub fn map_key<'m, M: Linear>(
    place: u32,
    grants: &[Grant],
    known: &mut Known,
    machine: &mut Machine<'m, M>,
) -> u32
    requires place { place < grant_limit }
    requires some { 1 ≤ size_of grants.now place }
    requires few { known.old.mappings < mapping_limit }
    requires room { mappings (M.memory machine.old.memory) < mapping_limit }
    requires may { IsTrue (may_map (M.memory machine.old.memory) (key_pages (size_of grants.now place))) }
    ensures known { known.new ≡ mapped_at known.old place result }
    ensures only { machine.new ≡ record machine.old { memory = machine.new.memory } }
    ensures backing { M.backing machine.new.memory ≡ M.backing machine.old.memory }
    ensures mapped { M.memory machine.new.memory ≡ with_map (M.memory machine.old.memory) place (key_pages (size_of grants.now place)) }
    ensures address { result ≡ pages_of (M.memory machine.old.memory).segments * page_size }
{
    let pages = size_at(grants, place).div_ceil(PAGE);
    let address = map_pages(machine, place, pages);
    known.map_at(place, address);
    address
}
