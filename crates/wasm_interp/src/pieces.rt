//! The pieces of a load or a store that is not private throughout.

ghost use Rattle.std.specs.Prelude.{◌≡◌, ◌+◌, ◌-◌, ◌*◌, ◌<◌, ◌≤◌, ◌^◌, true, false, IsTrue, IfSome, IfNone, OnSome, List, Option};
ghost use Rattle.faaslet_meaning.specs.declared.grant.Grant.{Grant};
ghost use Rattle.faaslet_meaning.specs.declared.grant.Mode.TheVariants.{Write as write_mode};
ghost use Rattle.faaslet_meaning.specs.LoadStore.{number, bytes_of};
ghost use Rattle.faaslet_meaning.specs.Memory.{IsMemory, IsPrivate, IsFirstPiece, lies_in, pieces, shared_pieces, read_bytes, write_on, put};
ghost use Rattle.faaslet_meaning.specs.MemoryRules.{all_granted};
ghost use Rattle.wasm_interp.specs.Parts.{Within, ReadOn, StopsAt, WrittenOn};
ghost use Rattle.wasm_interp.specs.StandsFor.{Agrees};

use crate::machine::PieceAsk;
use crate::words::{behind, joined, number_of};
use faaslet_meaning::{Home, Linear, Piece};

/// How far a load or a store has come, with what a load has read, and the shared piece that is next.
#[derive(Clone, Copy, Debug)]
pub struct Reached {
    pub done: u64,
    pub value: u64,
    pub ask: Option<PieceAsk>,
}

/// `read_number` for the sizes of loads, each known where it is compiled.
#[inline(always)]
pub fn read_sized<M: Linear>(memory: &M, addr: u64, size: u64) -> Option<u64>
    requires some { 1 ≤ size }
    requires few { size ≤ 8 }
    ensures number { IfSome result (λ n. n ≡ number (read_bytes addr size (M.memory memory.now).bytes)) }
    ensures private { OnSome result (IsTrue (lies_in (M.memory memory.now) addr size) × IsPrivate (M.memory memory.now) addr size) }
    ensures other { IfNone result (IsTrue (lies_in (M.memory memory.now) addr size) → IsPrivate (M.memory memory.now) addr size → ⊥) }
    ensures sound { IsMemory (M.memory memory.now) }
{
    match size {
        1 => memory.read_number(addr, 1),
        2 => memory.read_number(addr, 2),
        4 => memory.read_number(addr, 4),
        8 => memory.read_number(addr, 8),
        _ => memory.read_number(addr, size),
    }
}

/// `write_number` for the sizes of stores, each known where it is compiled.
#[inline(always)]
pub fn write_sized<M: Linear>(memory: &mut M, addr: u64, size: u64, value: u64) -> bool
    requires some { 1 ≤ size }
    requires few { size ≤ 8 }
    ensures written { IsTrue result → IsTrue (lies_in (M.memory memory.old) addr size) × IsPrivate (M.memory memory.old) addr size
        × (M.memory memory.new ≡ put (M.memory memory.old) addr (bytes_of size value)) }
    ensures other { result ≡ false → (M.memory memory.new ≡ M.memory memory.old)
        × (IsTrue (lies_in (M.memory memory.old) addr size) → IsPrivate (M.memory memory.old) addr size → ⊥) }
    ensures sound { IsMemory (M.memory memory.new) }
    ensures kept { M.backing memory.new ≡ M.backing memory.old }
{
    match size {
        1 => memory.write_number(addr, 1, value),
        2 => memory.write_number(addr, 2, value),
        4 => memory.write_number(addr, 4, value),
        8 => memory.write_number(addr, 8, value),
        _ => memory.write_number(addr, size, value),
    }
}

// The first piece of what is left of a range.
fn next_piece<M: Linear>(memory: &M, addr: u64, size: u64, done: u64) -> Piece
    requires range { Within (M.memory memory.now) addr size done }
    requires some { done < size }
    ensures first { IsFirstPiece (M.memory memory.now) (addr + done) (size - done) result }
    ensures some { 0 < result.len }
    ensures few { result.len ≤ size - done }
    ensures sound { IsMemory (M.memory memory.now) }
{
    memory.piece_at(addr + done, size - done)
}

// The number in private bytes.
fn private_number<M: Linear>(memory: &M, addr: u64, len: u64) -> u64
    requires inside { IsTrue (lies_in (M.memory memory.now) addr len) }
    requires private { IsPrivate (M.memory memory.now) addr len }
    requires few { len ≤ 8 }
    ensures value { result ≡ number (read_bytes addr len (M.memory memory.now).bytes) }
    ensures small { result < 2 ^ (8 * len) }
{
    let mut word = [0; 8];
    let len = len as usize;
    memory.read_private(addr, &mut word[..len]);
    number_of(&word[..len])
}

/// Reads private bytes up to the end or to a shared piece.
pub fn read_on<M: Linear>(memory: &M, addr: u64, size: u64, from: u64, so_far: u64) -> Reached
    requires range { Within (M.memory memory.now) addr size from }
    requires small { so_far < 2 ^ (8 * from) }
    ensures on { ReadOn (M.memory memory.now) addr size from so_far result.done result.value }
    ensures stops { StopsAt (M.memory memory.now) (addr + result.done) (size - result.done) false result.ask }
{
    let mut done = from;
    let mut value = so_far;
    'parts: while done < size {
        let piece = next_piece(memory, addr, size, done);
        if let Home::Shared { place, off } = piece.home {
            let ask = PieceAsk {
                place,
                off,
                len: piece.len as u32,
                write: false,
            };
            return Reached {
                done,
                value,
                ask: Some(ask),
            };
        }
        let part = private_number(memory, addr + done, piece.len);
        value = joined(value, done, part, piece.len);
        done += piece.len;
    }
    Reached {
        done,
        value,
        ask: None,
    }
}

/// Writes the private bytes up to the end or to a shared piece.
pub fn write_on<M: Linear>(memory: &mut M, addr: u64, size: u64, from: u64, value: u64) -> Reached
    requires range { Within (M.memory memory.old) addr size from }
    ensures on { WrittenOn (M.memory memory.old) (M.memory memory.new) addr size from value result.done result.ask }
    ensures stops { StopsAt (M.memory memory.new) (addr + result.done) (size - result.done) true result.ask }
    ensures kept { M.backing memory.new ≡ M.backing memory.old }
{
    let mut done = from;
    'parts: while done < size {
        let piece = next_piece(memory, addr, size, done);
        if let Home::Shared { place, off } = piece.home {
            let ask = PieceAsk {
                place,
                off,
                len: piece.len as u32,
                write: true,
            };
            return Reached {
                done,
                value,
                ask: Some(ask),
            };
        }
        memory.write_number(addr + done, piece.len, behind(value, done));
        done += piece.len;
    }
    Reached {
        done,
        value,
        ask: None,
    }
}

/// Whether each shared piece may be written: bit k of `writable` is the replica at place k.
pub fn may_write<M: Linear>(memory: &M, writable: u32, addr: u64, size: u64) -> bool
    requires range { Within (M.memory memory.now) addr size 0 }
    ensures { (grants : List Grant) → Agrees writable grants
        → result ≡ all_granted grants write_mode (shared_pieces (M.memory memory.now) addr size) }
{
    let mut done = 0;
    'parts: while done < size {
        let piece = next_piece(memory, addr, size, done);
        if let Home::Shared { place, .. } = piece.home {
            if (writable >> place) % 2 == 0 {
                return false;
            }
        }
        done += piece.len;
    }
    true
}
