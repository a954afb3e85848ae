//! One flat instruction. W3C WebAssembly Core Specification 1.0, section 5.4.

ghost use Rattle.std.specs.Int.{w32, w64};
ghost use Rattle.wasm_code.specs.Reading.{Gives, GivesOrWants};
ghost use Rattle.faaslet_meaning.specs.Reading as reading;

use crate::fault::BodyFault;
use crate::number::{Malformed, byte_at, s32_at, s64_at, u32_at};
use faaslet_meaning::{Instr, Items, Labels, ValType};
use std::alloc::Global;

/// A value type.
#[tactic(auto, unfolding(faaslet_meaning::specs::Reading::val_type_at, faaslet_meaning::specs::Reading::byte_at))]
pub fn val_type_at(bytes: &[u8]) -> Result<(ValType, &[u8]), Malformed>
    ensures { Gives (λ x. (x.0, x.1.now)) result (reading.val_type_at bytes.now) }
{
    let (b, rest) = byte_at(bytes)?;
    match b {
        0x7F => Ok((ValType::I32, rest)),
        0x7E => Ok((ValType::I64, rest)),
        0x7D => Ok((ValType::F32, rest)),
        0x7C => Ok((ValType::F64, rest)),
        _ => Err(Malformed),
    }
}

/// The type of a block's result, where it has one.
#[tactic(auto, unfolding(faaslet_meaning::specs::Reading::block_type_at, faaslet_meaning::specs::Reading::byte_at))]
fn block_type_at(bytes: &[u8]) -> Result<(Option<ValType>, &[u8]), Malformed>
    ensures { Gives (λ x. (x.0, x.1.now)) result (reading.block_type_at bytes.now) }
{
    let (b, rest) = byte_at(bytes)?;
    if b == 0x40 {
        return Ok((None, rest));
    }
    let (kind, rest) = val_type_at(bytes)?;
    Ok((Some(kind), rest))
}

/// Just the byte k.
#[tactic(auto, unfolding(faaslet_meaning::specs::Reading::tag_at, faaslet_meaning::specs::Reading::byte_at))]
fn tag_at(k: u8, bytes: &[u8]) -> Result<(u8, &[u8]), Malformed>
    ensures { Gives (λ x. (x.0, x.1.now)) result (reading.tag_at k bytes.now) }
{
    let (b, rest) = byte_at(bytes)?;
    if b != k {
        return Err(Malformed);
    }
    Ok((b, rest))
}

/// Four bytes, the lowest first.
#[tactic(auto, unfolding(faaslet_meaning::specs::Reading::le_bytes_at))]
fn four_at(bytes: &[u8]) -> Result<(u32, &[u8]), Malformed>
    ensures { Gives (λ x. (x.0, x.1.now)) result (reading.le_bytes_at w32 bytes.now) }
{
    if bytes.len() < 4 {
        return Err(Malformed);
    }
    let (front, rest) = bytes.split_at(4);
    let number = u32::from_le_bytes([front[0], front[1], front[2], front[3]]);
    Ok((number, rest))
}

/// Eight bytes, the lowest first.
#[tactic(auto, unfolding(faaslet_meaning::specs::Reading::le_bytes_at))]
fn eight_at(bytes: &[u8]) -> Result<(u64, &[u8]), Malformed>
    ensures { Gives (λ x. (x.0, x.1.now)) result (reading.le_bytes_at w64 bytes.now) }
{
    if bytes.len() < 8 {
        return Err(Malformed);
    }
    let (front, rest) = bytes.split_at(8);
    let number = u64::from_le_bytes([
        front[0], front[1], front[2], front[3], front[4], front[5], front[6], front[7],
    ]);
    Ok((number, rest))
}

/// Two numbers.
#[tactic(auto, unfolding(faaslet_meaning::specs::Reading::pair_at))]
fn pair_at(bytes: &[u8]) -> Result<((u32, u32), &[u8]), Malformed>
    ensures { Gives (λ x. (x.0, x.1.now)) result (reading.pair_at bytes.now) }
{
    let (align, rest) = u32_at(bytes)?;
    let (offset, rest) = u32_at(rest)?;
    Ok(((align, offset), rest))
}

/// So many labels.
#[tactic(auto, using(crate::proofs::Loop::going))]
fn labels(alloc: Global, count: u32, bytes: &[u8]) -> Result<(Labels, &[u8]), BodyFault>
    ensures { GivesOrWants (λ x. (x.0, x.1.now)) result (reading.many_at (reading.unsigned_at 32) count bytes.now) }
{
    let mut items = Vec::new(alloc);
    let mut rest = bytes;
    for _ in 0..count {
        let (item, after) = u32_at(rest)?;
        items.push(item)?;
        rest = after;
    }
    Ok((Items::of(items), rest))
}

/// A count, and that many labels.
#[tactic(auto, unfolding(faaslet_meaning::specs::Reading::vec_at))]
fn labels_at(alloc: Global, bytes: &[u8]) -> Result<(Labels, &[u8]), BodyFault>
    ensures { GivesOrWants (λ x. (x.0, x.1.now)) result (reading.vec_at (reading.unsigned_at 32) bytes.now) }
{
    let (count, rest) = u32_at(bytes)?;
    labels(alloc, count, rest)
}

/// An instruction of one byte.
#[tactic(auto, unfolding(faaslet_meaning::specs::Reading::bare_at))]
fn bare_at(b: u8, rest: &[u8]) -> Result<(Instr, &[u8]), Malformed>
    ensures { Gives (λ x. (x.0, x.1.now)) result (reading.bare_at b rest.now) }
{
    match b {
        0x00 => Ok((Instr::Unreachable, rest)),
        0x01 => Ok((Instr::Nop, rest)),
        0x05 => Ok((Instr::Else, rest)),
        0x0B => Ok((Instr::End, rest)),
        0x0F => Ok((Instr::Return, rest)),
        0x1A => Ok((Instr::Drop, rest)),
        0x1B => Ok((Instr::Select, rest)),
        _ => Err(Malformed),
    }
}

/// What begins a block.
#[tactic(auto, unfolding(faaslet_meaning::specs::Reading::block_at))]
fn block_at(b: u8, rest: &[u8]) -> Result<(Instr, &[u8]), Malformed>
    ensures { Gives (λ x. (x.0, x.1.now)) result (reading.block_at b rest.now) }
{
    match b {
        0x02 => {
            let (kind, rest) = block_type_at(rest)?;
            Ok((Instr::Block(kind), rest))
        }
        0x03 => {
            let (kind, rest) = block_type_at(rest)?;
            Ok((Instr::Loop(kind), rest))
        }
        0x04 => {
            let (kind, rest) = block_type_at(rest)?;
            Ok((Instr::If(kind), rest))
        }
        _ => Err(Malformed),
    }
}

/// An instruction with one index.
#[tactic(auto, unfolding(faaslet_meaning::specs::Reading::index_at))]
fn index_at(b: u8, rest: &[u8]) -> Result<(Instr, &[u8]), Malformed>
    ensures { Gives (λ x. (x.0, x.1.now)) result (reading.index_at b rest.now) }
{
    match b {
        0x0C => {
            let (index, rest) = u32_at(rest)?;
            Ok((Instr::Br(index), rest))
        }
        0x0D => {
            let (index, rest) = u32_at(rest)?;
            Ok((Instr::BrIf(index), rest))
        }
        0x10 => {
            let (index, rest) = u32_at(rest)?;
            Ok((Instr::Call(index), rest))
        }
        0x20 => {
            let (index, rest) = u32_at(rest)?;
            Ok((Instr::LocalGet(index), rest))
        }
        0x21 => {
            let (index, rest) = u32_at(rest)?;
            Ok((Instr::LocalSet(index), rest))
        }
        0x22 => {
            let (index, rest) = u32_at(rest)?;
            Ok((Instr::LocalTee(index), rest))
        }
        0x23 => {
            let (index, rest) = u32_at(rest)?;
            Ok((Instr::GlobalGet(index), rest))
        }
        0x24 => {
            let (index, rest) = u32_at(rest)?;
            Ok((Instr::GlobalSet(index), rest))
        }
        _ => Err(Malformed),
    }
}

/// A load or a store.
#[tactic(auto, unfolding(faaslet_meaning::specs::Reading::access_at))]
fn access_at(b: u8, rest: &[u8]) -> Result<(Instr, &[u8]), Malformed>
    ensures { Gives (λ x. (x.0, x.1.now)) result (reading.access_at b rest.now) }
{
    let ((align, offset), rest) = pair_at(rest)?;
    if b <= 0x35 {
        Ok((Instr::Load(b, align, offset), rest))
    } else {
        Ok((Instr::Store(b, align, offset), rest))
    }
}

/// A constant.
#[tactic(auto, unfolding(faaslet_meaning::specs::Reading::const_at))]
fn const_at(b: u8, rest: &[u8]) -> Result<(Instr, &[u8]), Malformed>
    ensures { Gives (λ x. (x.0, x.1.now)) result (reading.const_at b rest.now) }
{
    match b {
        0x41 => {
            let (n, rest) = s32_at(rest)?;
            Ok((Instr::I32Const(n), rest))
        }
        0x42 => {
            let (n, rest) = s64_at(rest)?;
            Ok((Instr::I64Const(n), rest))
        }
        0x43 => {
            let (n, rest) = four_at(rest)?;
            Ok((Instr::F32Const(n), rest))
        }
        0x44 => {
            let (n, rest) = eight_at(rest)?;
            Ok((Instr::F64Const(n), rest))
        }
        _ => Err(Malformed),
    }
}

/// The other instructions.
#[tactic(auto, unfolding(faaslet_meaning::specs::Reading::other_at))]
fn other_at(alloc: Global, b: u8, rest: &[u8]) -> Result<(Instr, &[u8]), BodyFault>
    ensures { GivesOrWants (λ x. (x.0, x.1.now)) result (reading.other_at b rest.now) }
{
    match b {
        0x0E => {
            let (labels, rest) = labels_at(alloc, rest)?;
            let (last, rest) = u32_at(rest)?;
            Ok((Instr::BrTable(labels, last), rest))
        }
        0x11 => {
            let (kind, rest) = u32_at(rest)?;
            let (_zero, rest) = tag_at(0x00, rest)?;
            Ok((Instr::CallIndirect(kind), rest))
        }
        0x3F => {
            let (_zero, rest) = tag_at(0x00, rest)?;
            Ok((Instr::MemorySize, rest))
        }
        0x40 => {
            let (_zero, rest) = tag_at(0x00, rest)?;
            Ok((Instr::MemoryGrow, rest))
        }
        _ => Err(BodyFault::Malformed),
    }
}

/// One flat instruction at the front, and the bytes behind it.
#[tactic(auto, unfolding(faaslet_meaning::specs::Reading::instr_at, faaslet_meaning::specs::Reading::byte_at))]
pub fn instr_at(alloc: Global, bytes: &[u8]) -> Result<(Instr, &[u8]), BodyFault>
    ensures { GivesOrWants (λ x. (x.0, x.1.now)) result (reading.instr_at bytes.now) }
{
    let (b, rest) = byte_at(bytes)?;
    match b {
        0x45..=0xBF => Ok((Instr::Num(b), rest)),
        0x28..=0x3E => Ok(access_at(b, rest)?),
        0x41..=0x44 => Ok(const_at(b, rest)?),
        0x20..=0x24 | 0x0C | 0x0D | 0x10 => Ok(index_at(b, rest)?),
        0x02..=0x04 => Ok(block_at(b, rest)?),
        0x0E | 0x11 | 0x3F | 0x40 => other_at(alloc, b, rest),
        _ => Ok(bare_at(b, rest)?),
    }
}
