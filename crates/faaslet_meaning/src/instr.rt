//! Value types and instructions.

use crate::items::Labels;

#[derive(Clone, Copy, Debug, PartialEq, Eq)]
pub enum ValType {
    I32,
    I64,
    F32,
    F64,
}

/// One instruction of a body that is written out flat: blocks, loops and ifs stand as their
/// beginning, their `Else` and their `End`. Loads and stores hold opcode, alignment and offset, and a
/// numeric instruction its opcode. Floats are held by their bits.
#[derive(Debug, Drop, PartialEq)]
pub enum Instr {
    Unreachable,
    Nop,
    Block(Option<ValType>),
    Loop(Option<ValType>),
    If(Option<ValType>),
    Else,
    End,
    Br(u32),
    BrIf(u32),
    BrTable(Labels, u32),
    Return,
    Call(u32),
    CallIndirect(u32),
    Drop,
    Select,
    LocalGet(u32),
    LocalSet(u32),
    LocalTee(u32),
    GlobalGet(u32),
    GlobalSet(u32),
    Load(u8, u32, u32),
    Store(u8, u32, u32),
    MemorySize,
    MemoryGrow,
    I32Const(i32),
    I64Const(i64),
    F32Const(u32),
    F64Const(u64),
    Num(u8),
}
