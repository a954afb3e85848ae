//! What the opcodes of numbers and of memory take and leave.

ghost use Rattle.std.specs.Prelude.{◌≡◌, Some};
ghost use Rattle.wasm_validate.specs.Opcodes.{signature_at, load_at, store_at};

use faaslet_meaning::ValType;

/// One operand or two of one type, and a result.
#[derive(Clone, Copy, Debug, PartialEq, Eq)]
pub struct Signature {
    pub operand: ValType,
    pub two: bool,
    pub leaves: ValType,
}

/// The type of the value that is moved, and the greatest exponent of its alignment.
#[derive(Clone, Copy, Debug, PartialEq, Eq)]
pub struct Access {
    pub value: ValType,
    pub align: u32,
}

fn some_signature(operand: ValType, two: bool, leaves: ValType) -> Option<Signature>
    ensures { result ≡ Some (record { operand = operand; two = two; leaves = leaves }) }
{
    Some(Signature {
        operand,
        two,
        leaves,
    })
}

/// What a numeric opcode takes and leaves.
pub fn numeric(op: u8) -> Option<Signature>
    ensures { result ≡ signature_at op }
{
    match op {
        0x45 => some_signature(ValType::I32, false, ValType::I32),
        0x46..=0x4F => some_signature(ValType::I32, true, ValType::I32),
        0x50 => some_signature(ValType::I64, false, ValType::I32),
        0x51..=0x5A => some_signature(ValType::I64, true, ValType::I32),
        0x67..=0x69 => some_signature(ValType::I32, false, ValType::I32),
        0x6A..=0x78 => some_signature(ValType::I32, true, ValType::I32),
        0x79..=0x7B => some_signature(ValType::I64, false, ValType::I64),
        0x7C..=0x8A => some_signature(ValType::I64, true, ValType::I64),
        0xA7 => some_signature(ValType::I64, false, ValType::I32),
        0xAC | 0xAD => some_signature(ValType::I32, false, ValType::I64),
        _ => None,
    }
}

fn some_access(value: ValType, align: u32) -> Option<Access>
    ensures { result ≡ Some (record { value = value; align = align }) }
{
    Some(Access { value, align })
}

pub fn load(op: u8) -> Option<Access>
    ensures { result ≡ load_at op }
{
    match op {
        0x28 => some_access(ValType::I32, 2),
        0x29 => some_access(ValType::I64, 3),
        0x2C | 0x2D => some_access(ValType::I32, 0),
        0x2E | 0x2F => some_access(ValType::I32, 1),
        0x30 | 0x31 => some_access(ValType::I64, 0),
        0x32 | 0x33 => some_access(ValType::I64, 1),
        0x34 | 0x35 => some_access(ValType::I64, 2),
        _ => None,
    }
}

pub fn store(op: u8) -> Option<Access>
    ensures { result ≡ store_at op }
{
    match op {
        0x36 => some_access(ValType::I32, 2),
        0x37 => some_access(ValType::I64, 3),
        0x3A => some_access(ValType::I32, 0),
        0x3B => some_access(ValType::I32, 1),
        0x3C => some_access(ValType::I64, 0),
        0x3D => some_access(ValType::I64, 1),
        0x3E => some_access(ValType::I64, 2),
        _ => None,
    }
}
