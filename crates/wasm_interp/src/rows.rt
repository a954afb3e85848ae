//! What each load and store reads and writes. W3C WebAssembly Core Specification 1.0, section 5.4.4.

ghost use Rattle.std.specs.Prelude.{◌≡◌, ◌≤◌, ℕ, Some};
ghost use Rattle.std.specs.Int.{w8, w16, w32, w64};
ghost use Rattle.faaslet_meaning.specs.LoadStore.{Load, load_of, load_size, store_of};
ghost use Rattle.faaslet_meaning.specs.Integers.{signed, unsigned};
ghost use Rattle.wasm_interp.specs.Parts.{extended};

/// How many bytes a load reads.
#[inline(always)]
pub fn load_bytes(op: u8) -> u64
    requires { (l : Load) × (load_of op ≡ Some l) }
    ensures row { (l : Load) → load_of op ≡ Some l → result ≡ load_size l }
    ensures some { 1 ≤ result }
    ensures few { result ≤ 8 }
{
    match op {
        0x28 => 4,
        0x29 => 8,
        0x2C | 0x2D => 1,
        0x2E | 0x2F => 2,
        0x30 | 0x31 => 1,
        0x32 | 0x33 => 2,
        0x34 | 0x35 => 4,
        _ => unreachable!(),
    }
}

/// How many bytes a store writes.
#[inline(always)]
pub fn store_bytes(op: u8) -> u64
    requires { (n : ℕ) × (store_of op ≡ Some n) }
    ensures row { store_of op ≡ Some result }
    ensures some { 1 ≤ result }
    ensures few { result ≤ 8 }
{
    match op {
        0x36 => 4,
        0x37 => 8,
        0x3A => 1,
        0x3B => 2,
        0x3C => 1,
        0x3D => 2,
        0x3E => 4,
        _ => unreachable!(),
    }
}

// A number of 8, 16 or 32 bits with its sign copied up to 64.
#[inline(always)]
fn sign_8(x: u64) -> u64
    ensures { result ≡ unsigned w64 (signed w8 x) }
{
    if x < 0x80 { x } else { x.wrapping_sub(0x100) }
}

#[inline(always)]
fn sign_16(x: u64) -> u64
    ensures { result ≡ unsigned w64 (signed w16 x) }
{
    if x < 0x8000 {
        x
    } else {
        x.wrapping_sub(0x1_0000)
    }
}

#[inline(always)]
fn sign_32(x: u64) -> u64
    ensures { result ≡ unsigned w64 (signed w32 x) }
{
    if x < 0x8000_0000 {
        x
    } else {
        x.wrapping_sub(0x1_0000_0000)
    }
}

/// The value that a load gives from the number in its bytes.
#[inline(always)]
pub fn load_value(op: u8, number: u64) -> u64
    requires { (l : Load) × (load_of op ≡ Some l) }
    ensures { (l : Load) → load_of op ≡ Some l → result ≡ extended l number }
{
    match op {
        0x2C => sign_8(number) % 0x1_0000_0000,
        0x2E => sign_16(number) % 0x1_0000_0000,
        0x30 => sign_8(number),
        0x32 => sign_16(number),
        0x34 => sign_32(number),
        _ => number,
    }
}
