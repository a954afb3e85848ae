//! The forms of names and numbers, and which grants there are.

ghost use Rattle.std.specs.Prelude.{◌≡◌, ◌==◌, length, nat_le};
ghost use Rattle.std.specs.List.{list_all, list_any};
ghost use Rattle.session_meaning.specs.Names as names;

use faaslet_meaning::Grant;

pub(crate) fn is_within(low: u64, high: u64, n: u64) -> bool
    ensures { result ≡ names.is_within low high n }
{
    low <= n && n <= high
}

fn is_name_byte(byte: u8) -> bool
    ensures { result ≡ names.is_name_byte byte }
{
    matches!(byte, b'0'..=b'9' | b'A'..=b'Z' | b'a'..=b'z' | b'_' | b'-')
}

fn are_name_bytes(bytes: &[u8]) -> bool
    ensures { result ≡ list_all names.is_name_byte bytes.now }
{
    for byte in bytes {
        if !is_name_byte(*byte) {
            return false;
        }
    }
    true
}

/// Whether this is 1 to 64 letters, digits, `_` and `-` of ASCII.
pub(crate) fn is_name(name: &str) -> bool
    ensures { result ≡ names.is_name name.now }
{
    is_within(1, 64, name.len() as u64) && are_name_bytes(name.as_bytes())
}

pub(crate) fn is_granted(grants: &[Grant], key: u32) -> bool
    ensures { result ≡ list_any (λ g. g.key == key) grants.now }
{
    for grant in grants {
        if grant.key == key {
            return true;
        }
    }
    false
}

pub(crate) fn is_among(numbers: &[u32], n: u32) -> bool
    ensures { result ≡ list_any (λ g. g == n) numbers.now }
{
    for number in numbers {
        if *number == n {
            return true;
        }
    }
    false
}
