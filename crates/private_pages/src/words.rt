//! Numbers as bytes, the lowest first.

ghost use Rattle.std.specs.Prelude.{◌≡◌, ◌≤◌, length};
ghost use Rattle.faaslet_meaning.specs.LoadStore.{number};

/// The number that these bytes spell.
#[inline(always)]
pub(crate) fn number_of(bytes: &[u8]) -> u64
    requires { length bytes.now ≤ 8 }
    ensures { result ≡ number bytes.now }
{
    match bytes.len() {
        1 => u64::from(bytes[0]),
        2 => u64::from(u16::from_le_bytes([bytes[0], bytes[1]])),
        4 => u64::from(u32::from_le_bytes([bytes[0], bytes[1], bytes[2], bytes[3]])),
        8 => u64::from_le_bytes([
            bytes[0], bytes[1], bytes[2], bytes[3], bytes[4], bytes[5], bytes[6], bytes[7],
        ]),
        _ => padded(bytes),
    }
}

/// The same, of any size, over a copy with zeros behind.
fn padded(bytes: &[u8]) -> u64
    requires { length bytes.now ≤ 8 }
    ensures { result ≡ number bytes.now }
{
    let mut word = [0; 8];
    word[..bytes.len()].copy_from_slice(bytes);
    u64::from_le_bytes(word)
}
