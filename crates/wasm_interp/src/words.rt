//! Numbers as bytes, the lowest first. W3C WebAssembly Core Specification 1.0, section 4.3.1, Storage.

ghost use Rattle.std.specs.Prelude.{◌≡◌, ◌+◌, ◌*◌, ◌^◌, ◌/◌, ◌<◌, ◌≤◌, length};
ghost use Rattle.faaslet_meaning.specs.LoadStore.{number, bytes_of};

/// The number that these bytes spell.
pub fn number_of(bytes: &[u8]) -> u64
    requires { length bytes.now ≤ 8 }
    ensures value { result ≡ number bytes.now }
    ensures small { result < 2 ^ (8 * length bytes.now) }
{
    let mut word = [0; 8];
    word[..bytes.len()].copy_from_slice(bytes);
    u64::from_le_bytes(word)
}

/// Writes the lowest bytes of a number, as many as there are places.
pub fn put_number(places: &mut [u8], value: u64)
    requires { length places.old ≤ 8 }
    ensures { places.new ≡ bytes_of (length places.old) value }
{
    let word = value.to_le_bytes();
    let size = places.len();
    places.copy_from_slice(&word[..size]);
}

/// A number of `done` bytes, and behind them `len` more.
pub fn joined(value: u64, done: u64, part: u64, len: u64) -> u64
    requires some { 1 ≤ len }
    requires few { done + len ≤ 8 }
    requires value { value < 2 ^ (8 * done) }
    requires part { part < 2 ^ (8 * len) }
    ensures value { result ≡ value + 2 ^ (8 * done) * part }
    ensures small { result < 2 ^ (8 * (done + len)) }
{
    value + (part << (8 * done))
}

/// A number without its lowest bytes.
pub fn behind(value: u64, done: u64) -> u64
    requires { done < 8 }
    ensures { result ≡ value / 2 ^ (8 * done) }
{
    value >> (8 * done)
}
