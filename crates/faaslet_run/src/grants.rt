//! What is read of the grants of a call.

ghost use Rattle.std.specs.Prelude.{◌≡◌, ◌<◌, ◌+◌, ◌*◌, ◌≤◌, IfSome, length};
ghost use Rattle.faaslet_meaning.specs.Memory.{grant_limit};
ghost use Rattle.host_calls.specs.Reads.{key_of};
ghost use Rattle.faaslet_run.specs.Allowed.{write_bit, writable_of};
ghost use Rattle.faaslet_run.specs.Counted.{place_of, place_on};

use faaslet_meaning::{Channel, Grant, Mode};

fn write_bit(mode: Mode) -> u64
    ensures bit { result ≡ write_bit mode }
    ensures small { result ≤ 1 }
{
    match mode {
        Mode::Read => 0,
        Mode::Write => 1,
    }
}

/// Bit k is set where the grant at place k allows writing.
pub fn writable(grants: &[Grant]) -> u32
    requires { length grants.now ≤ grant_limit }
    ensures { result ≡ writable_of grants.now }
{
    let mut bits = 0u64;
    let mut left = grants.len();
    'grants: while left > 0 {
        left -= 1;
        bits = write_bit(grants[left].mode) + 2 * bits;
    }
    bits as u32
}

/// The key at a place, or 0 where there is none.
pub fn key_at(grants: &[Grant], place: u32) -> u32
    ensures { result ≡ key_of grants.now place }
{
    match grants.get(place as usize) {
        Some(grant) => grant.key,
        None => 0,
    }
}

// The place of a key.
fn place_of(grants: &[Grant], key: u32) -> Option<usize>
    ensures place { result ≡ place_of grants.now key }
    ensures below { IfSome result (λ i. i < length grants.now) }
{
    'grants: for place in 0..grants.len() {
        if grants[place].key == key {
            return Some(place);
        }
    }
    None
}

/// Which number is that of a channel, where each grant has two, and the table the last.
pub fn place_on(grants: &[Grant], channel: Channel) -> Option<usize>
    requires { length grants.now ≤ grant_limit }
    ensures place { result ≡ place_on grants.now channel }
    ensures below { IfSome result (λ i. i < 2 * length grants.now + 1) }
{
    match channel {
        Channel::Local(key) => match place_of(grants, key) {
            Some(place) => Some(2 * place),
            None => None,
        },
        Channel::Global(key) => match place_of(grants, key) {
            Some(place) => Some(2 * place + 1),
            None => None,
        },
        Channel::Table => Some(2 * grants.len()),
    }
}
