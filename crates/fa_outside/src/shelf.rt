//! Files that are opened by name and read to their end.

ghost use Rattle.std.specs.Prelude.{◌≡◌, ◌≢◌, ℕ, ◌+◌, ◌^◌, ◌<◌, ◌≤◌, ◌↔◌, ◌⊎◌, ◌++◌, List, [], Bool, false, Option, Err, take, length, vec_len, IsTrue, IsSome, IfOk, OnOk, OnErr, IsErrOf};
ghost use Rattle.fa_outside.specs.Faults.{Rose};
ghost use Rattle.fa_outside.specs.Files.{Files, IsFile, IsAbsent};

use crate::fault::{Failed, ReadFault};
use std::alloc::Global;

/// Files that are opened by name, one at a time.
pub trait Shelf {
    /// The files, where the shelf tells them.
    ghost told: { Self → Option Files };

    /// Whether a file is open.
    ghost is_open: { Self → Bool };

    /// The bytes of the open file that are not yet read, where the shelf tells its files.
    ghost rest: { Self → List ℕ };

    /// How often the shelf has failed, a count that stays at the end of its type.
    ghost faults: { Self → ℕ };

    /// Opens the file of this name at its start, in the place of the one that was open.
    fn open(&mut self, name: &str) -> Result<(), Failed>
        ensures opened { OnOk result (IsTrue (is_open self.new)) }
        ensures content { OnOk result (IsFile (told self.old) name.now (rest self.new)) }
        ensures closed { OnErr result (is_open self.new ≡ false) }
        ensures told { told self.new ≡ told self.old }
        ensures counted { faults self.old ≤ faults self.new }
        ensures quiet { OnOk result (faults self.new ≡ faults self.old) }
        ensures cause { OnErr result (Rose (faults self.old) (faults self.new)) };

    /// Reads the next bytes of the open file into the front of `buf`, and answers how many.
    fn read(&mut self, buf: &mut [u8]) -> Result<usize, Failed>
        ensures open { OnOk result (IsTrue (is_open self.old) × IsTrue (is_open self.new)) }
        ensures within { IfOk result (λ n. n ≤ length buf.old) }
        ensures content { IfOk result (λ n. IsSome (told self.old) →
            rest self.old ≡ take n buf.new ++ rest self.new) }
        ensures nothing { IfOk result (λ n. IsSome (told self.old) →
            (n ≡ 0) ↔ ((length buf.old ≡ 0) ⊎ (rest self.old ≡ []))) }
        ensures closed { OnErr result (is_open self.new ≡ false) }
        ensures kept { OnErr result (buf.new ≡ buf.old) }
        ensures told { told self.new ≡ told self.old }
        ensures counted { faults self.old ≤ faults self.new }
        ensures quiet { OnOk result (faults self.new ≡ faults self.old) }
        ensures cause { OnErr result (Rose (faults self.old) (faults self.new)) };
}

const PIECE: usize = 4096;

/// The whole file of this name, of at most `limit` bytes. After a refusal a part of it may have been
/// read.
pub fn read_file<F: Shelf>(
    alloc: Global,
    shelf: &mut F,
    name: &str,
    limit: usize,
) -> Result<Vec<u8>, ReadFault>
    requires { limit + 1 < 2 ^ 64 }

    ensures whole { IfOk result (λ bytes. IsFile (F.told shelf.old) name.now bytes.items) }
    ensures short { IfOk result (λ bytes. vec_len bytes ≤ limit) }
    ensures ended { OnOk result (IsSome (F.told shelf.old) → F.rest shelf.new ≡ []) }

    // It is given up once one byte more than the limit was read.
    ensures too_long { IsErrOf result ReadFault.TooLong →
        (read : List ℕ) × (length read ≡ limit + 1)
        × IsFile (F.told shelf.old) name.now (read ++ F.rest shelf.new) }
    ensures absent { IsAbsent (F.told shelf.old) name.now → IsErrOf result ReadFault.Failed }
    ensures failed { IsErrOf result ReadFault.Failed →
        Rose (F.faults shelf.old) (F.faults shelf.new) × (F.is_open shelf.new ≡ false) }
    ensures left_open { result ≢ Err ReadFault.Failed → IsTrue (F.is_open shelf.new) }
    ensures quiet { result ≢ Err ReadFault.Failed → F.faults shelf.new ≡ F.faults shelf.old }

    ensures told { F.told shelf.new ≡ F.told shelf.old }
    ensures counted { F.faults shelf.old ≤ F.faults shelf.new }
{
    shelf.open(name)?;
    let mut bytes = Vec::new(alloc);
    let mut buffer = [0; PIECE];
    'pieces: while bytes.len() <= limit {
        let room = PIECE.min(limit + 1 - bytes.len());
        let n = shelf.read(&mut buffer[..room])?;
        if n == 0 {
            return Ok(bytes);
        }
        bytes.extend_from_slice(&buffer[..n])?;
    }
    Err(ReadFault::TooLong)
}
