//! A stream that bytes are written to.

ghost use Rattle.std.specs.Prelude.{◌≡◌, ℕ, ◌<◌, ◌≤◌, List, [], Option, Ok, take, length, IfOk, OnOk, OnErr};
ghost use Rattle.fa_outside.specs.Faults.{Rose};
ghost use Rattle.fa_outside.specs.Appended.{Appends, AppendsPart};

use crate::fault::Failed;

/// A stream that bytes are written to, a piece at a time.
pub trait Sink {
    /// What was written, where the sink tells it.
    ghost written: { Self → Option (List ℕ) };

    /// How often the sink has failed, a count that stays at the end of its type.
    ghost faults: { Self → ℕ };

    /// Writes a front of the bytes, and answers how many they are: at least one, where there is one.
    fn write(&mut self, bytes: &[u8]) -> Result<usize, Failed>
        ensures written { IfOk result (λ n.
            Appends (written self.old) (written self.new) (take n bytes.now)) }
        ensures within { IfOk result (λ n. n ≤ length bytes.now) }
        ensures some { IfOk result (λ n. 0 < length bytes.now → 0 < n) }
        ensures empty { bytes.now ≡ [] → result ≡ Ok 0 }
        ensures same { OnErr result (written self.new ≡ written self.old) }
        ensures counted { faults self.old ≤ faults self.new }
        ensures quiet { OnOk result (faults self.new ≡ faults self.old) }
        ensures cause { OnErr result (Rose (faults self.old) (faults self.new)) };
}

/// Writes all the bytes. Where the sink fails, a front of them was written, and not all.
pub fn write_whole<O: Sink>(sink: &mut O, bytes: &[u8]) -> Result<(), Failed>
    ensures whole { OnOk result (Appends (O.written sink.old) (O.written sink.new) bytes.now) }
    ensures part { OnErr result (AppendsPart (O.written sink.old) (O.written sink.new) bytes.now) }
    ensures counted { O.faults sink.old ≤ O.faults sink.new }
    ensures quiet { OnOk result (O.faults sink.new ≡ O.faults sink.old) }
    ensures cause { OnErr result (Rose (O.faults sink.old) (O.faults sink.new)) }
{
    let mut done = 0;
    'pieces: while done < bytes.len() {
        done += sink.write(&bytes[done..])?;
    }
    Ok(())
}
