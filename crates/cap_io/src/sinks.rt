// Sinks, and writing a whole text into one.
ghost use Rattle.std.specs.Prelude.{◌≡◌, ℕ, List, ◌<◌, ◌≤◌, length, Option, IfOk, OnOk, OnErr};
ghost use Rattle.std.specs.Io.{WritesAtMost};
ghost use Rattle.cap_io.specs.Faults.{HasRisen};
ghost use Rattle.cap_io.specs.Writing.{GiveAdds, WriteAdds};

use super::errors::Failed;

/// Where bytes go. It may tell the bytes written, and counts its faults: a count rises at each fault and at nothing else,
/// but stays at 2^64 - 1.
pub trait Sink {
    // The bytes written so far, where the sink tells them.
    ghost written: { Self → Option (List ℕ) };

    // How often the sink has failed. It never falls.
    ghost faults: { Self → ℕ };

    /// Takes bytes from the front of a piece and answers how many; at least 1 of a piece that is not empty.
    /// After Failed it has taken nothing.
    fn give(&mut self, bytes: &[u8]) -> Result<usize, Failed>
        ensures within { WritesAtMost result bytes.now }
        ensures progress { IfOk result (λ n. 0 < length bytes.now → 0 < n) }
        ensures added { GiveAdds (written self.old) (written self.new) result bytes.now }
        ensures counted { faults self.old ≤ faults self.new }
        ensures stays { OnOk result (faults self.new ≡ faults self.old) }
        ensures fault { OnErr result (HasRisen (faults self.old) (faults self.new)) };
}

/// Writes all the bytes. Failed exactly where the sink's count of faults rose, and then a front part of them was written.
pub fn write_all<K: Sink>(sink: &mut K, bytes: &[u8]) -> Result<(), Failed>
    ensures added { WriteAdds (K.written sink.old) (K.written sink.new) result bytes.now }
    ensures counted { K.faults sink.old ≤ K.faults sink.new }
    ensures stays { OnOk result (K.faults sink.new ≡ K.faults sink.old) }
    ensures fault { OnErr result (HasRisen (K.faults sink.old) (K.faults sink.new)) }
{
    let mut at = 0;
    while at < bytes.len() {
        at += sink.give(&bytes[at..])?;
    }
    Ok(())
}
