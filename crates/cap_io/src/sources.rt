// Sources, and reading one to its end.
ghost use Rattle.std.specs.Prelude.{◌≡◌, ◌≢◌, ℕ, List, ◌≤◌, Option, Err, OnOk, OnErr};
ghost use Rattle.std.specs.Io.{ReadsAtMost};
ghost use Rattle.std.specs.Io.KnownBytes.{ReadConsumes};
ghost use Rattle.cap_io.specs.Faults.{HasRisen};
ghost use Rattle.cap_io.specs.Reading.{TellsAlike, IsReadAll};

use super::errors::{Failed, ReadEnd};
use std::alloc::Global;

/// Where bytes come from. It may tell the bytes that are left, and counts its faults: a count rises at each fault and
/// at nothing else, but stays at 2^64 - 1.
pub trait Source {
    // The bytes that are left, where the source tells them.
    ghost left: { Self → Option (List ℕ) };

    // How often the source has failed. It never falls.
    ghost faults: { Self → ℕ };

    /// Puts the next bytes at the front of the buffer and answers how many; 0 into a buffer that is
    /// not empty only at the end of input. After Failed it has taken nothing.
    fn take(&mut self, buf: &mut [u8]) -> Result<usize, Failed>
        ensures within { ReadsAtMost result buf.new }
        ensures taken { ReadConsumes (left self.old) (left self.new) result buf.new }
        ensures told { TellsAlike (left self.old) (left self.new) }
        ensures counted { faults self.old ≤ faults self.new }
        ensures stays { OnOk result (faults self.new ≡ faults self.old) }
        ensures fault { OnErr result (HasRisen (faults self.old) (faults self.new)) };
}

// How many bytes one call of a source is asked for.
const PIECE: usize = 4096;

/// All bytes up to the end of input. TooLong exactly where more than `limit` bytes were taken, and then at most 4,096 more;
/// Fault exactly where the source's count of faults rose.
pub fn read_all<S: Source>(alloc: Global, source: &mut S, limit: usize) -> Result<Vec<u8>, ReadEnd>
    ensures bytes { IsReadAll limit (S.left source.old) (S.left source.new) result }
    ensures told { TellsAlike (S.left source.old) (S.left source.new) }
    ensures counted { S.faults source.old ≤ S.faults source.new }
    ensures stays { result ≢ Err ReadEnd.Fault → S.faults source.new ≡ S.faults source.old }
    ensures fault { result ≡ Err ReadEnd.Fault → HasRisen (S.faults source.old) (S.faults source.new) }
{
    let mut bytes = Vec::new(alloc);
    let mut piece = [0u8; PIECE];
    'pieces: loop {
        let count = match source.take(&mut piece) {
            Ok(count) => count,
            Err(Failed) => return Err(ReadEnd::Fault),
        };
        if count == 0 {
            return Ok(bytes);
        }
        if limit - bytes.len() < count {
            return Err(ReadEnd::TooLong);
        }
        if bytes.extend_from_slice(&piece[..count]).is_err() {
            return Err(ReadEnd::NoMemory);
        }
    }
}
