//! A file by the calls of the system: one call each, which may do less than it was asked.
ghost use Rattle.std.specs.Prelude.{◌≡◌, ◌<◌, ℕ, Bool, List, [], length, false, IsTrue, IsOk, IsOkAnd, IfOk, OnOk, OnErr};
ghost use Rattle.std.specs.Io.{ReadsAtMost, WritesAtMost};
ghost use Rattle.disk_face.specs.Disk.{HoldsPart, Torn, ReadsSome, WritesPart, Unwritten, StillWorks};

use std::fs::File;
use std::os::fd::AsRawFd;
use std::os::unix::fs::FileExt;

/// The greatest number of a standard stream.
const LAST_STREAM: i32 = 2;

/// The system refused a call.
#[derive(Clone, Copy, PartialEq, Eq)]
pub struct RawFault;

/// What the system offers on an open file. Of an honest one a read gives bytes that it has, what a write took stands
/// in it, and the length that is told is its length. Nothing here is counted or remembered.
pub trait RawFile {
    /// The bytes of the file.
    ghost content: { Self → List ℕ };

    /// The bytes that are there whatever comes: those of the last sync that succeeded, and what later writes have
    /// changed of them.
    ghost synced: { Self → List ℕ };

    /// The calls do what they tell.
    ghost honest: { Self → Bool };

    /// From now on the system refuses no call, and each write takes a byte at least.
    ghost works: { Self → Bool };

    /// From now on the system does not refuse to tell the length, whatever else it refuses.
    ghost tells_length: { Self → Bool };

    /// Reads once from a place on. Gives how many bytes came: none only at the end, and at times fewer than there is
    /// room for.
    fn read_some(&mut self, at: u64, buf: &mut [u8]) -> Result<usize, RawFault>
        ensures bound { ReadsAtMost result buf.new }
        ensures read { IsTrue (honest self.old) → IfOk result (λ n. HoldsPart (content self.old) at n buf.new) }
        ensures end { IsTrue (honest self.old) → IfOk result (λ n. ReadsSome (content self.old) at buf.old n) }
        ensures works { StillWorks (works self.old) (works self.new) (IsOk result) }
        ensures tells_length { IsTrue (tells_length self.old) → IsTrue (tells_length self.new) }
        ensures same { Unwritten content synced honest self.old self.new };

    /// Writes once from a place on. Gives how many of the bytes were taken; where it is refused, any bytes may stand
    /// in their range.
    fn write_some(&mut self, at: u64, bytes: &[u8]) -> Result<usize, RawFault>
        ensures bound { WritesAtMost result bytes.now }
        ensures written { IfOk result (λ n. WritesPart (honest self.old) at n bytes.now (content self.old) (content self.new)) }
        ensures torn { Torn at (length bytes.now) (content self.old) (content self.new) }
        ensures torn_synced { Torn at (length bytes.now) (synced self.old) (synced self.new) }
        ensures works { StillWorks (works self.old) (works self.new)
            (IsOkAnd result (λ n. 0 < length bytes.now → 0 < n)) }
        ensures tells_length { IsTrue (tells_length self.old) → IsTrue (tells_length self.new) }
        ensures honest { honest self.new ≡ honest self.old };

    /// How many bytes the file has.
    fn length(&mut self) -> Result<u64, RawFault>
        ensures told { IsTrue (honest self.old) → IfOk result (λ n. n ≡ length (content self.old)) }
        ensures works { StillWorks (works self.old) (works self.new) (IsOk result) }
        ensures tells_length { IsTrue (tells_length self.old) → IsTrue (tells_length self.new) × IsOk result }
        ensures same { Unwritten content synced honest self.old self.new };

    /// Makes all that was written last.
    fn sync(&mut self) -> Result<(), RawFault>
        ensures same { content self.new ≡ content self.old }
        ensures done { OnOk result (synced self.new ≡ content self.old) }
        ensures refused { OnErr result (synced self.new ≡ synced self.old) }
        ensures works { StillWorks (works self.old) (works self.new) (IsOk result) }
        ensures tells_length { IsTrue (tells_length self.old) → IsTrue (tells_length self.new) }
        ensures honest { honest self.new ≡ honest self.old };
}

/// A file of the system, under a lock as long as it is open. What it holds no clause can name, so it shows no bytes and
/// is not honest: that these four calls do what the trait says of an honest file is trusted. Nor is it one that works or
/// that always tells its length, since the system may refuse any call.
#[derive(Drop)]
pub struct StdFile {
    file: File,
}

impl StdFile {
    /// Locks the file. Refused where another opening of it holds the lock, in this process or another one; where the
    /// file system has no locks; and where the file has the number of a standard stream, which was closed: what is
    /// written to that stream would be written over the file.
    pub(crate) fn lock(file: File) -> Result<StdFile, RawFault> {
        if file.as_raw_fd() <= LAST_STREAM || file.try_lock().is_err() {
            return Err(RawFault);
        }
        Ok(StdFile { file })
    }
}

impl RawFile for StdFile {
    ghost content = { λ _. [] };

    ghost synced = { λ _. [] };

    ghost honest = { λ _. false };

    ghost works = { λ _. false };

    ghost tells_length = { λ _. false };

    fn read_some(&mut self, at: u64, buf: &mut [u8]) -> Result<usize, RawFault> {
        self.file.read_at(buf, at).map_err(|_| RawFault)
    }

    fn write_some(&mut self, at: u64, bytes: &[u8]) -> Result<usize, RawFault> {
        self.file.write_at(bytes, at).map_err(|_| RawFault)
    }

    fn length(&mut self) -> Result<u64, RawFault> {
        match self.file.metadata() {
            Ok(told) => Ok(told.len()),
            Err(_) => Err(RawFault),
        }
    }

    fn sync(&mut self) -> Result<(), RawFault> {
        self.file.sync_all().map_err(|_| RawFault)
    }
}
