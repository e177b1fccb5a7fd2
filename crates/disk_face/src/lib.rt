//! A disk as the store sees it: bytes at places, read, written and synced. What a disk is shows in five ghost
//! members: the bytes that it holds, those that a sync has made lasting, a count of the calls that failed, one of
//! the reads past the end, and whether it gives back what was written.
#![tactic(auto)]

ghost use Rattle.std.specs.Prelude.{◌≡◌, ◌<◌, ℕ, Bool, List, length, IsTrue, IsErr, OnOk, OnErr};
ghost use Rattle.disk_face.specs.Disk.{IfInside, Holds, Torn, Writes, Tells, Unwritten};

mod fail;
mod file;
mod full;
mod lying;
mod memory;
mod raw;

pub use fail::FailingDisk;
pub use file::FileDisk;
pub use full::FullFile;
pub use lying::LyingDisk;
pub use memory::MemoryDisk;
pub use raw::{RawFault, RawFile, StdFile};
use thiserror::Error;

/// A call failed, and the disk has counted it.
#[derive(Clone, Copy, Debug, PartialEq, Eq, Error)]
#[error("disk fault")]
pub struct DiskFault;

/// Bytes that are read and written by place. A call may fail at any time, and is then counted. Of a disk that is
/// not honest nothing is said but that the calls return, that they count, and that each write keeps to its range.
pub trait Disk {
    /// The bytes that it holds.
    ghost content: { Self → List ℕ };

    /// The bytes that are there whatever comes: the content at the last sync that succeeded, and what
    /// later writes have changed of it.
    ghost synced: { Self → List ℕ };

    /// How many calls have failed, in a `u64`.
    ghost failures: { Self → ℕ };

    /// A count that nothing but a read past the end may change. So code for any disk that leaves it as it was has
    /// provoked no failure by such a read. A disk need not count.
    ghost overreads: { Self → ℕ };

    /// A read gives what the disk holds, and a write that succeeds is held.
    ghost honest: { Self → Bool };

    /// Fills the buffer with the bytes from `at` on. A read past the length fails; the buffer then holds any bytes.
    fn read_at(&mut self, at: u64, buf: &mut [u8]) -> Result<(), DiskFault>
        ensures read { OnOk result (IsTrue (honest self.old) → Holds (content self.old) at buf.new) }
        ensures same { Unwritten content synced honest self.old self.new }
        ensures overreads { IfInside (honest self.old) at buf.old (content self.old) (overreads self.new ≡ overreads self.old) }
        ensures told { Tells (IsErr result) (failures self.old) (failures self.new) };

    /// Writes the bytes, of which there is one at least, from `at` on. A write past the end fills the gap with zeros.
    /// One that fails leaves any bytes in its range and the gap, and the others as they were.
    fn write_at(&mut self, at: u64, bytes: &[u8]) -> Result<(), DiskFault>
        requires { 0 < length bytes.now }
        ensures written { OnOk result (Writes (honest self.old) at bytes.now (content self.old) (content self.new)) }
        ensures torn { Torn at (length bytes.now) (content self.old) (content self.new) }
        ensures torn_synced { Torn at (length bytes.now) (synced self.old) (synced self.new) }
        ensures honest { honest self.new ≡ honest self.old }
        ensures overreads { overreads self.new ≡ overreads self.old }
        ensures told { Tells (IsErr result) (failures self.old) (failures self.new) };

    /// How many bytes it holds.
    fn len(&self) -> u64
        ensures { IsTrue (honest self.now) → result ≡ length (content self.now) };

    /// Makes all that was written last.
    fn sync(&mut self) -> Result<(), DiskFault>
        ensures same { content self.new ≡ content self.old }
        ensures done { OnOk result (synced self.new ≡ content self.old) }
        ensures refused { OnErr result (synced self.new ≡ synced self.old) }
        ensures honest { honest self.new ≡ honest self.old }
        ensures overreads { overreads self.new ≡ overreads self.old }
        ensures told { Tells (IsErr result) (failures self.old) (failures self.new) };
}
