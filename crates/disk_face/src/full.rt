//! A file on a device that becomes full, to try what stands on a disk.
ghost use Rattle.std.specs.Prelude.{◌≡◌, ◌≤◌, ◌<◌, ◌-◌, min, max, length, true, false, IfOk, IsOk, IsErr, Ok};
ghost use Rattle.std.specs.Io.{ReadsAtMost, WritesAtMost};
ghost use Rattle.disk_face.specs.Disk.{IsInside, HoldsPart, Torn, WrittenPart};

use crate::memory::overwrite;
use crate::{RawFault, RawFile};

/// A file in memory that has no more than `room` bytes. A write across that bound takes what there is room for, and
/// one from it on is refused. It is honest, always tells its length, and what it holds needs no sync.
#[derive(Drop)]
pub struct FullFile {
    pub bytes: Vec<u8>,
    pub room: usize,
}

impl RawFile for FullFile {
    ghost content = { λ f. f.bytes.items };

    ghost synced = { λ f. f.bytes.items };

    ghost honest = { λ _. true };

    ghost works = { λ _. false };

    ghost tells_length = { λ _. true };

    /// Gives all bytes that there are and that there is room for.
    fn read_some(&mut self, at: u64, buf: &mut [u8]) -> Result<usize, RawFault>
        ensures bound { ReadsAtMost result buf.new }
        ensures read { IfOk result (λ n. HoldsPart self.old.bytes.items at n buf.new) }
        ensures count { result ≡ Ok (min (length buf.old) (length self.old.bytes.items - at)) }
        ensures same { self.new ≡ self.old }
    {
        let start = (at as usize).min(self.bytes.len());
        let count = buf.len().min(self.bytes.len() - start);
        buf[..count].copy_from_slice(&self.bytes[start..start + count]);
        Ok(count)
    }

    /// Refused from the bound on, and else only where no memory is found for a longer file.
    fn write_some(&mut self, at: u64, bytes: &[u8]) -> Result<usize, RawFault>
        ensures bound { WritesAtMost result bytes.now }
        ensures written { IfOk result (λ n. WrittenPart at n bytes.now self.old.bytes.items self.new.bytes.items) }
        ensures torn { Torn at (length bytes.now) self.old.bytes.items self.new.bytes.items }
        ensures count { IfOk result (λ n. n ≡ min (length bytes.now) (self.old.room - at)) }
        ensures beyond { self.old.room ≤ at → IsErr result }
        ensures inside { at < self.old.room → IsInside at bytes.now self.old.bytes.items → IsOk result }
        ensures full { length self.new.bytes.items ≤ max self.old.room (length self.old.bytes.items) }
        ensures room { self.new.room ≡ self.old.room }
    {
        let start = at as usize;
        if start >= self.room {
            return Err(RawFault);
        }
        let count = bytes.len().min(self.room - start);
        match overwrite(&mut self.bytes, start, &bytes[..count]) {
            Ok(()) => Ok(count),
            Err(_) => Err(RawFault),
        }
    }

    /// Never refused.
    fn length(&mut self) -> Result<u64, RawFault>
        ensures count { result ≡ Ok (length self.old.bytes.items) }
        ensures same { self.new ≡ self.old }
    {
        Ok(self.bytes.len() as u64)
    }

    /// Never refused.
    fn sync(&mut self) -> Result<(), RawFault>
        ensures done { IsOk result }
        ensures same { self.new ≡ self.old }
    {
        Ok(())
    }
}
