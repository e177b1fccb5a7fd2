//! A disk in memory. It is honest, and what it holds needs no sync.
ghost use Rattle.std.specs.Prelude.{◌≡◌, ◌≤◌, ◌+◌, ◌-◌, ◌^◌, length, min, true, IsOk, IsErr, OnOk, OnErr};
ghost use Rattle.disk_face.specs.Disk.{IsInside, Holds, Torn, Written, Tells};

use crate::{Disk, DiskFault};
use std::alloc::AllocError;
use std::marker::Model;

/// A disk whose bytes are a vector.
#[derive(Drop)]
pub struct MemoryDisk {
    bytes: Vec<u8>,
    failures: u64,
}

impl Model for MemoryDisk {
    ghost use Rattle.disk_face.specs.Disk.{Memory};

    ghost Value = { Memory };

    ghost view = { λ d. record { content = d.bytes.items; failures = d.failures } };
}

impl MemoryDisk {
    /// A disk that holds these bytes, of which no call has failed.
    pub fn new(bytes: Vec<u8>) -> MemoryDisk
        ensures content { result.content ≡ bytes.items }
        ensures failures { result.failures ≡ 0 }
    {
        MemoryDisk { bytes, failures: 0 }
    }

    /// The bytes that it holds.
    pub fn into_bytes(self) -> Vec<u8>
        ensures { result.items ≡ self.content }
    {
        let MemoryDisk { bytes, failures: _ } = self;
        bytes
    }

    /// Counts a failure, up to the last value of a `u64`.
    pub(crate) fn refuse(&mut self) -> DiskFault
        ensures same { self.new.content ≡ self.old.content }
        ensures counted { self.new.failures ≡ min (self.old.failures + 1) (2 ^ 64 - 1) }
        ensures no_fewer { self.old.failures ≤ self.new.failures }
    {
        self.failures = self.failures.saturating_add(1);
        DiskFault
    }
}

impl Disk for MemoryDisk {
    ghost content = { λ d. d.content };

    ghost synced = { λ d. d.content };

    ghost failures = { λ d. d.failures };

    ghost overreads = { λ _. 0 };

    ghost honest = { λ _. true };

    /// Fails only past the length.
    fn read_at(&mut self, at: u64, buf: &mut [u8]) -> Result<(), DiskFault>
        ensures read { OnOk result (Holds self.old.content at buf.new) }
        ensures inside { IsInside at buf.old self.old.content → IsOk result }
        ensures same { self.new.content ≡ self.old.content }
        ensures told { Tells (IsErr result) self.old.failures self.new.failures }
    {
        let at = at as usize;
        if at > self.bytes.len() || buf.len() > self.bytes.len() - at {
            return Err(self.refuse());
        }
        buf.copy_from_slice(&self.bytes[at..at + buf.len()]);
        Ok(())
    }

    /// Fails only where the bytes end past the length and no memory is found for them; the content is then as
    /// before.
    fn write_at(&mut self, at: u64, bytes: &[u8]) -> Result<(), DiskFault>
        ensures written { OnOk result (Written at bytes.now self.old.content self.new.content) }
        ensures inside { IsInside at bytes.now self.old.content → IsOk result }
        ensures refused { OnErr result (self.new.content ≡ self.old.content) }
        ensures torn { Torn at (length bytes.now) self.old.content self.new.content }
        ensures told { Tells (IsErr result) self.old.failures self.new.failures }
    {
        match overwrite(&mut self.bytes, at as usize, bytes) {
            Ok(()) => Ok(()),
            Err(_) => Err(self.refuse()),
        }
    }

    fn len(&self) -> u64
        ensures { result ≡ length self.now.content }
    {
        self.bytes.len() as u64
    }

    /// Never fails.
    fn sync(&mut self) -> Result<(), DiskFault>
        ensures done { IsOk result }
        ensures same { self.new ≡ self.old }
    {
        Ok(())
    }
}

/// Writes bytes over those from `at` on, after zeros in a gap. Refused only where memory for a longer content is
/// not found.
pub(crate) fn overwrite(content: &mut Vec<u8>, at: usize, bytes: &[u8]) -> Result<(), AllocError>
    ensures written { OnOk result (Written at bytes.now content.old.items content.new.items) }
    ensures inside { IsInside at bytes.now content.old.items → IsOk result }
    ensures refused { OnErr result (content.new.items ≡ content.old.items) }
{
    let end = at.checked_add(bytes.len()).ok_or(AllocError)?;
    if end > content.len() {
        content.resize(end, 0)?;
    }
    content[at..end].copy_from_slice(bytes);
    Ok(())
}
