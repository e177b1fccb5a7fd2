//! A disk in memory of which one call fails, to try what stands on a disk.
ghost use Rattle.std.specs.Prelude.{◌≡◌, ◌≢◌, ◌-◌, length, true, IsOk, IsErr, OnOk, OnErr};
ghost use Rattle.std.specs.Bool.{OnTrue, OnFalse};
ghost use Rattle.disk_face.specs.Disk.{IsInside, Holds, Torn, Written, WritesHalf, Tells};

use crate::{Disk, DiskFault, MemoryDisk};
use std::marker::Model;

/// A disk in memory and how many calls are left until one fails: reads, writes and syncs count, and 0 stands for
/// none. The call that fails is counted, and no other fails by itself. A write that fails writes the first half of
/// its bytes, and of one byte none.
#[derive(Drop)]
pub struct FailingDisk {
    disk: MemoryDisk,
    left: u64,
}

impl Model for FailingDisk {
    ghost use Rattle.disk_face.specs.Disk.{Failing};

    ghost Value = { Failing };

    ghost view = { λ d. record { content = d.disk.content; failures = d.disk.failures; left = d.left } };
}

impl FailingDisk {
    /// The disk whose call k from 1 on fails, or none for 0.
    pub fn new(disk: MemoryDisk, k: u64) -> FailingDisk
        ensures content { result.content ≡ disk.content }
        ensures failures { result.failures ≡ disk.failures }
        ensures left { result.left ≡ k }
    {
        FailingDisk { disk, left: k }
    }

    /// The disk in memory, with what was written.
    pub fn into_disk(self) -> MemoryDisk
        ensures content { result.content ≡ self.content }
        ensures failures { result.failures ≡ self.failures }
    {
        let FailingDisk { disk, left: _ } = self;
        disk
    }

    /// Counts a call, and says whether it is the one that fails.
    fn is_due(&mut self) -> bool
        ensures content { self.new.content ≡ self.old.content }
        ensures failures { self.new.failures ≡ self.old.failures }
        ensures left { self.new.left ≡ self.old.left - 1 }
        ensures due { OnTrue result (self.old.left ≡ 1) }
        ensures not_due { OnFalse result (self.old.left ≢ 1) }
    {
        let is_due = self.left == 1;
        self.left = self.left.saturating_sub(1);
        is_due
    }
}

impl Disk for FailingDisk {
    ghost content = { λ d. d.content };

    ghost synced = { λ d. d.content };

    ghost failures = { λ d. d.failures };

    ghost overreads = { λ _. 0 };

    ghost honest = { λ _. true };

    /// Fails where its turn has come, else only past the length.
    fn read_at(&mut self, at: u64, buf: &mut [u8]) -> Result<(), DiskFault>
        ensures read { OnOk result (Holds self.old.content at buf.new) }
        ensures due { self.old.left ≡ 1 → IsErr result }
        ensures inside { self.old.left ≢ 1 → IsInside at buf.old self.old.content → IsOk result }
        ensures same { self.new.content ≡ self.old.content }
        ensures left { self.new.left ≡ self.old.left - 1 }
        ensures told { Tells (IsErr result) self.old.failures self.new.failures }
    {
        if self.is_due() {
            return Err(self.disk.refuse());
        }
        self.disk.read_at(at, buf)
    }

    /// Fails where its turn has come, else only where no memory is found for a longer content.
    fn write_at(&mut self, at: u64, bytes: &[u8]) -> Result<(), DiskFault>
        ensures written { OnOk result (Written at bytes.now self.old.content self.new.content) }
        ensures due { self.old.left ≡ 1 → IsErr result }
        ensures inside { self.old.left ≢ 1 → IsInside at bytes.now self.old.content → IsOk result }
        ensures half { self.old.left ≡ 1 → WritesHalf at bytes.now self.old.content self.new.content }
        ensures refused { self.old.left ≢ 1 → OnErr result (self.new.content ≡ self.old.content) }
        ensures torn { Torn at (length bytes.now) self.old.content self.new.content }
        ensures left { self.new.left ≡ self.old.left - 1 }
        ensures told { Tells (IsErr result) self.old.failures self.new.failures }
    {
        if self.is_due() {
            if bytes.len() > 1 {
                let _half = self.disk.write_at(at, &bytes[..bytes.len() / 2]);
            }
            return Err(self.disk.refuse());
        }
        self.disk.write_at(at, bytes)
    }

    fn len(&self) -> u64
        ensures { result ≡ length self.now.content }
    {
        self.disk.len()
    }

    /// Fails where its turn has come.
    fn sync(&mut self) -> Result<(), DiskFault>
        ensures due { self.old.left ≡ 1 → IsErr result }
        ensures done { self.old.left ≢ 1 → IsOk result }
        ensures same { self.new.content ≡ self.old.content }
        ensures left { self.new.left ≡ self.old.left - 1 }
        ensures told { Tells (IsErr result) self.old.failures self.new.failures }
    {
        if self.is_due() {
            return Err(self.disk.refuse());
        }
        self.disk.sync()
    }
}
