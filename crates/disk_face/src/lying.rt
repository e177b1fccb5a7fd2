//! A disk in memory of which one read lies, to try what stands on a disk.
ghost use Rattle.std.specs.Prelude.{◌≡◌, ◌≢◌, ◌-◌, ◌<◌, ℕ, length, slice_index, false, IsOk, IsErr, OnOk, OnErr};
ghost use Rattle.std.specs.Bool.{OnTrue, OnFalse};
ghost use Rattle.disk_face.specs.Disk.{IsInside, Holds, HoldsInverted, Torn, Written, Tells};

use crate::{Disk, DiskFault, MemoryDisk};
use std::marker::Model;

/// A disk in memory and how many reads are left until one lies, where 0 stands for none. The read that lies gives each
/// byte inverted. So the disk is not honest.
#[derive(Drop)]
pub struct LyingDisk {
    disk: MemoryDisk,
    left: u64,
}

impl Model for LyingDisk {
    ghost use Rattle.disk_face.specs.Disk.{Lying};

    ghost Value = { Lying };

    ghost view = { λ d. record { content = d.disk.content; failures = d.disk.failures; left = d.left } };
}

impl LyingDisk {
    /// The disk whose read k from 1 on lies, or none for 0.
    pub fn new(disk: MemoryDisk, k: u64) -> LyingDisk
        ensures content { result.content ≡ disk.content }
        ensures failures { result.failures ≡ disk.failures }
        ensures left { result.left ≡ k }
    {
        LyingDisk { disk, left: k }
    }

    /// The disk in memory, with what was written.
    pub fn into_disk(self) -> MemoryDisk
        ensures content { result.content ≡ self.content }
        ensures failures { result.failures ≡ self.failures }
    {
        let LyingDisk { disk, left: _ } = self;
        disk
    }

    /// Counts a read, and says whether it is the one that lies.
    fn lies(&mut self) -> bool
        ensures content { self.new.content ≡ self.old.content }
        ensures failures { self.new.failures ≡ self.old.failures }
        ensures left { self.new.left ≡ self.old.left - 1 }
        ensures due { OnTrue result (self.old.left ≡ 1) }
        ensures not_due { OnFalse result (self.old.left ≢ 1) }
    {
        let lies = self.left == 1;
        self.left = self.left.saturating_sub(1);
        lies
    }
}

/// Inverts each byte.
fn invert(bytes: &mut [u8])
    ensures count { length bytes.new ≡ length bytes.old }
    ensures each { (i : ℕ) → i < length bytes.old → slice_index bytes.new i ≡ 255 - slice_index bytes.old i }
{
    let mut done = 0;
    'inverting: while done < bytes.len() {
        bytes[done] = 255 - bytes[done];
        done += 1;
    }
}

impl Disk for LyingDisk {
    ghost content = { λ d. d.content };

    ghost synced = { λ d. d.content };

    ghost failures = { λ d. d.failures };

    ghost overreads = { λ _. 0 };

    ghost honest = { λ _. false };

    /// Fails only past the length. Gives each byte inverted where its turn has come.
    fn read_at(&mut self, at: u64, buf: &mut [u8]) -> Result<(), DiskFault>
        ensures lie { OnOk result (self.old.left ≡ 1 → HoldsInverted self.old.content at buf.new) }
        ensures read { OnOk result (self.old.left ≢ 1 → Holds self.old.content at buf.new) }
        ensures inside { IsInside at buf.old self.old.content → IsOk result }
        ensures same { self.new.content ≡ self.old.content }
        ensures left { self.new.left ≡ self.old.left - 1 }
        ensures told { Tells (IsErr result) self.old.failures self.new.failures }
    {
        let lies = self.lies();
        self.disk.read_at(at, buf)?;
        if lies {
            invert(buf);
        }
        Ok(())
    }

    /// Fails only where no memory is found for a longer content, which is then as before.
    fn write_at(&mut self, at: u64, bytes: &[u8]) -> Result<(), DiskFault>
        ensures written { OnOk result (Written at bytes.now self.old.content self.new.content) }
        ensures inside { IsInside at bytes.now self.old.content → IsOk result }
        ensures refused { OnErr result (self.new.content ≡ self.old.content) }
        ensures torn { Torn at (length bytes.now) self.old.content self.new.content }
        ensures left { self.new.left ≡ self.old.left }
        ensures told { Tells (IsErr result) self.old.failures self.new.failures }
    {
        self.disk.write_at(at, bytes)
    }

    fn len(&self) -> u64
        ensures { result ≡ length self.now.content }
    {
        self.disk.len()
    }

    /// Never fails.
    fn sync(&mut self) -> Result<(), DiskFault>
        ensures done { IsOk result }
        ensures same { self.new ≡ self.old }
    {
        self.disk.sync()
    }
}
