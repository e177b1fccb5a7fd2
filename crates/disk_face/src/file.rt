//! A disk over a file: each call reads or writes all of its bytes, and the length is right after each.
ghost use Rattle.std.specs.Prelude.{◌≡◌, ◌≤◌, ◌<◌, ◌+◌, ◌-◌, ◌^◌, min, length, true, false, IfOk, IsOk, IsOkAnd, IsErr, OnOk, OnErr, IsTrue};
ghost use Rattle.disk_face.specs.Disk.{IfInside, Holds, Torn, Reads, Writes, Unwritten, Tells, Works, StillWorks, StillTellsLength};

use crate::{Disk, DiskFault, RawFault, RawFile, StdFile};
use std::fs::{File, OpenOptions};
use std::marker::Model;
use std::rt::Files;

/// A file that is read and written by place. After a write that failed the file is asked for its length anew, since
/// some of the bytes may stand in it; where that is refused too, the disk is broken, and refuses every later call.
/// Nothing else breaks it.
#[derive(Drop)]
pub struct FileDisk<F: RawFile> {
    file: F,
    known: u64,
    failures: u64,
    is_broken: bool,
}

impl<F: RawFile> Model for FileDisk<F> {
    ghost use Rattle.std.specs.Prelude.{IsTrue};
    ghost use Rattle.disk_face.specs.Disk.{Filed, KnowsLength, known_bytes};

    ghost Value = { Filed };

    ghost view = { λ d. record {
      content = known_bytes (F.honest d.file) d.is_broken d.known (F.content d.file);
      synced = F.synced d.file;
      honest = F.honest d.file;
      failures = d.failures;
      works = F.works d.file;
      tells_length = F.tells_length d.file;
      is_broken = d.is_broken;
    } };

    ghost invariant = { λ d. IsTrue (F.honest d.file) → KnowsLength d.is_broken d.known (F.content d.file) };
}

impl FileDisk<StdFile> {
    /// The file at this path, which is made where there is none, locked before it is read and as long as it is open.
    /// Refused where the system will not open or make it, and where another server has it open; there is no count yet.
    pub fn open<R: Files<File = File>>(rt: &R, path: &str) -> Result<FileDisk<StdFile>, DiskFault>
        ensures failures { IfOk result (λ disk. disk.failures ≡ 0) }
        ensures known { IfOk result (λ disk. disk.is_broken ≡ false) }
    {
        let mut options = OpenOptions::new();
        options.read(true).write(true).create(true);
        let file = options.open(rt, path).map_err(|_| DiskFault)?;
        let file = StdFile::lock(file).map_err(|_| DiskFault)?;
        FileDisk::new(file)
    }
}

impl<F: RawFile> FileDisk<F> {
    /// The disk over a file. Refused only where the file does not tell its length; there is no count yet.
    pub fn new(file: F) -> Result<FileDisk<F>, DiskFault>
    where
        F: Drop,
        ensures content { IfOk result (λ disk. disk.content ≡ F.content file) }
        ensures synced { IfOk result (λ disk. disk.synced ≡ F.synced file) }
        ensures honest { IfOk result (λ disk. disk.honest ≡ F.honest file) }
        ensures failures { IfOk result (λ disk. disk.failures ≡ 0) }
        ensures known { IfOk result (λ disk. disk.is_broken ≡ false) }
        ensures works { IsTrue (F.works file) → IsOkAnd result (λ disk. Works disk) }
        ensures tells_length { IsTrue (F.tells_length file) → IsOkAnd result (λ disk. IsTrue disk.tells_length) }
    {
        let mut file = file;
        match file.length() {
            Ok(known) => Ok(FileDisk {
                file,
                known,
                failures: 0,
                is_broken: false,
            }),
            Err(_) => Err(DiskFault),
        }
    }

    /// The file, with what was written. Refused where the disk is broken.
    pub fn into_file(self) -> Result<F, DiskFault>
    where
        F: Drop,
        ensures content { IfOk result (λ file. F.content file ≡ self.content) }
        ensures synced { IfOk result (λ file. F.synced file ≡ self.synced) }
        ensures honest { IfOk result (λ file. F.honest file ≡ self.honest) }
        ensures works { IfOk result (λ file. F.works file ≡ self.works) }
        ensures tells_length { IfOk result (λ file. F.tells_length file ≡ self.tells_length) }
        ensures refused { OnErr result (self.is_broken ≡ true) }
    {
        let FileDisk {
            file,
            known: _,
            failures: _,
            is_broken,
        } = self;
        if is_broken {
            return Err(DiskFault);
        }
        Ok(file)
    }

    /// Counts a failure, up to the last value of a `u64`.
    fn refuse(&mut self) -> DiskFault
        ensures content { self.new.content ≡ self.old.content }
        ensures synced { self.new.synced ≡ self.old.synced }
        ensures honest { self.new.honest ≡ self.old.honest }
        ensures broken { self.new.is_broken ≡ self.old.is_broken }
        ensures works { self.new.works ≡ self.old.works }
        ensures tells_length { self.new.tells_length ≡ self.old.tells_length }
        ensures counted { self.new.failures ≡ min (self.old.failures + 1) (2 ^ 64 - 1) }
        ensures no_fewer { self.old.failures ≤ self.new.failures }
    {
        self.failures = self.failures.saturating_add(1);
        DiskFault
    }
}

/// Reads in as many calls as it takes until the buffer is full. Refused where the file refuses or ends before.
fn read_all<F: RawFile>(file: &mut F, at: u64, buf: &mut [u8]) -> Result<(), RawFault>
    requires { at + length buf.old < 2 ^ 64 }
    ensures read { OnOk result (Reads (F.honest file.old) at buf.new (F.content file.old)) }
    ensures works { IsTrue (F.works file.old) → IsTrue (F.works file.new) }
    ensures tells_length { IsTrue (F.tells_length file.old) → IsTrue (F.tells_length file.new) }
    ensures done { IsTrue (F.works file.old) → IfInside (F.honest file.old) at buf.old (F.content file.old) (IsOk result) }
    ensures same { Unwritten F.content F.synced F.honest file.old file.new }
{
    let mut filled = 0;
    'reading: while filled < buf.len() {
        match file.read_some(at + filled as u64, &mut buf[filled..]) {
            Ok(0) => return Err(RawFault),
            Ok(count) => filled += count,
            Err(fault) => return Err(fault),
        }
    }
    Ok(())
}

/// Writes in as many calls as it takes until all bytes are taken. Refused where the file refuses or takes none.
fn write_all<F: RawFile>(file: &mut F, at: u64, bytes: &[u8]) -> Result<(), RawFault>
    requires fits { at + length bytes.now < 2 ^ 64 }
    requires some { 0 < length bytes.now }
    ensures written { OnOk result (Writes (F.honest file.old) at bytes.now (F.content file.old) (F.content file.new)) }
    ensures torn { Torn at (length bytes.now) (F.content file.old) (F.content file.new) }
    ensures torn_synced { Torn at (length bytes.now) (F.synced file.old) (F.synced file.new) }
    ensures works { StillWorks (F.works file.old) (F.works file.new) (IsOk result) }
    ensures tells_length { IsTrue (F.tells_length file.old) → IsTrue (F.tells_length file.new) }
    ensures honest { F.honest file.new ≡ F.honest file.old }
{
    let mut taken = 0;
    'writing: while taken < bytes.len() {
        match file.write_some(at + taken as u64, &bytes[taken..]) {
            Ok(0) => return Err(RawFault),
            Ok(count) => taken += count,
            Err(fault) => return Err(fault),
        }
    }
    Ok(())
}

impl<F: RawFile> Disk for FileDisk<F> {
    ghost content = { λ d. d.content };

    ghost synced = { λ d. d.synced };

    ghost failures = { λ d. d.failures };

    ghost overreads = { λ _. 0 };

    ghost honest = { λ d. d.honest };

    /// Fails only past the length, or where the disk is broken or the system refused a call or gave nothing.
    fn read_at(&mut self, at: u64, buf: &mut [u8]) -> Result<(), DiskFault>
        ensures read { OnOk result (IsTrue self.old.honest → Holds self.old.content at buf.new) }
        ensures done { Works self.old → IfInside self.old.honest at buf.old self.old.content (IsOk result) }
        ensures works { Works self.old → Works self.new }
        ensures tells_length { IsTrue self.old.tells_length → IsTrue self.new.tells_length }
        ensures broken { self.new.is_broken ≡ self.old.is_broken }
        ensures content { self.new.content ≡ self.old.content }
        ensures synced { self.new.synced ≡ self.old.synced }
        ensures honest { self.new.honest ≡ self.old.honest }
        ensures told { Tells (IsErr result) self.old.failures self.new.failures }
    {
        let count = buf.len() as u64;
        if self.is_broken || at > self.known || count > self.known - at {
            return Err(self.refuse());
        }
        if read_all(&mut self.file, at, buf).is_err() {
            return Err(self.refuse());
        }
        Ok(())
    }

    /// Fails only past 64 bits, or where the disk is broken or the system refused a call or took nothing. It breaks the
    /// disk only where the system also refuses to tell the file's length.
    fn write_at(&mut self, at: u64, bytes: &[u8]) -> Result<(), DiskFault>
        requires { 0 < length bytes.now }
        ensures written { OnOk result (Writes self.old.honest at bytes.now self.old.content self.new.content) }
        ensures done { Works self.old → at + length bytes.now < 2 ^ 64 → IsOk result }
        ensures inside { Works self.old → IfInside self.old.honest at bytes.now self.old.content (IsOk result) }
        ensures works { Works self.old → Works self.new }
        ensures broken { StillTellsLength self.old self.new }
        ensures torn { Torn at (length bytes.now) self.old.content self.new.content }
        ensures torn_synced { Torn at (length bytes.now) self.old.synced self.new.synced }
        ensures honest { self.new.honest ≡ self.old.honest }
        ensures told { Tells (IsErr result) self.old.failures self.new.failures }
    {
        if self.is_broken {
            return Err(self.refuse());
        }
        let Some(end) = at.checked_add(bytes.len() as u64) else {
            return Err(self.refuse());
        };
        if write_all(&mut self.file, at, bytes).is_err() {
            match self.file.length() {
                Ok(known) => self.known = known,
                Err(_) => self.is_broken = true,
            }
            return Err(self.refuse());
        }
        self.known = self.known.max(end);
        Ok(())
    }

    fn len(&self) -> u64 {
        self.known
    }

    /// Fails only where the disk is broken or the system refused it.
    fn sync(&mut self) -> Result<(), DiskFault>
        ensures same { self.new.content ≡ self.old.content }
        ensures done { OnOk result (self.new.synced ≡ self.old.content) }
        ensures refused { OnErr result (self.new.synced ≡ self.old.synced) }
        ensures works { Works self.old → IsOk result × Works self.new }
        ensures tells_length { IsTrue self.old.tells_length → IsTrue self.new.tells_length }
        ensures broken { self.new.is_broken ≡ self.old.is_broken }
        ensures honest { self.new.honest ≡ self.old.honest }
        ensures told { Tells (IsErr result) self.old.failures self.new.failures }
    {
        if self.is_broken || self.file.sync().is_err() {
            return Err(self.refuse());
        }
        Ok(())
    }
}
