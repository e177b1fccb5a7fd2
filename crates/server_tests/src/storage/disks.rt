//! Disks in memory, of which one call fails or one read lies, and disks over files.

use crate::storage::words::DISK_FAULT;
use anyhow::{Result, bail};
use disk_face::{Disk, DiskFault, FailingDisk, FileDisk, FullFile, MemoryDisk, StdFile};
use std::alloc::Global;
use std::fs;
use test_rows::{Answer, Files, cut, index, number};

/// A disk in memory of which one call fails, and one read gives each byte inverted, and that has no more than `room`
/// bytes. So of what it reads nothing is said.
#[derive(Drop)]
pub struct TestDisk {
    disk: FailingDisk,
    /// How many reads are left until one lies, or 0 for none.
    left: u64,
    room: u64,
}

impl TestDisk {
    /// The disk with these bytes whose call of a number fails, and whose read of a number lies, or none for 0, and that
    /// has room for so many bytes.
    pub fn new(bytes: Vec<u8>, fails: u64, lies: u64, room: u64) -> TestDisk {
        TestDisk {
            disk: FailingDisk::new(MemoryDisk::new(bytes), fails),
            left: lies,
            room,
        }
    }

    /// The bytes that it holds.
    pub fn into_bytes(self) -> Vec<u8> {
        let TestDisk {
            disk,
            left: _,
            room: _,
        } = self;
        disk.into_disk().into_bytes()
    }
}

impl Disk for TestDisk {
    ghost use Rattle.std.specs.Prelude.{false};

    ghost content = { λ d. d.disk.content };

    ghost synced = { λ d. d.disk.content };

    ghost failures = { λ d. d.disk.failures };

    ghost overreads = { λ _. 0 };

    ghost honest = { λ _. false };

    fn read_at(&mut self, at: u64, buf: &mut [u8]) -> Result<(), DiskFault> {
        let lies = self.left == 1;
        self.left = self.left.saturating_sub(1);
        self.disk.read_at(at, buf)?;
        if lies {
            for byte in buf.iter_mut() {
                *byte = 255 - *byte;
            }
        }
        Ok(())
    }

    /// A write across the last byte that there is room for takes what it can, and fails, as a read past the end does.
    fn write_at(&mut self, at: u64, bytes: &[u8]) -> Result<(), DiskFault> {
        let free = self.room.saturating_sub(at);
        if bytes.len() as u64 <= free {
            return self.disk.write_at(at, bytes);
        }
        if free > 0 {
            self.disk.write_at(at, &bytes[..free as usize])?;
        }
        self.disk.read_at(u64::MAX, &mut [0u8])
    }

    fn len(&self) -> u64 {
        self.disk.len()
    }

    fn sync(&mut self) -> Result<(), DiskFault> {
        self.disk.sync()
    }
}

/// The disk that rows speak to.
#[derive(Drop)]
pub enum AnyDisk {
    Memory(MemoryDisk),
    Test(TestDisk),
    Full(FileDisk<FullFile>),
    Real(FileDisk<StdFile>),
}

/// `ok`, or that the disk failed.
pub fn say_done(answer: &mut Answer, outcome: Result<(), DiskFault>) {
    match outcome {
        Ok(()) => answer.say("ok"),
        Err(DiskFault) => answer.refusal(DISK_FAULT),
    }
}

/// So many bytes from a place on, as `2 4`.
fn read<D: Disk>(alloc: Global, answer: &mut Answer, disk: &mut D, words: &str) -> Result<()> {
    let (at, count) = cut(words);
    let mut bytes = vec![in alloc; 0u8; index(count)?]?;
    match disk.read_at(number(at)?, &mut bytes) {
        Ok(()) => answer.hex(&bytes),
        Err(DiskFault) => answer.refusal(DISK_FAULT),
    }
    Ok(())
}

/// Writes bytes from a place on, as `5 0x0708`.
fn write<D: Disk>(
    alloc: Global,
    answer: &mut Answer,
    disk: &mut D,
    files: &Files,
    words: &str,
) -> Result<()> {
    let (at, words) = cut(words);
    let bytes = files.bytes(alloc, words)?;
    if bytes.is_empty() {
        bail!("no bytes");
    }
    say_done(answer, disk.write_at(number(at)?, &bytes));
    Ok(())
}

/// A call on a disk.
fn call<D: Disk>(
    alloc: Global,
    answer: &mut Answer,
    disk: &mut D,
    files: &Files,
    verb: &str,
    words: &str,
) -> Result<()> {
    match verb {
        "read" => read(alloc, answer, disk, words)?,
        "write" => write(alloc, answer, disk, files, words)?,
        "length" => answer.count(disk.len()),
        "sync" => say_done(answer, disk.sync()),
        _ => answer.wrong("no such call"),
    }
    Ok(())
}

impl AnyDisk {
    /// A disk in memory of which a call fails and a read lies, as `2 0 lai`.
    fn test(alloc: Global, files: &Files, words: &str) -> Result<AnyDisk> {
        let (fails, rest) = cut(words);
        let (lies, words) = cut(rest);
        let bytes = files.bytes(alloc, words)?;
        let disk = TestDisk::new(bytes, number(fails)?, number(lies)?, u64::MAX);
        Ok(AnyDisk::Test(disk))
    }

    /// A disk in memory that has room for so many bytes, as `8192 lai`.
    fn within(alloc: Global, files: &Files, words: &str) -> Result<AnyDisk> {
        let (room, words) = cut(words);
        let bytes = files.bytes(alloc, words)?;
        Ok(AnyDisk::Test(TestDisk::new(bytes, 0, 0, number(room)?)))
    }

    /// A disk over a file in memory on a device that has room for so many bytes, as `8 lai`.
    fn full(alloc: Global, files: &Files, words: &str) -> Result<AnyDisk> {
        let (room, words) = cut(words);
        let bytes = files.bytes(alloc, words)?;
        let room = index(room)?;
        Ok(AnyDisk::Full(FileDisk::new(FullFile { bytes, room })?))
    }

    /// A disk of a kind, as `memory lai`.
    pub fn new(alloc: Global, files: &Files, kind: &str, words: &str) -> Result<AnyDisk> {
        match kind {
            "memory" => Ok(AnyDisk::Memory(MemoryDisk::new(files.bytes(alloc, words)?))),
            "within" => AnyDisk::within(alloc, files, words),
            "full" => AnyDisk::full(alloc, files, words),
            "test" => AnyDisk::test(alloc, files, words),
            _ => bail!("no disk {kind}"),
        }
    }

    /// A call on the disk.
    pub fn call(
        &mut self,
        alloc: Global,
        answer: &mut Answer,
        files: &Files,
        verb: &str,
        words: &str,
    ) -> Result<()> {
        match self {
            AnyDisk::Memory(disk) => call(alloc, answer, disk, files, verb, words),
            AnyDisk::Test(disk) => call(alloc, answer, disk, files, verb, words),
            AnyDisk::Full(disk) => call(alloc, answer, disk, files, verb, words),
            AnyDisk::Real(disk) => call(alloc, answer, disk, files, verb, words),
        }
    }

    /// The bytes that it holds, but for a real file.
    pub fn into_bytes(self) -> Result<Vec<u8>> {
        match self {
            AnyDisk::Memory(disk) => Ok(disk.into_bytes()),
            AnyDisk::Test(disk) => Ok(disk.into_bytes()),
            AnyDisk::Full(disk) => Ok(disk.into_file()?.bytes),
            AnyDisk::Real(_) => bail!("a file of the system"),
        }
    }
}

/// Opens a disk over a file of the system into a place for a disk.
pub fn open_file(
    rt: &HostRuntime,
    answer: &mut Answer,
    disk: &mut Option<AnyDisk>,
    path: &str,
) -> Result<()> {
    match FileDisk::open(rt, path) {
        Ok(file) => {
            *disk = Some(AnyDisk::Real(file));
            answer.say("ok");
        }
        Err(DiskFault) => answer.refusal(DISK_FAULT),
    }
    Ok(())
}

/// Takes a file of the system away.
pub fn remove_file(rt: &HostRuntime, answer: &mut Answer, path: &str) -> Result<()> {
    fs::remove_file(rt, path)?;
    answer.say("ok");
    Ok(())
}
