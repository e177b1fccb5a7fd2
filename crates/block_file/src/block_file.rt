//! A store file in a disk.
ghost use Rattle.std.specs.Prelude.{◌≡◌, ◌≤◌, ◌<◌, ◌*◌, length, IfOk, IfErr, IsErr, OnOk, OnErr, IsErrOf, IsTrue};
ghost use Rattle.disk_face.specs.Disk.{Tells, OnlyRead};
ghost use Rattle.file_bytes.specs.Limits.{block_bytes};
ghost use Rattle.block_file.specs.Limits.{max_blocks, max_metadata};
ghost use Rattle.block_file.specs.State.{times, none, overreads_of};
ghost use Rattle.block_file.specs.Words.{Recounts};
ghost use Rattle.block_file.specs.Format.{Filled, Extends};
ghost use Rattle.block_file.specs.View.{state_of, Shows, Opens, IsOfVersion, IsRefused};
ghost use Rattle.block_file.specs.Uses.{IsFresh, CanClaim, Claims};
ghost use Rattle.block_file.specs.Links.{IsClosedHeader};

use crate::chain::{Layout, read_chain};
use crate::header::{Header, header_bytes, parse_header};
use crate::marks::Marks;
use crate::{Blocks, Damaged, MAX_BLOCKS, MAX_METADATA, OpenFault, State, TakeFault};
use disk_face::{Disk, DiskFault};
use file_bytes::{BLOCK_BYTES, Version};
use std::alloc::{AllocError, Global};
use std::marker::Model;

/// The blocks of a disk.
#[derive(Drop)]
pub struct BlockFile<D: Disk> {
    disk: D,
    marks: Marks,
    alloc: Global,
}

impl<D: Disk> Model for BlockFile<D> {
    ghost use Rattle.block_file.specs.State.{overreads_of};
    ghost use Rattle.block_file.specs.View.{BlockFileView, IsWithin};

    ghost Value = { BlockFileView };

    ghost view = { λ s. record {
      content = D.content s.disk;
      synced = D.synced s.disk;
      marks = s.marks;
      failures = D.failures s.disk;
      overreads = overreads_of (D.honest s.disk) (D.overreads s.disk);
      honest = D.honest s.disk;
    } };

    ghost invariant = { λ s. IsWithin (D.content s.disk) (D.honest s.disk) s.marks };
}

/// A file that was opened, its version, and its metadata: empty for a disk without a byte, else what the chain holds,
/// which is never empty.
#[derive(Drop)]
pub struct Opened<D: Disk> {
    pub file: BlockFile<D>,
    pub version: Version,
    pub metadata: Vec<u8>,
}

/// A disk that was not opened, and why.
#[derive(Drop)]
pub struct NotOpened<D: Disk> {
    pub disk: D,
    pub fault: OpenFault,
}

impl<D: Disk> BlockFile<D> {
    /// Opens the store file of a disk, of either version. A disk without a byte is a new file, of version 2. It writes
    /// nothing. The blocks of the metadata are free, and may not be claimed: a chain of as many bytes has room in them.
    ///
    /// The refusals, with the disk, in this order: not a store for fewer bytes than a header, another magic or
    /// another version; not closed for the state of an open file; damaged for any other departure from the format.
    /// Want of memory and a fault of the disk may come at any time.
    pub fn open(alloc: Global, mut disk: D) -> Result<Opened<D>, NotOpened<D>>
        ensures opened { IfOk result (λ it. Opens (D.honest disk) (D.content disk) it.metadata.items it.file.marks) }
        ensures version { IfOk result (λ it. IsTrue (D.honest disk) → IsOfVersion it.version (D.content disk)) }
        ensures fresh { IfOk result (λ it. IsFresh it.file.marks) }
        ensures shows { IfOk result (λ it. Shows D.content D.synced D.honest D.overreads disk it.file) }
        ensures failures { IfOk result (λ it. it.file.failures ≡ D.failures disk) }
        ensures refused { IfErr result (λ it. IsTrue (D.honest disk) → IsRefused it.fault (D.content disk)) }
        ensures same { IfErr result (λ it. OnlyRead D.content D.synced D.honest D.overreads disk it.disk) }
        ensures told { IfErr result (λ r. Tells (r.fault ≡ OpenFault.DiskFault) (D.failures disk) (D.failures r.disk)) }
    {
        match read_layout(alloc, &mut disk) {
            Err(fault) => Err(NotOpened { disk, fault }),
            Ok(
                Layout {
                    version,
                    marks,
                    metadata,
                },
            ) => Ok(Opened {
                file: BlockFile { disk, marks, alloc },
                version,
                metadata,
            }),
        }
    }

    /// Puts blocks in use that hold tiles, or none: damaged where one of them is the header, was claimed before, is
    /// one of the metadata's or is past the end of the file. The metadata's blocks stay free. To be called before any
    /// `take`. Takes no memory.
    pub fn claim(&mut self, ks: &[u32]) -> Result<(), Damaged>
        ensures claims { OnOk result (Claims ks.now self.old.marks self.new.marks) }
        ensures counts { OnOk result (Recounts none (times ks.now) (state_of self.old) (state_of self.new)) }
        ensures refused { OnErr result (CanClaim ks.now self.old.marks → ⊥) }
        ensures same { OnErr result (self.new ≡ self.old) }
    {
        if !self.marks.claim(ks) {
            return Err(Damaged);
        }
        Ok(())
    }

    /// The disk that the file lies in.
    pub fn into_disk(self) -> D
        ensures content { D.content result ≡ self.content }
        ensures synced { D.synced result ≡ self.synced }
        ensures failures { D.failures result ≡ self.failures }
        ensures overreads { overreads_of (D.honest result) (D.overreads result) ≡ self.overreads }
        ensures honest { D.honest result ≡ self.honest }
    {
        let BlockFile {
            disk,
            marks: _,
            alloc: _,
        } = self;
        disk
    }
}

impl<D: Disk> Blocks for BlockFile<D> {
    ghost use Rattle.block_file.specs.View.{state_of};

    ghost state = { λ s. state_of s };

    fn read(&mut self, k: u32, bytes: &mut [u8; BLOCK_BYTES]) -> Result<(), DiskFault> {
        self.disk.read_at(BLOCK_BYTES as u64 * k as u64, bytes)?;
        Ok(())
    }

    fn read_run(&mut self, k: u32, bytes: &mut [u8]) -> Result<(), DiskFault> {
        if bytes.len() == 0 {
            return Ok(());
        }
        let from = BLOCK_BYTES as u64 * k as u64;
        self.disk.read_at(from, bytes)?;
        Ok(())
    }

    fn write(&mut self, k: u32, bytes: &[u8; BLOCK_BYTES]) -> Result<(), DiskFault> {
        self.disk.write_at(BLOCK_BYTES as u64 * k as u64, bytes)?;
        Ok(())
    }

    fn take(&mut self, n: usize) -> Result<Vec<u32>, TakeFault> {
        if n > self.marks.free() {
            return Err(TakeFault::NoRoom);
        }
        let mut taken = Vec::with_capacity(self.alloc, n)?;
        self.marks.reserve(n)?;
        self.marks.take(&mut taken, n);
        Ok(taken)
    }

    fn give_back(&mut self, ks: &[u32]) {
        self.marks.give_back(ks);
    }

    fn hold(&mut self, ks: &[u32]) -> Result<(), AllocError> {
        if !self.marks.hold(ks) {
            return Err(AllocError);
        }
        Ok(())
    }

    /// Nothing is kept here.
    fn let_go(&mut self) {}

    fn free(&self) -> u32 {
        self.marks.free() as u32
    }

    fn uses(&self, k: u32) -> u32 {
        self.marks.uses(k)
    }

    fn write_header(&mut self, session: State, first: u32, length: u64) -> Result<(), DiskFault> {
        let blocks = fill_last_block(&mut self.disk)?;
        self.disk.sync()?;
        let header = header_bytes(session, blocks, first, length);
        self.disk.write_at(0, &header)?;
        self.disk.sync()?;
        Ok(())
    }
}

/// Fills a last block that is cut short with zeros. Gives the number of blocks, the header counted.
fn fill_last_block<D: Disk>(disk: &mut D) -> Result<u32, DiskFault>
    requires { IsTrue (D.honest disk.old) → length (D.content disk.old) ≤ block_bytes * max_blocks }
    ensures filled { IfOk result (λ n.
        IsTrue (D.honest disk.old) → Filled (D.content disk.old) (D.content disk.new) n) }
    ensures extends { IsTrue (D.honest disk.old) → Extends (D.content disk.old) (D.content disk.new) }
    ensures honest { D.honest disk.new ≡ D.honest disk.old }
    ensures overreads { D.overreads disk.new ≡ D.overreads disk.old }
    ensures told { Tells (IsErr result) (D.failures disk.old) (D.failures disk.new) }
{
    let length = disk.len();
    let blocks = length
        .div_ceil(BLOCK_BYTES as u64)
        .clamp(1, MAX_BLOCKS as u64) as u32;
    let over = (length % BLOCK_BYTES as u64) as usize;
    if over == 0 {
        return Ok(blocks);
    }
    disk.write_at(length, &[0u8; BLOCK_BYTES][over..])?;
    Ok(blocks)
}

/// The layout of the file in a disk.
fn read_layout<D: Disk>(alloc: Global, disk: &mut D) -> Result<Layout, OpenFault>
    ensures opened { IfOk result (λ it. Opens (D.honest disk.old) (D.content disk.old) it.metadata.items it.marks) }
    ensures version { IfOk result (λ it. IsTrue (D.honest disk.old) → IsOfVersion it.version (D.content disk.old)) }
    ensures fresh { IfOk result (λ it. IsFresh it.marks) }
    ensures some { IfOk result (λ it. 0 < length it.marks) }
    ensures few { IfOk result (λ it. length it.marks ≤ max_blocks) }
    ensures refused { IfErr result (λ fault. IsTrue (D.honest disk.old) → IsRefused fault (D.content disk.old)) }
    ensures same { OnlyRead D.content D.synced D.honest D.overreads disk.old disk.new }
    ensures told { Tells (IsErrOf result OpenFault.DiskFault) (D.failures disk.old) (D.failures disk.new) }
{
    if disk.len() == 0 {
        return Ok(Layout {
            version: Version::Two,
            marks: Marks::blank(alloc, 1)?,
            metadata: Vec::new(alloc),
        });
    }
    let header = read_header(disk)?;
    let layout = read_chain(alloc, disk, header)?;
    Ok(layout)
}

/// The header of a closed file whose length is the number of blocks that it tells, and whose metadata is not too long.
fn read_header<D: Disk>(disk: &mut D) -> Result<Header, OpenFault>
    requires { IsTrue (D.honest disk.old) → 0 < length (D.content disk.old) }
    ensures header { IfOk result (λ header. IsTrue (D.honest disk.old) → IsClosedHeader header (D.content disk.old)) }
    ensures some { IfOk result (λ header. 0 < header.blocks) }
    ensures few { IfOk result (λ header. header.blocks ≤ max_blocks) }
    ensures short { IfOk result (λ header. header.length ≤ max_metadata) }
    ensures refused { IfErr result (λ fault. IsTrue (D.honest disk.old) → IsRefused fault (D.content disk.old)) }
    ensures same { OnlyRead D.content D.synced D.honest D.overreads disk.old disk.new }
    ensures told { Tells (IsErrOf result OpenFault.DiskFault) (D.failures disk.old) (D.failures disk.new) }
{
    let length = disk.len();
    if length < BLOCK_BYTES as u64 {
        return Err(OpenFault::NotAStore);
    }
    let mut bytes = [0u8; BLOCK_BYTES];
    disk.read_at(0, &mut bytes)?;
    let header = parse_header(&bytes)?;
    if BLOCK_BYTES as u64 * header.blocks as u64 != length || header.blocks as usize > MAX_BLOCKS {
        return Err(OpenFault::Damaged);
    }
    if header.length > MAX_METADATA {
        return Err(OpenFault::Damaged);
    }
    Ok(header)
}
