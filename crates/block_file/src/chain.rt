//! The chain of metadata blocks: how it is read and how it is written.
ghost use Rattle.std.specs.Prelude.{◌≡◌, ◌≤◌, ◌<◌, ◌+◌, ◌*◌, ℕ, length, slice_index, IsTrue, IsErr, IfOk, IfErr, OnOk, IsErrOf};
ghost use Rattle.disk_face.specs.Disk.{Tells, OnlyRead};
ghost use Rattle.file_bytes.specs.Limits.{block_bytes};
ghost use Rattle.block_file.specs.Limits.{chain_bytes, max_blocks};
ghost use Rattle.block_file.specs.State.{free_of, times, none};
ghost use Rattle.block_file.specs.Words.{Moves, HoldsChain};
ghost use Rattle.block_file.specs.Format.{number_at, chain_blocks};
ghost use Rattle.block_file.specs.Growth.{EndsWith, GrowsBy};
ghost use Rattle.block_file.specs.Links.{IsNoChain, IsLayoutOf, ReadsChain, AddsLink, HoldsLinks};

use crate::header::{Header, put_number, u32_at};
use crate::marks::Marks;
use crate::{Blocks, CHAIN_BYTES, CloseFault, OpenFault, TakeFault};
use disk_face::{Disk, DiskFault};
use file_bytes::{BLOCK_BYTES, Version};
use std::alloc::{AllocError, Global};

/// The version of a file, the marks of its blocks, and the metadata.
#[derive(Drop)]
pub(crate) struct Layout {
    pub version: Version,
    pub marks: Marks,
    pub metadata: Vec<u8>,
}

/// Adds the bytes of a block of a chain behind the number of the next block, as many as `part`, to the metadata. Gives
/// the number of the next block.
fn push_link(
    bytes: &[u8; BLOCK_BYTES],
    part: usize,
    metadata: &mut Vec<u8>,
) -> Result<u32, AllocError>
    requires { part ≤ chain_bytes }
    ensures { IfOk result (λ next. AddsLink bytes.now next part metadata.old.items metadata.new.items) }
{
    metadata.extend_from_slice(&bytes[4..4 + part])?;
    Ok(u32_at(bytes, 0))
}

/// Reads the metadata of a closed file by its header, in one pass over its chain. Refused as damaged where the
/// chain has a block that is none of the file's, the header or met before, or another number of blocks than the
/// metadata fills.
pub(crate) fn read_chain<D: Disk>(
    alloc: Global,
    disk: &mut D,
    header: Header,
) -> Result<Layout, OpenFault>
    requires some { 0 < header.blocks }
    requires few { header.blocks ≤ max_blocks }
    requires whole { IsTrue (D.honest disk.old) → length (D.content disk.old) ≡ block_bytes * header.blocks }
    ensures read { IfOk result (λ layout. IsTrue (D.honest disk.old) → ReadsChain (D.content disk.old) header layout) }
    ensures layout { IfOk result (λ layout. IsLayoutOf header layout) }
    ensures refused { IfErr result (λ fault. IsTrue (D.honest disk.old) → IsNoChain fault (D.content disk.old) header) }
    ensures same { OnlyRead D.content D.synced D.honest D.overreads disk.old disk.new }
    ensures told { Tells (IsErrOf result OpenFault.DiskFault) (D.failures disk.old) (D.failures disk.new) }
{
    if header.length == 0 {
        return Err(OpenFault::Damaged);
    }
    let blocks = header.blocks as usize;
    let length = header.length as usize;
    let mut marks = Marks::blank(alloc, blocks)?;
    let mut metadata = Vec::with_capacity(alloc, length.min(CHAIN_BYTES * (blocks - 1)))?;
    let mut k = header.first;
    for i in 0..length.div_ceil(CHAIN_BYTES) {
        if !marks.keep(k) {
            return Err(OpenFault::Damaged);
        }
        let part = CHAIN_BYTES.min(length - CHAIN_BYTES * i);
        let mut bytes = [0u8; BLOCK_BYTES];
        disk.read_at(BLOCK_BYTES as u64 * k as u64, &mut bytes)?;
        k = push_link(&bytes, part, &mut metadata)?;
    }
    if k != 0 {
        return Err(OpenFault::Damaged);
    }
    Ok(Layout {
        version: header.version,
        marks,
        metadata,
    })
}

/// Writes metadata, of at least one byte, as a chain into free blocks, which stay so, and gives the first of them. As
/// many blocks have to be free as it fills. The file grows no further than one that has the header, the blocks that are
/// in use and as many more as the chain has, with no other free block before the last of them. Refused for memory, or
/// for a fault of the disk.
pub fn write_chain<B: Blocks>(file: &mut B, metadata: &[u8]) -> Result<u32, CloseFault>
    requires some { 0 < length metadata.now }
    requires room { chain_blocks (length metadata.now) ≤ free_of (B.state file.old) }
    ensures chain { IfOk result (λ first. HoldsChain first metadata.now (B.state file.new)) }
    ensures frame { Moves none none (B.state file.old) (B.state file.new) }
    ensures grows { GrowsBy (chain_blocks (length metadata.now)) (B.state file.old) (B.state file.new) }
    ensures told { Tells (IsErrOf result CloseFault.DiskFault) (B.state file.old).failures (B.state file.new).failures }
{
    let taken = match file.take(metadata.len().div_ceil(CHAIN_BYTES)) {
        Ok(taken) => taken,
        Err(TakeFault::NoMemory) => return Err(CloseFault::NoMemory),
        Err(TakeFault::NoRoom) => unreachable!(),
    };
    let ks: &[u32] = &taken;
    let written = write_links(file, ks, metadata);
    file.give_back(ks);
    match written {
        Ok(()) => Ok(ks[0]),
        Err(DiskFault) => Err(CloseFault::DiskFault),
    }
}

/// Writes metadata into these blocks, each with the number of the next before its part, and 0 in the last.
fn write_links<B: Blocks>(file: &mut B, ks: &[u32], metadata: &[u8]) -> Result<(), DiskFault>
    requires used { (k : ℕ) → 0 < times ks.now k → (B.state file.old).uses k ≡ 1 }
    requires once { (k : ℕ) → times ks.now k ≤ 1 }
    requires enough { length ks.now ≡ chain_blocks (length metadata.now) }
    ensures links { OnOk result (HoldsLinks ks.now metadata.now (B.state file.new)) }
    ensures frame { Moves (times ks.now) (times ks.now) (B.state file.old) (B.state file.new) }
    ensures ends { EndsWith ks.now (B.state file.old).content (B.state file.new).content }
    ensures told { Tells (IsErr result) (B.state file.old).failures (B.state file.new).failures }
{
    for i in 0..ks.len() {
        let from = CHAIN_BYTES * i;
        let to = metadata.len().min(from + CHAIN_BYTES);
        let bytes = link_bytes(next_in(ks, i), &metadata[from..to]);
        file.write(ks[i], &bytes)?;
    }
    Ok(())
}

/// The number behind place i, or 0 at the last.
fn next_in(ks: &[u32], i: usize) -> u32
    requires { i < length ks.now }
    ensures { result ≡ slice_index ks.now (i + 1) }
{
    if i + 1 < ks.len() { ks[i + 1] } else { 0 }
}

/// The bytes of a block of the chain: the number of the next one, a part of the metadata, and zeros.
fn link_bytes(next: u32, part: &[u8]) -> [u8; BLOCK_BYTES]
    requires { length part.now ≤ chain_bytes }
    ensures next { number_at 0 4 result ≡ next }
    ensures part { (j : ℕ) → slice_index result (4 + j) ≡ slice_index part.now j }
{
    let mut bytes = [0u8; BLOCK_BYTES];
    bytes[4..4 + part.len()].copy_from_slice(part);
    put_number(&mut bytes, 0, 4, next as u64);
    bytes
}
