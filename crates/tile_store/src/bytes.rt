//! The bytes of a tile in its blocks.

ghost use Rattle.std.specs.Prelude.{◌+◌, ◌*◌, ◌<◌, ◌≤◌, ◌^◌, length, IsErr, IsErrOf, OnOk, IsTrue};
ghost use Rattle.disk_face.specs.Disk.{Tells};
ghost use Rattle.file_bytes.specs.Limits.{block_bytes};
ghost use Rattle.block_file.specs.State.{times};
ghost use Rattle.block_file.specs.Words.{OnlyReads, Moves, Covers, AreBytesOf};
ghost use Rattle.block_file.specs.Growth.{EndsWith};
ghost use Rattle.tile_index.specs.Limits.{max_tile_blocks};
ghost use Rattle.tile_store.specs.Faults.{Refuses};
ghost use Rattle.tile_store.specs.Written.{AreNeighbours, IsDataRead, HoldsPart, HoldsBytes, AreFresh};

use crate::fault::Fault;
use block_file::Blocks;
use disk_face::DiskFault;
use file_bytes::BLOCK_BYTES;
use tile_index::{Entry, MAX_TILE_BLOCKS};

/// Whether there are blocks, no more than a tile has, and each is the one behind the one before it.
fn are_neighbours(numbers: &[u32]) -> bool
    ensures some { IsTrue result → 0 < length numbers.now }
    ensures few { IsTrue result → length numbers.now ≤ max_tile_blocks }
    ensures rising { IsTrue result → AreNeighbours numbers.now }
{
    if numbers.len() == 0 || MAX_TILE_BLOCKS < numbers.len() {
        return false;
    }
    let first = numbers[0] as usize;
    for place in 0..numbers.len() {
        if numbers[place] as usize != first + place {
            return false;
        }
    }
    true
}

/// Reads neighbouring blocks at once into a buffer.
fn read_neighbours<B: Blocks>(
    blocks: &mut B,
    numbers: &[u32],
    bytes: &mut Vec<u8>,
) -> Result<(), Fault>
    requires used { Covers (B.state blocks.old) (times numbers.now) }
    requires some { 0 < length numbers.now }
    requires few { length numbers.now ≤ max_tile_blocks }
    requires rising { AreNeighbours numbers.now }
    ensures value { OnOk result (AreBytesOf numbers.now (B.state blocks.old) bytes.new.items) }
    ensures why { Refuses result ⊥ ⊥ }
    ensures frame { OnlyReads (times numbers.now) (B.state blocks.old) (B.state blocks.new) }
    ensures told { Tells (IsErrOf result Fault.DiskFault) (B.state blocks.old).failures (B.state blocks.new).failures }
{
    bytes.resize(numbers.len() * BLOCK_BYTES, 0)?;
    let all = bytes.as_mut_slice();
    blocks.read_run(numbers[0], all)?;
    Ok(())
}

/// Reads blocks one by one into a buffer.
fn read_each<B: Blocks>(blocks: &mut B, numbers: &[u32], bytes: &mut Vec<u8>) -> Result<(), Fault>
    requires { Covers (B.state blocks.old) (times numbers.now) }
    ensures value { OnOk result (AreBytesOf numbers.now (B.state blocks.old) bytes.new.items) }
    ensures why { Refuses result ⊥ ⊥ }
    ensures frame { OnlyReads (times numbers.now) (B.state blocks.old) (B.state blocks.new) }
    ensures told { Tells (IsErrOf result Fault.DiskFault) (B.state blocks.old).failures (B.state blocks.new).failures }
{
    bytes.clear();
    for k in numbers {
        let mut block = [0u8; BLOCK_BYTES];
        blocks.read(*k, &mut block)?;
        bytes.extend_from_slice(&block)?;
    }
    Ok(())
}

/// Reads blocks into a buffer: several neighbours at once, a single block and others one by one, by the pages.
fn read_blocks<B: Blocks>(blocks: &mut B, numbers: &[u32], bytes: &mut Vec<u8>) -> Result<(), Fault>
    requires { Covers (B.state blocks.old) (times numbers.now) }
    ensures value { OnOk result (AreBytesOf numbers.now (B.state blocks.old) bytes.new.items) }
    ensures why { Refuses result ⊥ ⊥ }
    ensures frame { OnlyReads (times numbers.now) (B.state blocks.old) (B.state blocks.new) }
    ensures told { Tells (IsErrOf result Fault.DiskFault) (B.state blocks.old).failures (B.state blocks.new).failures }
{
    if numbers.len() > 1 && are_neighbours(numbers) {
        return read_neighbours(blocks, numbers, bytes);
    }
    read_each(blocks, numbers, bytes)
}

/// Reads the bytes of a tile into a buffer, whatever it held before.
pub(crate) fn read_bytes<B: Blocks>(
    blocks: &mut B,
    entry: &Entry,
    bytes: &mut Vec<u8>,
) -> Result<(), Fault>
    requires { Covers (B.state blocks.old) (times entry.now.blocks) }
    ensures value { OnOk result (IsDataRead (B.state blocks.old) entry.now bytes.new.items) }
    ensures why { Refuses result ⊥ ⊥ }
    ensures frame { OnlyReads (times entry.now.blocks) (B.state blocks.old) (B.state blocks.new) }
    ensures told { Tells (IsErrOf result Fault.DiskFault) (B.state blocks.old).failures (B.state blocks.new).failures }
{
    read_blocks(blocks, entry.blocks.as_slice(), bytes)?;
    bytes.truncate(entry.length as usize);
    Ok(())
}

/// The bytes that stand in the block at a place of a tile's blocks, and zeros after the last one.
fn block_of(bytes: &[u8], place: usize) -> [u8; BLOCK_BYTES]
    requires { place < 2 ^ 32 }
    ensures { HoldsPart result place bytes.now }
{
    let from = bytes.len().min(place * BLOCK_BYTES);
    let count = BLOCK_BYTES.min(bytes.len() - from);
    let mut part = [0u8; BLOCK_BYTES];
    part[..count].copy_from_slice(&bytes[from..from + count]);
    part
}

/// Writes the bytes of a tile into its blocks.
pub(crate) fn write_bytes<B: Blocks>(
    blocks: &mut B,
    numbers: &[u32],
    bytes: &[u8],
) -> Result<(), DiskFault>
    requires fresh { AreFresh numbers.now (B.state blocks.old) }
    requires enough { length bytes.now ≤ block_bytes * length numbers.now }
    requires few { length numbers.now < 2 ^ 32 }
    ensures written { OnOk result (HoldsBytes numbers.now bytes.now (B.state blocks.new)) }
    ensures frame { Moves (times numbers.now) (times numbers.now) (B.state blocks.old) (B.state blocks.new) }
    ensures ends { EndsWith numbers.now (B.state blocks.old).content (B.state blocks.new).content }
    ensures told { Tells (IsErr result) (B.state blocks.old).failures (B.state blocks.new).failures }
{
    for place in 0..numbers.len() {
        let block = block_of(bytes, place);
        blocks.write(numbers[place], &block)?;
    }
    Ok(())
}
