//! One tile: its cells read by its entry, and written to fresh blocks.

ghost use Rattle.std.specs.Prelude.{◌≡◌, ◌<◌, ◌≤◌, ◌+◌, ◌++◌, ◌↔◌, pos, length, All, option_copied, IsErrOf, IfOk, OnOk, IsTrue, replicate};
ghost use Rattle.std.specs.List.{list_all};
ghost use Rattle.std.specs.Ordering.{int_eq};
ghost use Rattle.arr_core.specs.Cells.{Fits};
ghost use Rattle.arr_core.specs.Domains.{points, count, AreOrdered};
ghost use Rattle.arr_core.specs.Limits.{max_tile};
ghost use Rattle.disk_face.specs.Disk.{Tells};
ghost use Rattle.block_file.specs.State.{free_of};
ghost use Rattle.block_file.specs.Words.{OnlyReads, Covers};
ghost use Rattle.block_file.specs.Growth.{AreWithin, occupied};
ghost use Rattle.tile_store.specs.Faults.{Refuses};
ghost use Rattle.tile_store.specs.Listing.{entry_times, Takes};
ghost use Rattle.tile_store.specs.Room.{tile_blocks};
ghost use Rattle.tile_store.specs.Written.{IsRead, IsEntryDamaged, IsNewTile, AreFresh, AreUnused};

use crate::bytes::{read_bytes, write_bytes};
use crate::fault::Fault;
use arr_core::{Domain, FieldType, count_points};
use block_file::Blocks;
use file_bytes::BLOCK_BYTES;
use run_tile::{decode_into, encode};
use std::alloc::{AllocError, Global};
use tile_index::{BlockList, Entry};

/// How many cells a tile with this box has.
pub(crate) fn cell_count(tile: &Domain) -> usize
    ensures count { result ≡ count tile.now }
    ensures points { result ≡ length (points tile.now) }
    ensures ordered { AreOrdered tile.now }
    ensures some { 0 < result }
{
    count_points(tile.axes()) as usize
}

/// Reads the cells of a tile with `count` points into a buffer, its bytes by way of another, whatever the two held
/// before. A tile without an entry is 0 everywhere. After a refusal both hold anything.
pub(crate) fn fill_tile<B: Blocks>(
    blocks: &mut B,
    kind: FieldType,
    entry: Option<&Entry>,
    count: usize,
    bytes: &mut Vec<u8>,
    cells: &mut Vec<i64>,
) -> Result<(), Fault>
    requires { Covers (B.state blocks.old) (entry_times (option_copied entry)) }
    ensures read { OnOk result (IsRead kind count (B.state blocks.old) (option_copied entry.entry) cells.new.items) }
    ensures why { Refuses result (IsEntryDamaged kind count (B.state blocks.old) (option_copied entry.entry)) ⊥ }
    ensures frame { OnlyReads (entry_times (option_copied entry.entry)) (B.state blocks.old) (B.state blocks.new) }
    ensures told { Tells (IsErrOf result Fault.DiskFault) (B.state blocks.old).failures (B.state blocks.new).failures }
{
    match entry {
        None => {
            cells.clear();
            cells.resize(count, 0)?;
            Ok(())
        }
        Some(entry) => {
            read_bytes(blocks, entry, bytes)?;
            decode_into(kind, count, entry.form, bytes, cells)?;
            Ok(())
        }
    }
}

/// So many zeros.
pub(crate) fn zeros(alloc: Global, count: usize) -> Result<Vec<i64>, AllocError>
    ensures { IfOk result (λ cells. cells.items ≡ replicate count (pos 0)) }
{
    vec![in alloc; 0i64; count]
}

/// Whether all cells are 0.
fn are_zero(cells: &[i64]) -> bool
    ensures zero { IsTrue result ↔ All (λ z. z ≡ pos 0) cells.now }
    ensures test { result ≡ list_all (int_eq (pos 0)) cells.now }
{
    cells.iter().all(|cell| 0 == *cell)
}

/// Takes so many fresh blocks, which come after the others in `taken` too.
fn take_fresh<B: Blocks>(
    blocks: &mut B,
    taken: &mut Vec<u32>,
    count: usize,
) -> Result<Vec<u32>, Fault>
    ensures count { IfOk result (λ fresh. length fresh.items ≡ count) }
    ensures added { IfOk result (λ fresh. taken.new.items ≡ taken.old.items ++ fresh.items) }
    ensures fresh { IfOk result (λ fresh. AreFresh fresh.items (B.state blocks.new)) }
    ensures unused { IfOk result (λ fresh. AreUnused fresh.items (B.state blocks.old)) }
    ensures within { IfOk result (λ fresh. AreWithin (occupied (B.state blocks.old) + count) fresh.items) }
    ensures few { length taken.new.items ≤ length taken.old.items + count }
    ensures takes { Takes taken.old.items taken.new.items (B.state blocks.old) (B.state blocks.new) }
    ensures why { Refuses result ⊥ (free_of (B.state blocks.old) < count) }
    ensures told { Tells (IsErrOf result Fault.DiskFault) (B.state blocks.old).failures (B.state blocks.new).failures }
{
    let fresh = blocks.take(count)?;
    if taken.extend_from_slice(&fresh).is_err() {
        blocks.give_back(&fresh);
        return Err(Fault::NoMemory);
    }
    Ok(fresh)
}

/// Writes the cells of a tile to fresh blocks, in the shorter form; the blocks come after the others in `taken`. There
/// is no entry for cells that are all 0.
pub(crate) fn write_tile<B: Blocks>(
    alloc: Global,
    blocks: &mut B,
    taken: &mut Vec<u32>,
    kind: FieldType,
    cells: &[i64],
) -> Result<Option<Entry>, Fault>
    requires some { 1 ≤ length cells.now }
    requires few { length cells.now ≤ max_tile }
    requires fit { All (Fits kind) cells.now }
    ensures written { IfOk result (IsNewTile kind (B.state blocks.new) taken.old.items taken.new.items cells.now) }
    ensures takes { Takes taken.old.items taken.new.items (B.state blocks.old) (B.state blocks.new) }
    ensures few { length taken.new.items ≤ length taken.old.items + tile_blocks kind cells.now }
    ensures why { Refuses result ⊥ (free_of (B.state blocks.old) < tile_blocks kind cells.now) }
    ensures told { Tells (IsErrOf result Fault.DiskFault) (B.state blocks.old).failures (B.state blocks.new).failures }
{
    if are_zero(cells) {
        return Ok(None);
    }
    let (form, bytes) = encode(alloc, kind, cells)?;
    let fresh = take_fresh(blocks, taken, bytes.len().div_ceil(BLOCK_BYTES))?;
    write_bytes(blocks, &fresh, &bytes)?;
    Ok(Some(Entry {
        form,
        length: bytes.len() as u32,
        blocks: BlockList::new(&fresh),
    }))
}
