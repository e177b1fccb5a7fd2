//! A tile as runs of equal cells, read without writing each cell.

ghost use Rattle.std.specs.Prelude.{◌≡◌, ◌<◌, ◌≤◌, pos, length, option_copied, replicate, IsErrOf, OnOk};
ghost use Rattle.arr_core.specs.Domains.{points};
ghost use Rattle.arr_core.specs.Runs.{cells_of};
ghost use Rattle.arr_core.specs.Tiles.{tile_boxes, tile_box};
ghost use Rattle.arr_core.specs.Limits.{max_tile};
ghost use Rattle.disk_face.specs.Disk.{Tells};
ghost use Rattle.block_file.specs.Words.{OnlyReads, Covers};
ghost use Rattle.tile_store.specs.Faults.{Refuses};
ghost use Rattle.tile_store.specs.Listing.{listed, entry_times};
ghost use Rattle.tile_store.specs.Reading.{IsTileRead, IsTileDamaged};
ghost use Rattle.tile_store.specs.Written.{IsRead, IsEntryDamaged};

use crate::bytes::read_bytes;
use crate::fault::Fault;
use crate::field::FieldTiles;
use arr_core::{FieldType, RunList};
use block_file::Blocks;
use run_tile::decode_runs;
use std::alloc::AllocError;
use tile_index::Entry;

/// Makes a list that of so many zeros, in one run.
fn list_zeros(count: usize, runs: &mut RunList) -> Result<(), AllocError>
    requires some { 0 < count }
    requires few { count ≤ max_tile }
    requires room { length runs.old.values.items ≡ count }
    ensures zeros { OnOk result (cells_of runs.new ≡ replicate count (pos 0)) }
    ensures room { length runs.new.values.items ≡ count }
{
    runs.is_narrow = false;
    runs.values[0] = 0;
    runs.counts.clear();
    runs.counts.push(count as u32)?;
    Ok(())
}

/// Makes a list that of the `count` cells of a tile, by its entry, its bytes by way of a buffer. A tile without an
/// entry is 0 everywhere. After a refusal the list stands for any cells.
fn fill_runs<B: Blocks>(
    blocks: &mut B,
    kind: FieldType,
    entry: Option<&Entry>,
    count: usize,
    bytes: &mut Vec<u8>,
    runs: &mut RunList,
) -> Result<(), Fault>
    requires used { Covers (B.state blocks.old) (entry_times (option_copied entry)) }
    requires some { 0 < count }
    requires few { count ≤ max_tile }
    requires room { length runs.old.values.items ≡ count }
    ensures read { OnOk result (IsRead kind count (B.state blocks.old) (option_copied entry.entry) (cells_of runs.new)) }
    ensures why { Refuses result (IsEntryDamaged kind count (B.state blocks.old) (option_copied entry.entry)) ⊥ }
    ensures frame { OnlyReads (entry_times (option_copied entry.entry)) (B.state blocks.old) (B.state blocks.new) }
    ensures told { Tells (IsErrOf result Fault.DiskFault) (B.state blocks.old).failures (B.state blocks.new).failures }
    ensures room { length runs.new.values.items ≡ count }
{
    match entry {
        None => {
            list_zeros(count, runs)?;
            Ok(())
        }
        Some(entry) => {
            read_bytes(blocks, entry, bytes)?;
            decode_runs(kind, entry.form, bytes, runs)?;
            Ok(())
        }
    }
}

/// Makes a list that of the stored numbers of a tile, by its number, at its points in row-major order, as runs or one
/// by one. The list has a value for each of these points, and keeps as many. Refused as `read_tile_into`; after a
/// refusal the list stands for any numbers, and `bytes` holds anything.
pub fn read_runs_into<B: Blocks>(
    blocks: &mut B,
    field: FieldTiles,
    tile: u64,
    bytes: &mut Vec<u8>,
    runs: &mut RunList,
) -> Result<(), Fault>
    requires tile { tile < length (tile_boxes field.domain.now) }
    requires room { length runs.old.values.items ≡ length (points (tile_box field.domain.now tile)) }
    requires used { Covers (B.state blocks.old) (listed field.index.now) }
    ensures read { OnOk result (IsTileRead field.entry tile (B.state blocks.old) (cells_of runs.new)) }
    ensures why { Refuses result (IsTileDamaged field.entry tile (B.state blocks.old)) ⊥ }
    ensures frame { OnlyReads (listed field.entry.index.now) (B.state blocks.old) (B.state blocks.new) }
    ensures told { Tells (IsErrOf result Fault.DiskFault) (B.state blocks.old).failures (B.state blocks.new).failures }
    ensures room { length runs.new.values.items ≡ length runs.old.values.items }
{
    let _axes = field.domain.axes();
    let count = runs.values.len();
    let entry = field.index.get(tile);
    fill_runs(blocks, field.kind, entry, count, bytes, runs)?;
    Ok(())
}
