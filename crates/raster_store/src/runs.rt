//! How a tile is fetched as runs of equal cells: as it is kept decoded, or from its blocks.

ghost use Rattle.std.specs.Prelude.{◌≡◌, ◌∷◌, [], length, OnOk, IsErrOf};
ghost use Rattle.arr_core.specs.Runs.{cells_of};
ghost use Rattle.block_file.specs.State.{none};
ghost use Rattle.block_file.specs.Words.{OnlyReads};
ghost use Rattle.disk_face.specs.Disk.{Tells};
ghost use Rattle.tile_store.specs.Faults.{Refuses};
ghost use Rattle.raster_store.specs.Fetching.{HasTileOf, HasCountOf, IsFetchedOf, IsDamagedOf};
ghost use Rattle.raster_store.specs.Holding.{IsHeld, AreOf, AddsOf};

use crate::decoded::DecodedTiles;
use crate::fetching::TileOf;
use crate::reading::TileKey;
use arr_core::RunList;
use block_file::Blocks;
use std::alloc::Global;
use tile_store::{Fault, read_runs_into};

/// Makes a list that of the stored numbers of a tile, from its blocks.
fn read_runs_of<B: Blocks>(
    blocks: &mut B,
    of: TileOf<'_>,
    bytes: &mut Vec<u8>,
    runs: &mut RunList,
) -> Result<(), Fault>
    requires held { IsHeld (B.state blocks.old) (of.coverage.now ∷ []) }
    requires tile { HasTileOf (B.state blocks.old) of }
    requires room { HasCountOf (B.state blocks.old) of runs.old.values.items }
    ensures read { OnOk result (IsFetchedOf (B.state blocks.old) of.entry (cells_of runs.new)) }
    ensures why { Refuses result (IsDamagedOf (B.state blocks.old) of.entry) ⊥ }
    ensures frame { OnlyReads none (B.state blocks.old) (B.state blocks.new) }
    ensures told { Tells (IsErrOf result Fault.DiskFault) (B.state blocks.old).failures (B.state blocks.new).failures }
    ensures room { length runs.new.values.items ≡ length runs.old.values.items }
{
    let tiles = of.coverage.tiles(of.field);
    read_runs_into(blocks, tiles, of.tile, bytes, runs)?;
    Ok(())
}

/// Makes a list that of the stored numbers of a tile: as they are kept decoded, or from its blocks, and then they may
/// be kept where the coverage has a version.
pub(crate) fn fetch_runs_of<B: Blocks>(
    alloc: Global,
    blocks: &mut B,
    of: TileOf<'_>,
    decoded: &mut DecodedTiles,
    bytes: &mut Vec<u8>,
    runs: &mut RunList,
) -> Result<(), Fault>
    requires held { IsHeld (B.state blocks.old) (of.coverage.now ∷ []) }
    requires tile { HasTileOf (B.state blocks.old) of }
    requires room { HasCountOf (B.state blocks.old) of runs.old.values.items }
    requires kept { AreOf (B.state blocks.old) of.coverage.now decoded.old }
    ensures read { OnOk result (IsFetchedOf (B.state blocks.old) of.entry (cells_of runs.new)) }
    ensures why { Refuses result (IsDamagedOf (B.state blocks.old) of.entry) ⊥ }
    ensures frame { OnlyReads none (B.state blocks.old) (B.state blocks.new) }
    ensures kept { AddsOf (B.state blocks.old) of.entry.coverage.now decoded.old decoded.new }
    ensures told { Tells (IsErrOf result Fault.DiskFault) (B.state blocks.old).failures (B.state blocks.new).failures }
    ensures room { length runs.new.values.items ≡ length runs.old.values.items }
{
    let Some(version) = of.coverage.version else {
        return read_runs_of(blocks, of, bytes, runs);
    };
    let key = TileKey {
        version,
        field: of.field,
        tile: of.tile,
    };
    if decoded.get_runs(key, runs)? {
        return Ok(());
    }
    read_runs_of(blocks, of, bytes, runs)?;
    decoded.keep_runs(alloc, key, runs);
    Ok(())
}
