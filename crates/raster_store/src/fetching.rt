//! How a tile is fetched: as it is kept decoded, or from its blocks.

ghost use Rattle.std.specs.Prelude.{◌∷◌, [], OnOk, IsErrOf};
ghost use Rattle.block_file.specs.State.{none};
ghost use Rattle.block_file.specs.Words.{OnlyReads};
ghost use Rattle.disk_face.specs.Disk.{Tells};
ghost use Rattle.tile_store.specs.Faults.{Refuses};
ghost use Rattle.raster_store.specs.Fetching.{HasTileOf, IsFetchedOf, IsDamagedOf};
ghost use Rattle.raster_store.specs.Holding.{IsHeld, AreOf, AddsOf};

use crate::decoded::DecodedTiles;
use crate::held::Held;
use crate::reading::TileKey;
use block_file::Blocks;
use std::alloc::Global;
use tile_store::{Fault, read_tile_into};

/// A tile, by its number, of a field of a coverage, by its place.
#[derive(Clone, Copy)]
pub(crate) struct TileOf<'a> {
    pub(crate) coverage: &'a Held,
    pub(crate) field: usize,
    pub(crate) tile: u64,
}

/// Reads the stored numbers of a tile from its blocks into `cells`.
fn read_of<B: Blocks>(
    alloc: Global,
    blocks: &mut B,
    of: TileOf<'_>,
    bytes: &mut Vec<u8>,
    cells: &mut Vec<i64>,
) -> Result<(), Fault>
    requires held { IsHeld (B.state blocks.old) (of.coverage.now ∷ []) }
    requires tile { HasTileOf (B.state blocks.old) of }
    ensures read { OnOk result (IsFetchedOf (B.state blocks.old) of.entry cells.new.items) }
    ensures why { Refuses result (IsDamagedOf (B.state blocks.old) of.entry) ⊥ }
    ensures frame { OnlyReads none (B.state blocks.old) (B.state blocks.new) }
    ensures told { Tells (IsErrOf result Fault.DiskFault) (B.state blocks.old).failures (B.state blocks.new).failures }
{
    let tiles = of.coverage.tiles(of.field);
    read_tile_into(alloc, blocks, tiles, of.tile, bytes, cells)?;
    Ok(())
}

/// Reads the stored numbers of a tile into `cells`: as they are kept decoded, or from its blocks, and then they are
/// kept where the coverage has a version.
pub(crate) fn fetch_of<B: Blocks>(
    alloc: Global,
    blocks: &mut B,
    of: TileOf<'_>,
    decoded: &mut DecodedTiles,
    bytes: &mut Vec<u8>,
    cells: &mut Vec<i64>,
) -> Result<(), Fault>
    requires held { IsHeld (B.state blocks.old) (of.coverage.now ∷ []) }
    requires tile { HasTileOf (B.state blocks.old) of }
    requires kept { AreOf (B.state blocks.old) of.coverage.now decoded.old }
    ensures read { OnOk result (IsFetchedOf (B.state blocks.old) of.entry cells.new.items) }
    ensures why { Refuses result (IsDamagedOf (B.state blocks.old) of.entry) ⊥ }
    ensures frame { OnlyReads none (B.state blocks.old) (B.state blocks.new) }
    ensures kept { AddsOf (B.state blocks.old) of.entry.coverage.now decoded.old decoded.new }
    ensures told { Tells (IsErrOf result Fault.DiskFault) (B.state blocks.old).failures (B.state blocks.new).failures }
{
    let Some(version) = of.coverage.version else {
        return read_of(alloc, blocks, of, bytes, cells);
    };
    let key = TileKey {
        version,
        field: of.field,
        tile: of.tile,
    };
    if decoded.get(key, cells)? {
        return Ok(());
    }
    read_of(alloc, blocks, of, bytes, cells)?;
    decoded.keep(alloc, key, cells);
    Ok(())
}
