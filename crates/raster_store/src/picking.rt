//! Cells of a tile at ranks: of a tile that was tested they are read by themselves, and else the tile is read whole,
//! and is marked as tested.

ghost use Rattle.std.specs.Prelude.{◌≡◌, ◌∷◌, [], pos, slice_index_or, OnOk, IsErrOf};
ghost use Rattle.block_file.specs.State.{none};
ghost use Rattle.block_file.specs.Words.{OnlyReads};
ghost use Rattle.disk_face.specs.Disk.{Tells};
ghost use Rattle.tile_store.specs.Faults.{Refuses};
ghost use Rattle.tile_store.specs.Picking.{picked};
ghost use Rattle.raster_store.specs.Fetching.{HasTileOf, HasRanksOf, ArePickedOf, IsTestedOf, IsDamagedOf};
ghost use Rattle.raster_store.specs.Holding.{IsHeld, AreOf, AddsOf};

use crate::decoded::DecodedTiles;
use crate::fetching::{TileOf, fetch_of};
use crate::reading::TileKey;
use block_file::Blocks;
use std::alloc::{AllocError, Global};
use tile_store::{Fault, pick_tile_into};

/// A tile of a coverage, and ranks of its points in row-major order.
#[derive(Clone, Copy)]
pub(crate) struct RanksOf<'a, 'b> {
    pub(crate) tile: TileOf<'a>,
    pub(crate) ranks: &'b [u64],
}

/// The cell at a rank, or 0 where there is none.
fn cell_at(cells: &[i64], rank: u64) -> i64
    ensures { result ≡ slice_index_or cells.now rank (pos 0) }
{
    let rank = rank as usize;
    if rank < cells.len() { cells[rank] } else { 0 }
}

/// Leaves the cells at ranks in the place of all, one for each rank. A rank that has none gives 0.
fn gather(alloc: Global, ranks: &[u64], cells: &mut Vec<i64>) -> Result<(), AllocError>
    ensures { OnOk result (cells.new.items ≡ picked cells.old.items ranks.now) }
{
    let mut picks = Vec::with_capacity(alloc, ranks.len())?;
    for rank in ranks {
        picks.push(cell_at(cells, *rank))?;
    }
    cells.clear();
    cells.extend_from_slice(&picks)?;
    Ok(())
}

/// Reads the stored numbers at ranks of a tile that was tested.
fn pick_tested<B: Blocks>(
    blocks: &mut B,
    of: RanksOf<'_, '_>,
    bytes: &mut Vec<u8>,
    cells: &mut Vec<i64>,
) -> Result<(), Fault>
    requires held { IsHeld (B.state blocks.old) (of.tile.coverage.now ∷ []) }
    requires tile { HasTileOf (B.state blocks.old) of.tile }
    requires ranks { HasRanksOf (B.state blocks.old) of.tile of.ranks.now }
    requires tested { IsTestedOf (B.state blocks.old) of.tile }
    ensures read { OnOk result (ArePickedOf (B.state blocks.old) of.entry.tile of.entry.ranks.now cells.new.items) }
    ensures why { Refuses result (IsDamagedOf (B.state blocks.old) of.entry.tile) ⊥ }
    ensures frame { OnlyReads none (B.state blocks.old) (B.state blocks.new) }
    ensures told { Tells (IsErrOf result Fault.DiskFault) (B.state blocks.old).failures (B.state blocks.new).failures }
{
    let tiles = of.tile.coverage.tiles(of.tile.field);
    pick_tile_into(blocks, tiles, of.tile.tile, of.ranks, bytes, cells)?;
    Ok(())
}

/// Reads a tile whole, as it is kept decoded or from its blocks, and leaves the cells at ranks.
fn pick_whole<B: Blocks>(
    alloc: Global,
    blocks: &mut B,
    of: RanksOf<'_, '_>,
    decoded: &mut DecodedTiles,
    bytes: &mut Vec<u8>,
    cells: &mut Vec<i64>,
) -> Result<(), Fault>
    requires held { IsHeld (B.state blocks.old) (of.tile.coverage.now ∷ []) }
    requires tile { HasTileOf (B.state blocks.old) of.tile }
    requires ranks { HasRanksOf (B.state blocks.old) of.tile of.ranks.now }
    requires kept { AreOf (B.state blocks.old) of.tile.coverage.now decoded.old }
    ensures read { OnOk result (ArePickedOf (B.state blocks.old) of.entry.tile of.entry.ranks.now cells.new.items) }
    ensures why { Refuses result (IsDamagedOf (B.state blocks.old) of.entry.tile) ⊥ }
    ensures frame { OnlyReads none (B.state blocks.old) (B.state blocks.new) }
    ensures kept { AddsOf (B.state blocks.old) of.entry.tile.coverage.now decoded.old decoded.new }
    ensures told { Tells (IsErrOf result Fault.DiskFault) (B.state blocks.old).failures (B.state blocks.new).failures }
{
    fetch_of(alloc, blocks, of.tile, decoded, bytes, cells)?;
    gather(alloc, of.ranks, cells)?;
    Ok(())
}

/// Reads the stored numbers at ranks of a tile into `cells`: from the blocks that they stand in, where the tile was
/// tested, and else whole, and then it is marked as tested where the coverage has a version.
pub(crate) fn pick_of<B: Blocks>(
    alloc: Global,
    blocks: &mut B,
    of: RanksOf<'_, '_>,
    decoded: &mut DecodedTiles,
    bytes: &mut Vec<u8>,
    cells: &mut Vec<i64>,
) -> Result<(), Fault>
    requires held { IsHeld (B.state blocks.old) (of.tile.coverage.now ∷ []) }
    requires tile { HasTileOf (B.state blocks.old) of.tile }
    requires ranks { HasRanksOf (B.state blocks.old) of.tile of.ranks.now }
    requires kept { AreOf (B.state blocks.old) of.tile.coverage.now decoded.old }
    ensures read { OnOk result (ArePickedOf (B.state blocks.old) of.entry.tile of.entry.ranks.now cells.new.items) }
    ensures why { Refuses result (IsDamagedOf (B.state blocks.old) of.entry.tile) ⊥ }
    ensures frame { OnlyReads none (B.state blocks.old) (B.state blocks.new) }
    ensures kept { AddsOf (B.state blocks.old) of.entry.tile.coverage.now decoded.old decoded.new }
    ensures told { Tells (IsErrOf result Fault.DiskFault) (B.state blocks.old).failures (B.state blocks.new).failures }
{
    let Some(version) = of.tile.coverage.version else {
        return pick_whole(alloc, blocks, of, decoded, bytes, cells);
    };
    let key = TileKey {
        version,
        field: of.tile.field,
        tile: of.tile.tile,
    };
    if decoded.is_tested(key) {
        return pick_tested(blocks, of, bytes, cells);
    }
    pick_whole(alloc, blocks, of, decoded, bytes, cells)?;
    decoded.mark(alloc, key);
    Ok(())
}
