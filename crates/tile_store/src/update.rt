//! New tiles written to fresh blocks.

ghost use Rattle.std.specs.Prelude.{◌≡◌, ℕ, ◌+◌, ◌<◌, [], length, Option, Some, IsErrOf, IfOk, OnOk, OnErr, option_copied};
ghost use Rattle.arr_core.specs.Tiles.{tile_boxes, tile_box};
ghost use Rattle.disk_face.specs.Disk.{Tells};
ghost use Rattle.block_file.specs.State.{times, none};
ghost use Rattle.block_file.specs.Words.{OnlyReads, Moves, Covers};
ghost use Rattle.tile_index.specs.declared.entry.Entry.{Entry};
ghost use Rattle.tile_index.specs.Bytes.{index_bytes};
ghost use Rattle.tile_store.specs.Faults.{Refuses};
ghost use Rattle.tile_store.specs.Listing.{AddsBlocks, listed, listed_for, IsSound, Takes};
ghost use Rattle.tile_store.specs.Patches.{CanPatch, IsPatch, GrowsFor, RefusesPatch};
ghost use Rattle.tile_store.specs.Room.{AreMeeting, replaced_bytes, given_bytes};
ghost use Rattle.tile_store.specs.Written.{AreBefore, AreAfter, IsCutDamaged, Writes, TakesFew, RefusesTiles, IsSized, IsReady};

use crate::fault::Fault;
use crate::field::{FieldIndex, FieldTiles, part_of, read_tile};
use crate::numbers::Patch;
use crate::overlay::overlay;
use crate::reserve::{changes_size, listed_size};
use crate::tile::{cell_count, write_tile, zeros};
use arr_core::Domain;
use block_file::Blocks;
use std::alloc::{AllocError, Global};
use tile_index::{Entry, TileIndex};

/// What tiles become, and the blocks that were taken for them.
#[derive(Drop)]
pub(crate) struct Fresh {
    pub changes: Vec<(u64, Option<Entry>)>,
    pub blocks: Vec<u32>,
}

impl Fresh {
    /// No tiles yet.
    fn new(alloc: Global) -> Fresh
        ensures changes { result.changes.items ≡ [] }
        ensures blocks { result.blocks.items ≡ [] }
    {
        Fresh {
            changes: Vec::new(alloc),
            blocks: Vec::new(alloc),
        }
    }
}

/// The cells of a tile, whose box is `part`, before a write. Those inside the patch's box may be any.
fn cells_before<B: Blocks>(
    alloc: Global,
    blocks: &mut B,
    field: &FieldIndex,
    patch: &Patch,
    tile: u64,
    part: &Domain,
) -> Result<Vec<i64>, Fault>
    requires tile { tile < length (tile_boxes patch.now.domain.now) }
    requires part { tile_box patch.now.domain.now tile ≡ part.now }
    requires used { Covers (B.state blocks.old) (listed field.now) }
    ensures before { IfOk result (λ cells. AreBefore patch.now (B.state blocks.old) field.now tile cells.items) }
    ensures why { Refuses result (IsCutDamaged patch.now (B.state blocks.old) field.now tile) ⊥ }
    ensures frame { OnlyReads (listed field.now) (B.state blocks.old) (B.state blocks.new) }
    ensures told { Tells (IsErrOf result Fault.DiskFault) (B.state blocks.old).failures (B.state blocks.new).failures }
{
    if part.is_box_of(patch.area) {
        let cells = zeros(alloc, cell_count(part))?;
        return Ok(cells);
    }
    let tiles = FieldTiles {
        kind: patch.kind,
        domain: patch.domain,
        index: field,
    };
    let cells = read_tile(alloc, blocks, tiles, tile)?;
    Ok(cells)
}

/// The cells of a tile after a write.
fn cells_after<B: Blocks>(
    alloc: Global,
    blocks: &mut B,
    field: &FieldIndex,
    patch: &Patch,
    tile: u64,
) -> Result<Vec<i64>, Fault>
    requires tile { tile < length (tile_boxes patch.now.domain.now) }
    requires patch { IsPatch patch.now }
    requires used { Covers (B.state blocks.old) (listed field.now) }
    ensures after { IfOk result (λ cells. AreAfter patch.now (B.state blocks.old) field.now tile cells.items) }
    ensures why { Refuses result (IsCutDamaged patch.now (B.state blocks.old) field.now tile) ⊥ }
    ensures frame { OnlyReads (listed field.now) (B.state blocks.old) (B.state blocks.new) }
    ensures told { Tells (IsErrOf result Fault.DiskFault) (B.state blocks.old).failures (B.state blocks.new).failures }
{
    let part = part_of(alloc, patch.domain, tile)?;
    let mut cells = cells_before(alloc, blocks, field, patch, tile, &part)?;
    let slots: &mut [i64] = &mut cells;
    overlay(slots, part.axes(), patch.numbers, 0, patch.area.axes());
    Ok(cells)
}

/// Writes the tiles that the patch's box meets, as they are after the write, to fresh blocks.
fn write_tiles<B: Blocks>(
    alloc: Global,
    blocks: &mut B,
    fresh: &mut Fresh,
    field: &FieldIndex,
    patch: &Patch,
    tiles: &[u64],
) -> Result<(), Fault>
    requires patch { IsPatch patch.now }
    requires sound { IsSound patch.now.domain.now (B.state blocks.old) field.now }
    requires tiles { AreMeeting patch.now.domain.now patch.now.area.now tiles.now }
    requires none { (fresh.old.changes.items ≡ []) × (fresh.old.blocks.items ≡ []) }
    ensures written { Writes result patch.now (B.state blocks.old) field.now tiles.now fresh.new (B.state blocks.new) }
    ensures takes { Takes [] fresh.new.blocks.items (B.state blocks.old) (B.state blocks.new) }
    ensures few { TakesFew patch.now (B.state blocks.old) field.now tiles.now fresh.new.blocks.items }
    ensures why { RefusesTiles result patch.now tiles.now (B.state blocks.old) field.now }
    ensures told { Tells (IsErrOf result Fault.DiskFault) (B.state blocks.old).failures (B.state blocks.new).failures }
{
    for tile in tiles {
        let cells = cells_after(alloc, blocks, field, patch, *tile)?;
        let entry = write_tile(alloc, blocks, &mut fresh.blocks, patch.kind, &cells)?;
        fresh.changes.push((*tile, entry))?;
    }
    Ok(())
}

/// Puts the blocks of a tile after the others; a tile without an entry has none.
fn push_blocks(blocks: &mut Vec<u32>, entry: Option<&Entry>) -> Result<(), AllocError>
    ensures { OnOk result (AddsBlocks (option_copied entry.entry) blocks.old.items blocks.new.items) }
{
    match entry {
        None => Ok(()),
        Some(entry) => {
            blocks.extend_from_slice(entry.blocks.as_slice())?;
            Ok(())
        }
    }
}

/// The blocks of the tiles with these numbers, as an index has them.
fn listed_blocks(alloc: Global, index: &TileIndex, tiles: &[u64]) -> Result<Vec<u32>, AllocError>
    ensures { IfOk result (λ blocks. (k : ℕ) → times blocks.items k ≡ listed_for index.now tiles.now k) }
{
    let mut blocks = Vec::new(alloc);
    for tile in tiles {
        push_blocks(&mut blocks, index.get(*tile))?;
    }
    Ok(blocks)
}

/// How many bytes the index of a field has after changes of these tiles.
fn new_size(field: &FieldIndex, changes: &[(u64, Option<Entry>)], tiles: &[u64]) -> u64
    requires { IsSized field.now changes.now tiles.now }
    ensures { result + replaced_bytes field.now tiles.now ≡ length (index_bytes field.now) + given_bytes changes.now }
{
    let replaced = listed_size(field.index(), tiles);
    field.size() - replaced + changes_size(changes)
}

/// What a write has ready before it exchanges the index: new tiles in fresh blocks, the blocks that they replace, and
/// how many bytes the index has with them.
#[derive(Drop)]
pub(crate) struct Ready {
    pub fresh: Fresh,
    pub replaced: Vec<u32>,
    pub size: u64,
}

/// The numbers of the tiles that the box of a patch meets, rising.
fn meeting_tiles(alloc: Global, patch: &Patch) -> Result<Vec<u64>, AllocError>
    ensures { IfOk result (λ tiles. AreMeeting patch.now.domain.now patch.now.area.now tiles.items) }
{
    let tiles = patch.domain.tiles_meeting(alloc, patch.area)?;
    Ok(tiles)
}

/// Gets the tiles of a patch ready. After a refusal no block is used otherwise.
pub(crate) fn prepare<B: Blocks>(
    alloc: Global,
    blocks: &mut B,
    field: &FieldIndex,
    patch: &Patch,
) -> Result<Ready, Fault>
    requires { CanPatch patch.now (B.state blocks.old) field.now }
    ensures ready { IfOk result (IsReady patch.now (B.state blocks.old) field.now (B.state blocks.new)) }
    ensures kept { OnErr result (Moves none none (B.state blocks.old) (B.state blocks.new)) }
    ensures grows { GrowsFor patch.now (B.state blocks.old) field.now (B.state blocks.new) }
    ensures why { (rest : ℕ) → RefusesPatch result patch.now rest (B.state blocks.old) field.now }
    ensures told { Tells (IsErrOf result Fault.DiskFault) (B.state blocks.old).failures (B.state blocks.new).failures }
{
    let _axes = patch.domain.axes();
    let tiles = meeting_tiles(alloc, patch)?;
    let replaced = listed_blocks(alloc, field.index(), &tiles)?;
    let mut fresh = Fresh::new(alloc);
    if let Err(fault) = write_tiles(alloc, blocks, &mut fresh, field, patch, &tiles) {
        blocks.give_back(&fresh.blocks);
        return Err(fault);
    }
    let size = new_size(field, &fresh.changes, &tiles);
    Ok(Ready {
        fresh,
        replaced,
        size,
    })
}
