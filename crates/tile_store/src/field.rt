//! A field: its tiles read, and a box of it written.

ghost use Rattle.std.specs.Prelude.{◌≡◌, ◌<◌, ◌≤◌, [], length, option_copied, IsErrOf, IfOk, OnOk, OnErr};
ghost use Rattle.arr_core.specs.Domains.{count};
ghost use Rattle.arr_core.specs.Tiles.{tile_boxes, tile_box};
ghost use Rattle.arr_core.specs.Limits.{max_tile};
ghost use Rattle.disk_face.specs.Disk.{Tells};
ghost use Rattle.block_file.specs.State.{none};
ghost use Rattle.block_file.specs.Words.{OnlyReads, Recounts, Moves, Covers};
ghost use Rattle.tile_index.specs.Bytes.{index_bytes};
ghost use Rattle.tile_index.specs.Index.{IsIndex, found_at};
ghost use Rattle.tile_store.specs.Faults.{Refuses};
ghost use Rattle.tile_store.specs.Listing.{listed, IsSound, Relists};
ghost use Rattle.tile_store.specs.Patches.{CanPatch, Patches, GrowsFor, RefusesPatch};
ghost use Rattle.tile_store.specs.Reading.{IsTileRead, IsTileDamaged};
ghost use Rattle.tile_store.specs.Room.{HasRoom};
ghost use Rattle.tile_store.specs.Written.{CanExchange, Exchanges, GivesBack};

use crate::fault::Fault;
use crate::numbers::Patch;
use crate::reserve::has_room;
use crate::tile::{cell_count, fill_tile};
use crate::update::{Fresh, Ready, prepare};
use arr_core::{Domain, FieldType};
use block_file::Blocks;
use std::alloc::{AllocError, Global};
use std::marker::Model;
use tile_index::{Entry, TileIndex};

/// The index of a field, and how many bytes it is written in.
#[derive(Drop)]
pub struct FieldIndex {
    index: TileIndex,
    size: u64,
}

impl Model for FieldIndex {
    ghost use Rattle.std.specs.Prelude.{◌≡◌, ℕ, List, length};
    ghost use Rattle.tile_index.specs.declared.entry.Entry.{Entry};
    ghost use Rattle.tile_index.specs.Bytes.{index_bytes};

    ghost Value = { List (ℕ × Entry) };

    ghost view = { λ f. f.index };

    ghost use Rattle.tile_index.specs.Index.{IsIndex};

    ghost invariant = { λ f. IsIndex f.index × (f.size ≡ length (index_bytes f.index)) };
}

impl FieldIndex {
    /// The index of a field that is 0 everywhere.
    pub fn empty(alloc: Global) -> FieldIndex
        ensures { result ≡ [] }
    {
        FieldIndex::new(TileIndex::new(alloc))
    }

    /// An index that was read, with its size.
    pub fn new(index: TileIndex) -> FieldIndex
        ensures { result ≡ index }
    {
        let size = index.bytes_len();
        FieldIndex { index, size }
    }

    /// The same index again, with its size.
    pub fn copy(&self) -> Result<FieldIndex, AllocError>
        ensures { IfOk result (λ field. field ≡ self.now) }
    {
        let index = self.index.copy()?;
        Ok(FieldIndex {
            index,
            size: self.size,
        })
    }

    /// The tiles that are listed.
    pub fn index(&self) -> &TileIndex
        ensures value { result.now ≡ self.now }
        ensures index { IsIndex self.now }
    {
        &self.index
    }

    /// The entry of a tile. Takes no memory.
    pub(crate) fn get(&self, tile: u64) -> Option<&Entry>
        ensures { option_copied result ≡ found_at tile self.now }
    {
        self.index.get(tile)
    }

    /// How many bytes the index is written in. Takes no memory.
    pub fn size(&self) -> u64
        ensures { result ≡ length (index_bytes self.now) }
    {
        self.size
    }
}

/// A field as it is read: its type, its domain, and which of its tiles are listed.
#[derive(Clone, Copy)]
pub struct FieldTiles<'a> {
    pub kind: FieldType,
    pub domain: &'a Domain,
    pub index: &'a FieldIndex,
}

/// The box of a tile, by its number.
pub(crate) fn part_of(alloc: Global, domain: &Domain, tile: u64) -> Result<Domain, AllocError>
    requires { tile < length (tile_boxes domain.now) }
    ensures part { IfOk result (λ part. tile_box domain.now tile ≡ part) }
    ensures few { IfOk result (λ part. count part ≤ max_tile) }
{
    let part = domain.tile_box(alloc, tile)?;
    Ok(part)
}

/// Reads the stored numbers of a tile, by its number, into `cells`, at its points in row-major order, and its bytes
/// into `bytes`, whatever the two held before. `Damaged` comes where the tile was read and its bytes do not spell as
/// many cells as it has points, and for no other tile's sake. After a refusal the two hold anything.
pub fn read_tile_into<B: Blocks>(
    alloc: Global,
    blocks: &mut B,
    field: FieldTiles,
    tile: u64,
    bytes: &mut Vec<u8>,
    cells: &mut Vec<i64>,
) -> Result<(), Fault>
    requires tile { tile < length (tile_boxes field.domain.now) }
    requires used { Covers (B.state blocks.old) (listed field.index.now) }
    ensures read { OnOk result (IsTileRead field.entry tile (B.state blocks.old) cells.new.items) }
    ensures why { Refuses result (IsTileDamaged field.entry tile (B.state blocks.old)) ⊥ }
    ensures frame { OnlyReads (listed field.entry.index.now) (B.state blocks.old) (B.state blocks.new) }
    ensures told { Tells (IsErrOf result Fault.DiskFault) (B.state blocks.old).failures (B.state blocks.new).failures }
{
    let part = part_of(alloc, field.domain, tile)?;
    let count = cell_count(&part);
    let entry = field.index.get(tile);
    fill_tile(blocks, field.kind, entry, count, bytes, cells)?;
    Ok(())
}

/// The stored numbers of a tile, by its number, at its points in row-major order.
pub(crate) fn read_tile<B: Blocks>(
    alloc: Global,
    blocks: &mut B,
    field: FieldTiles,
    tile: u64,
) -> Result<Vec<i64>, Fault>
    requires tile { tile < length (tile_boxes field.domain.now) }
    requires used { Covers (B.state blocks.old) (listed field.index.now) }
    ensures read { IfOk result (λ cells. IsTileRead field.entry tile (B.state blocks.old) cells.items) }
    ensures why { Refuses result (IsTileDamaged field.entry tile (B.state blocks.old)) ⊥ }
    ensures frame { OnlyReads (listed field.entry.index.now) (B.state blocks.old) (B.state blocks.new) }
    ensures told { Tells (IsErrOf result Fault.DiskFault) (B.state blocks.old).failures (B.state blocks.new).failures }
{
    let mut bytes = Vec::new(alloc);
    let mut cells = Vec::new(alloc);
    read_tile_into(alloc, blocks, field, tile, &mut bytes, &mut cells)?;
    Ok(cells)
}

/// Gives the index its new tiles, and gives back the blocks of those that they replace. Where memory is wanting, the
/// blocks that were taken are given back, and the field stays as it is.
fn exchange<B: Blocks>(
    blocks: &mut B,
    field: &mut FieldIndex,
    ready: Ready,
) -> Result<(), AllocError>
    requires { CanExchange field.old ready (B.state blocks.old) }
    ensures done { OnOk result (Exchanges ready (B.state blocks.old) field.old (B.state blocks.new) field.new) }
    ensures same { OnErr result (field.new ≡ field.old) }
    ensures back { OnErr result (GivesBack ready (B.state blocks.old) (B.state blocks.new)) }
    ensures quiet { (B.state blocks.new).failures ≡ (B.state blocks.old).failures }
{
    let Ready {
        fresh,
        replaced,
        size,
    } = ready;
    let Fresh {
        changes,
        blocks: taken,
    } = fresh;
    if let Err(error) = field.index.replace_all(changes) {
        blocks.give_back(&taken);
        return Err(error);
    }
    field.size = size;
    blocks.give_back(&replaced);
    Ok(())
}

/// Writes a patch into its field. The other metadata has `rest` bytes, or more than a `u64` holds where that is its
/// last value. After a refusal the field is as before, and no block is used otherwise. However it ends, the file of an
/// honest disk is no longer than it was, or than the header, the blocks that were in use and those of the new tiles
/// take.
pub fn write_area<B: Blocks>(
    alloc: Global,
    blocks: &mut B,
    field: &mut FieldIndex,
    patch: &Patch,
    rest: u64,
) -> Result<(), Fault>
    requires { CanPatch patch.now (B.state blocks.old) field.old }
    ensures done { OnOk result (Patches patch.now (B.state blocks.old) field.old (B.state blocks.new) field.new) }
    ensures sound { OnOk result (IsSound patch.now.domain.now (B.state blocks.new) field.new) }
    ensures frame { OnOk result (Relists field.old field.new (B.state blocks.old) (B.state blocks.new)) }
    ensures room { OnOk result (HasRoom rest field.new (B.state blocks.new)) }
    ensures same { OnErr result (field.new ≡ field.old) }
    ensures kept { OnErr result (Moves none none (B.state blocks.old) (B.state blocks.new)) }
    ensures grows { GrowsFor patch.now (B.state blocks.old) field.old (B.state blocks.new) }
    ensures why { RefusesPatch result patch.now rest (B.state blocks.old) field.old }
    ensures told { Tells (IsErrOf result Fault.DiskFault) (B.state blocks.old).failures (B.state blocks.new).failures }
{
    let ready = prepare(alloc, blocks, field, patch)?;
    if !has_room(blocks.free(), rest, ready.size) {
        blocks.give_back(&ready.fresh.blocks);
        return Err(Fault::NoRoom);
    }
    exchange(blocks, field, ready)?;
    Ok(())
}

/// Gives back the blocks of all tiles of a field: one use of each for each time that it is listed.
pub fn give_back<B: Blocks>(blocks: &mut B, field: &FieldIndex)
    requires { Covers (B.state blocks.old) (listed field.now) }
    ensures { Recounts (listed field.now) none (B.state blocks.old) (B.state blocks.new) }
{
    let entries = field.index.as_slice();
    for (_tile, entry) in entries {
        blocks.give_back(entry.blocks.as_slice());
    }
}
