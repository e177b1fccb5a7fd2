//! Cells of a tile at ranks, read without the others: of a tile of cells one after the other only the blocks that they
//! stand in.

ghost use Rattle.std.specs.Prelude.{◌≡◌, ◌<◌, [], ◌∷◌, length, Some, All, IfOk, IsErrOf, OnOk};
ghost use Rattle.arr_core.specs.Domains.{count};
ghost use Rattle.arr_core.specs.Tiles.{tile_boxes, tile_box};
ghost use Rattle.disk_face.specs.Disk.{Tells};
ghost use Rattle.block_file.specs.State.{one, times};
ghost use Rattle.block_file.specs.Words.{OnlyReads};
ghost use Rattle.file_bytes.specs.declared.form.Form.TheVariants.{Raw};
ghost use Rattle.tile_store.specs.Faults.{Refuses};
ghost use Rattle.tile_store.specs.Listing.{listed, IsSound};
ghost use Rattle.tile_store.specs.Picking.{IsEntryIn, IsLast, IsPick, ArePicks, LackPicks};
ghost use Rattle.tile_store.specs.Reading.{ArePicked, IsTileDamaged};

use crate::bytes::read_bytes;
use crate::fault::Fault;
use crate::field::FieldTiles;
use arr_core::FieldType;
use block_file::Blocks;
use file_bytes::{BLOCK_BYTES, Form};
use run_tile::{pick_runs, raw_cell, width};
use tile_index::Entry;

/// Reads a block, unless it is the one that was read last, whose number is kept beside its bytes.
fn turn_to<B: Blocks>(
    blocks: &mut B,
    last: &mut Option<u32>,
    bytes: &mut [u8; BLOCK_BYTES],
    number: u32,
) -> Result<(), Fault>
    requires used { 0 < (B.state blocks.old).uses number }
    requires last { IsLast (B.state blocks.old) last.old bytes.old }
    ensures here { OnOk result (last.new ≡ Some number) }
    ensures last { OnOk result (IsLast (B.state blocks.old) last.new bytes.new) }
    ensures why { Refuses result ⊥ ⊥ }
    ensures frame { OnlyReads (one number) (B.state blocks.old) (B.state blocks.new) }
    ensures told { Tells (IsErrOf result Fault.DiskFault) (B.state blocks.old).failures (B.state blocks.new).failures }
{
    if *last != Some(number) {
        blocks.read(number, bytes)?;
        *last = Some(number);
    }
    Ok(())
}

/// Reads the cell at a rank of a tile of cells one after the other from the block that it stands in.
fn read_raw_cell<B: Blocks>(
    blocks: &mut B,
    last: &mut Option<u32>,
    bytes: &mut [u8; BLOCK_BYTES],
    kind: FieldType,
    entry: &Entry,
    rank: u64,
) -> Result<i64, Fault>
    requires entry { IsEntryIn (B.state blocks.old) entry.now }
    requires last { IsLast (B.state blocks.old) last.old bytes.old }
    ensures cell { IfOk result (IsPick Raw kind (B.state blocks.old) entry.now rank) }
    ensures last { OnOk result (IsLast (B.state blocks.old) last.new bytes.new) }
    ensures why { Refuses result (LackPicks Raw kind (B.state blocks.old) entry.now (rank ∷ [])) ⊥ }
    ensures frame { OnlyReads (times entry.now.blocks) (B.state blocks.old) (B.state blocks.new) }
    ensures told { Tells (IsErrOf result Fault.DiskFault) (B.state blocks.old).failures (B.state blocks.new).failures }
{
    let size = width(kind);
    let rank = rank as usize;
    if entry.length as usize / size <= rank {
        return Err(Fault::Damaged);
    }
    let from = rank * size;
    let numbers = entry.blocks.as_slice();
    turn_to(blocks, last, bytes, numbers[from / BLOCK_BYTES])?;
    Ok(raw_cell(kind, bytes, from % BLOCK_BYTES / size))
}

/// Writes the cells at ranks of a tile of cells one after the other, whose blocks it reads into a buffer, whatever that
/// held before. Ranks that rise take each block once.
fn pick_raw<B: Blocks>(
    blocks: &mut B,
    kind: FieldType,
    entry: &Entry,
    ranks: &[u64],
    bytes: &mut [u8; BLOCK_BYTES],
    cells: &mut [i64],
) -> Result<(), Fault>
    requires entry { IsEntryIn (B.state blocks.old) entry.now }
    requires room { length cells.old ≡ length ranks.now }
    ensures picked { OnOk result (ArePicks Raw kind (B.state blocks.old) entry.now ranks.now cells.new) }
    ensures why { Refuses result (LackPicks Raw kind (B.state blocks.old) entry.now ranks.now) ⊥ }
    ensures frame { OnlyReads (times entry.now.blocks) (B.state blocks.old) (B.state blocks.new) }
    ensures told { Tells (IsErrOf result Fault.DiskFault) (B.state blocks.old).failures (B.state blocks.new).failures }
{
    let mut last = None;
    for place in 0..ranks.len() {
        cells[place] = read_raw_cell(blocks, &mut last, bytes, kind, entry, ranks[place])?;
    }
    Ok(())
}

/// The same by a buffer of any length.
fn pick_blocks<B: Blocks>(
    blocks: &mut B,
    kind: FieldType,
    entry: &Entry,
    ranks: &[u64],
    bytes: &mut Vec<u8>,
    cells: &mut [i64],
) -> Result<(), Fault>
    requires entry { IsEntryIn (B.state blocks.old) entry.now }
    requires room { length cells.old ≡ length ranks.now }
    ensures picked { OnOk result (ArePicks Raw kind (B.state blocks.old) entry.now ranks.now cells.new) }
    ensures why { Refuses result (LackPicks Raw kind (B.state blocks.old) entry.now ranks.now) ⊥ }
    ensures frame { OnlyReads (times entry.now.blocks) (B.state blocks.old) (B.state blocks.new) }
    ensures told { Tells (IsErrOf result Fault.DiskFault) (B.state blocks.old).failures (B.state blocks.new).failures }
{
    bytes.resize(BLOCK_BYTES, 0)?;
    match bytes.first_chunk_mut::<BLOCK_BYTES>() {
        Some(block) => pick_raw(blocks, kind, entry, ranks, block, cells),
        None => unreachable!(),
    }
}

/// Reads the cells at ranks of a tile that is listed into a buffer, and what stands in its blocks into another,
/// whatever the two held before.
fn pick_entry<B: Blocks>(
    blocks: &mut B,
    kind: FieldType,
    entry: &Entry,
    ranks: &[u64],
    bytes: &mut Vec<u8>,
    cells: &mut Vec<i64>,
) -> Result<(), Fault>
    requires { IsEntryIn (B.state blocks.old) entry.now }
    ensures picked { OnOk result
        (ArePicks entry.now.form kind (B.state blocks.old) entry.now ranks.now cells.new.items) }
    ensures counted { OnOk result (length cells.new.items ≡ length ranks.now) }
    ensures why { Refuses result (LackPicks entry.now.form kind (B.state blocks.old) entry.now ranks.now) ⊥ }
    ensures frame { OnlyReads (times entry.now.blocks) (B.state blocks.old) (B.state blocks.new) }
    ensures told { Tells (IsErrOf result Fault.DiskFault) (B.state blocks.old).failures (B.state blocks.new).failures }
{
    match entry.form {
        Form::Runs => {
            read_bytes(blocks, entry, bytes)?;
            pick_runs(kind, bytes, ranks, cells)?;
            Ok(())
        }
        Form::Raw => {
            cells.resize(ranks.len(), 0)?;
            pick_blocks(blocks, kind, entry, ranks, bytes, cells)
        }
    }
}

/// Reads the stored numbers of a tile, by its number, at ranks of its points in row-major order, into `cells`, one for
/// each rank, whatever it held before. Of a tile that has cells one after the other it reads the blocks that they stand
/// in into `bytes`, one after the other, and of one of runs all bytes, which it walks. Whether the other cells are
/// spelled is not told: `Damaged` comes only where the tile is not, but need not come there. After a refusal the two
/// buffers hold anything.
pub fn pick_tile_into<B: Blocks>(
    blocks: &mut B,
    field: FieldTiles,
    tile: u64,
    ranks: &[u64],
    bytes: &mut Vec<u8>,
    cells: &mut Vec<i64>,
) -> Result<(), Fault>
    requires tile { tile < length (tile_boxes field.domain.now) }
    requires ranks { All (λ r. r < count (tile_box field.domain.now tile)) ranks.now }
    requires sound { IsSound field.domain.now (B.state blocks.old) field.index.now }
    ensures picked { OnOk result
        (ArePicked field.entry tile ranks.now (B.state blocks.old) cells.new.items) }
    ensures why { Refuses result (IsTileDamaged field.entry tile (B.state blocks.old)) ⊥ }
    ensures frame { OnlyReads (listed field.entry.index.now) (B.state blocks.old) (B.state blocks.new) }
    ensures told { Tells (IsErrOf result Fault.DiskFault) (B.state blocks.old).failures (B.state blocks.new).failures }
{
    let _listed = field.index.index();
    let _axes = field.domain.axes();
    match field.index.get(tile) {
        None => {
            cells.clear();
            cells.resize(ranks.len(), 0)?;
            Ok(())
        }
        Some(entry) => pick_entry(blocks, field.kind, entry, ranks, bytes, cells),
    }
}
