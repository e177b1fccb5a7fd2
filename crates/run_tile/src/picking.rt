//! Single cells of a tile, read without the others.

ghost use Rattle.std.specs.Prelude.{◌≡◌, ◌≤◌, ◌<◌, false, length, pos, slice_index_or, vec_capacity, IsErrOf, IsTrue, OnOk};
ghost use Rattle.file_bytes.specs.declared.form.Form.TheVariants.{Runs};
ghost use Rattle.run_tile.specs.Raw.{cells_in, raw_cells, raw_count};
ghost use Rattle.run_tile.specs.Picking.{picked, AreRanks, IsStart, IsBefore};

use crate::raw::value_at;
use crate::run::{Run, width};
use arr_core::FieldType;
use file_bytes::ReadError;

/// Where a run begins: behind so many runs, which have so many cells.
#[derive(Clone, Copy)]
pub struct Start {
    pub runs: usize,
    pub cells: usize,
}

/// Where the first run begins.
const FIRST: Start = Start { runs: 0, cells: 0 };

/// Where the run begins that has the cell at a rank, from a run on that begins at or before it: where the runs end, if
/// they have fewer cells.
#[inline(always)]
fn find_run(kind: FieldType, bytes: &[u8], from: Start, rank: usize) -> Start
    requires start { IsStart kind bytes.now from }
    requires before { from.cells ≤ rank }
    ensures start { IsStart kind bytes.now result }
    ensures before { result.cells ≤ rank }
    ensures here { IsBefore kind bytes.now rank result }
{
    let runs = bytes.len() / (2 + width(kind));
    let mut at = from;
    'runs: while at.runs < runs {
        let run = Run::read_at(kind, bytes, at.runs);
        if rank - at.cells < run.count as usize {
            return at;
        }
        at = Start {
            runs: at.runs + 1,
            cells: at.cells + run.count as usize,
        };
    }
    at
}

/// Writes the cells at ranks of those that the runs have, as they stand, and tells whether there is one at each. Ranks
/// that rise are found in one walk.
#[inline(always)]
fn walk_runs(kind: FieldType, bytes: &[u8], ranks: &[u64], cells: &mut [i64]) -> bool
    requires { length cells.old ≡ length ranks.now }
    ensures picked { IsTrue result → cells.new ≡ picked (cells_in Runs kind bytes.now) ranks.now }
    ensures within { IsTrue result → AreRanks (cells_in Runs kind bytes.now) ranks.now }
    ensures damaged { (result ≡ false) → AreRanks (cells_in Runs kind bytes.now) ranks.now → ⊥ }
{
    let runs = bytes.len() / (2 + width(kind));
    let mut at = FIRST;
    for place in 0..ranks.len() {
        let rank = ranks[place] as usize;
        let from = if at.cells <= rank { at } else { FIRST };
        at = find_run(kind, bytes, from, rank);
        if at.runs >= runs {
            return false;
        }
        cells[place] = Run::read_at(kind, bytes, at.runs).value;
    }
    true
}

/// The same, by a loop of its own for each type.
fn pick_cells(kind: FieldType, bytes: &[u8], ranks: &[u64], cells: &mut [i64]) -> bool
    requires { length cells.old ≡ length ranks.now }
    ensures picked { IsTrue result → cells.new ≡ picked (cells_in Runs kind bytes.now) ranks.now }
    ensures within { IsTrue result → AreRanks (cells_in Runs kind bytes.now) ranks.now }
    ensures damaged { (result ≡ false) → AreRanks (cells_in Runs kind bytes.now) ranks.now → ⊥ }
{
    match kind {
        FieldType::Bool => walk_runs(FieldType::Bool, bytes, ranks, cells),
        FieldType::U8 => walk_runs(FieldType::U8, bytes, ranks, cells),
        FieldType::I16 => walk_runs(FieldType::I16, bytes, ranks, cells),
        FieldType::I32 => walk_runs(FieldType::I32, bytes, ranks, cells),
        FieldType::I64 => walk_runs(FieldType::I64, bytes, ranks, cells),
    }
}

/// Writes the cells at ranks, of those that the bytes read as in runs, into a buffer, whatever it held before, without
/// the other cells: where the bytes spell cells, as `decode_into` tells, the ones of these. `Damaged` where there is no
/// cell at one of the ranks. A buffer that has room for the cells takes no memory. After a refusal it holds any cells.
pub fn pick_runs(
    kind: FieldType,
    bytes: &[u8],
    ranks: &[u64],
    cells: &mut Vec<i64>,
) -> Result<(), ReadError>
    ensures picked { OnOk result (cells.new.items ≡ picked (cells_in Runs kind bytes.now) ranks.now) }
    ensures within { OnOk result (AreRanks (cells_in Runs kind bytes.now) ranks.now) }
    ensures damaged { IsErrOf result ReadError.Damaged → AreRanks (cells_in Runs kind bytes.now) ranks.now → ⊥ }
    ensures no_memory { IsErrOf result ReadError.NoMemory → vec_capacity cells.old < length ranks.now }
{
    cells.resize(ranks.len(), 0)?;
    if pick_cells(kind, bytes, ranks, cells) {
        Ok(())
    } else {
        Err(ReadError::Damaged)
    }
}

/// The cell at a rank, of those that the bytes read as one after the other.
pub fn raw_cell(kind: FieldType, bytes: &[u8], rank: usize) -> i64
    requires { rank < raw_count kind bytes.now }
    ensures { result ≡ slice_index_or (raw_cells kind bytes.now) rank (pos 0) }
{
    value_at(kind, bytes, rank)
}
