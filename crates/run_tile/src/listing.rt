//! The runs of a tile, read one after another into a list of values and one of counts.

ghost use Rattle.std.specs.Prelude.{◌≡◌, ◌≢◌, ◌↔◌, ◌≤◌, ◌<◌, ◌+◌, ◌*◌, length, vec_capacity, IsErrOf, OnOk, IsTrue, false};
ghost use Rattle.arr_core.specs.Runs.{runs_of, cells_of};
ghost use Rattle.run_tile.specs.Runs.{run_count, run_size, IsRun, IsSpelling, IsNoSpelling};
ghost use Rattle.run_tile.specs.Listing.{AreListed, IsPart};

use crate::run::{Run, width};
use arr_core::{FieldType, RunList};
use file_bytes::ReadError;

/// What some runs are: whether each is sound and differs from the one before it, and how many cells they have.
#[derive(Clone, Copy)]
pub struct Part {
    pub sound: bool,
    pub cells: u32,
}

/// How many runs are read before it is asked what they are.
const FEW: usize = 256;

/// Whether a run is sound and has not the value of the one before it.
#[inline(always)]
fn is_next(kind: FieldType, run: Run, last: i64) -> bool
    ensures { IsTrue result ↔ (IsRun kind run × (run.value ≢ last)) }
{
    run.is_run(kind) & (run.value != last)
}

/// Reads the value and the count of each run from the first one on that was not read yet to a later one, without a
/// branch for any of them, and tells what they are.
#[inline(always)]
fn read_part(
    kind: FieldType,
    bytes: &[u8],
    from: usize,
    end: usize,
    values: &mut [i64],
    counts: &mut [u32],
) -> Part
    requires some { 1 ≤ from }
    requires order { from ≤ end }
    requires few { end ≤ from + FEW }
    requires runs { end ≤ length counts.old }
    requires there { length counts.old ≤ run_count kind bytes.now }
    requires room { length counts.old ≤ length values.old }
    requires listed { AreListed kind bytes.now values.old counts.old from }
    ensures part { IsPart kind bytes.now values.new counts.new from end result }
    ensures few { result.cells ≤ FEW * 65535 }
{
    let mut part = Part {
        sound: true,
        cells: 0,
    };
    let mut last = values[from - 1];
    for place in from..end {
        let run = Run::read_at(kind, bytes, place);
        let count = u32::from(run.count);
        part = Part {
            sound: part.sound & is_next(kind, run, last),
            cells: part.cells + count,
        };
        values[place] = run.value;
        counts[place] = count;
        last = run.value;
    }
    part
}

/// Reads the value and the count of the first run, and tells what it is.
#[inline(always)]
fn read_first(kind: FieldType, bytes: &[u8], values: &mut [i64], counts: &mut [u32]) -> Part
    requires runs { 1 ≤ length counts.old }
    requires there { length counts.old ≤ run_count kind bytes.now }
    requires room { length counts.old ≤ length values.old }
    ensures part { IsPart kind bytes.now values.new counts.new 0 1 result }
    ensures few { result.cells ≤ 65535 }
{
    let run = Run::read_at(kind, bytes, 0);
    let count = u32::from(run.count);
    values[0] = run.value;
    counts[0] = count;
    Part {
        sound: run.is_run(kind),
        cells: count,
    }
}

/// Reads the value and the count of each run, and tells whether the runs spell as many cells of a type as there is room
/// for values.
#[inline(always)]
fn read_each(kind: FieldType, bytes: &[u8], values: &mut [i64], counts: &mut [u32]) -> bool
    requires whole { length bytes.now ≡ run_count kind bytes.now * run_size kind }
    requires runs { length counts.old ≡ run_count kind bytes.now }
    requires room { length counts.old ≤ length values.old }
    ensures spelled { IsTrue result → IsSpelling kind bytes.now (runs_of values.new counts.new) }
    ensures counted { IsTrue result → length (runs_of values.new counts.new) ≡ length values.old }
    ensures damaged { (result ≡ false) → IsNoSpelling (length values.old) kind bytes.now }
{
    if counts.len() == 0 {
        return values.len() == 0;
    }
    let mut part = read_first(kind, bytes, values, counts);
    let mut cells = part.cells as usize;
    let mut at: usize = 1;
    'parts: while at < counts.len() {
        if !part.sound || values.len() < cells {
            return false;
        }
        let end = counts.len().min(at + FEW);
        part = read_part(kind, bytes, at, end, values, counts);
        cells += part.cells as usize;
        at = end;
    }
    part.sound && cells == values.len()
}

/// The same, by a loop of its own for each type.
fn read_values(kind: FieldType, bytes: &[u8], values: &mut [i64], counts: &mut [u32]) -> bool
    requires whole { length bytes.now ≡ run_count kind bytes.now * run_size kind }
    requires runs { length counts.old ≡ run_count kind bytes.now }
    requires room { length counts.old ≤ length values.old }
    ensures spelled { IsTrue result → IsSpelling kind bytes.now (runs_of values.new counts.new) }
    ensures counted { IsTrue result → length (runs_of values.new counts.new) ≡ length values.old }
    ensures damaged { (result ≡ false) → IsNoSpelling (length values.old) kind bytes.now }
{
    match kind {
        FieldType::Bool => read_each(FieldType::Bool, bytes, values, counts),
        FieldType::U8 => read_each(FieldType::U8, bytes, values, counts),
        FieldType::I16 => read_each(FieldType::I16, bytes, values, counts),
        FieldType::I32 => read_each(FieldType::I32, bytes, values, counts),
        FieldType::I64 => read_each(FieldType::I64, bytes, values, counts),
    }
}

/// Lists the runs that the bytes spell, of as many cells of a type as the list has values, which it keeps.
pub fn list_runs(kind: FieldType, bytes: &[u8], runs: &mut RunList) -> Result<(), ReadError>
    ensures spelled { OnOk result (IsSpelling kind bytes.now (cells_of runs.new)) }
    ensures counted { OnOk result (length (cells_of runs.new) ≡ length runs.old.values.items) }
    ensures counts { OnOk result (length runs.new.counts.items ≡ run_count kind bytes.now) }
    ensures damaged { IsErrOf result ReadError.Damaged
        → IsNoSpelling (length runs.old.values.items) kind bytes.now }
    ensures no_memory { IsErrOf result ReadError.NoMemory
        → vec_capacity runs.old.counts < length runs.old.values.items }
    ensures capacity { vec_capacity runs.old.counts ≤ vec_capacity runs.new.counts }
    ensures room { length runs.new.values.items ≡ length runs.old.values.items }
{
    let size = 2 + width(kind);
    let count = bytes.len() / size;
    if bytes.len() % size != 0 || runs.values.len() < count {
        return Err(ReadError::Damaged);
    }
    runs.is_narrow = false;
    runs.counts.resize(count, 0)?;
    if read_values(kind, bytes, &mut runs.values, &mut runs.counts) {
        Ok(())
    } else {
        Err(ReadError::Damaged)
    }
}
