//! The runs of a tile, read one after another into its cells.

ghost use Rattle.std.specs.Prelude.{◌≡◌, ◌+◌, ◌≤◌, ◌<◌, ◌++◌, None, false, length, take, replicate, IfSome, IfNone, IsTrue, ◌↔◌, Some};
ghost use Rattle.run_tile.specs.Runs.{IsSpelling, IsNoSpelling, run_count};
ghost use Rattle.run_tile.specs.Reading.{AreRead};

use crate::run::{Run, width};
use arr_core::{FieldType, write_run};

/// How far the reading has come: so many runs, so many cells, and the value of the last run.
#[derive(Clone, Copy)]
pub struct Progress {
    pub runs: usize,
    pub cells: usize,
    pub last: Option<i64>,
}

/// Whether the run before, if there was one, had the value of this one.
#[inline(always)]
pub(crate) fn repeats(before: Option<i64>, run: Run) -> bool
    ensures { IsTrue result ↔ before ≡ Some run.value }
{
    before == Some(run.value)
}

/// How many runs are read before it is looked at of what kind they were.
const FEW: usize = 8;

/// Writes the cell of a run of one.
#[inline(always)]
fn write_cell(cells: &mut [i64], place: usize, run: Run)
    requires one { run.count ≡ 1 }
    requires within { place < length cells.old }
    ensures { take (place + run.count) cells.new ≡ take place cells.old ++ replicate run.count run.value }
{
    cells[place] = run.value;
}

/// Reads on while runs of one cell come, of which noise consists, and stops before any other.
#[inline(always)]
fn read_singles(kind: FieldType, bytes: &[u8], cells: &mut [i64], at: Progress) -> Progress
    requires read { AreRead kind bytes.now cells.old at }
    requires inside { at.runs ≤ run_count kind bytes.now }
    ensures read { AreRead kind bytes.now cells.new result }
    ensures inside { result.runs ≤ run_count kind bytes.now }
    ensures further { at.runs ≤ result.runs }
{
    let size = 2 + width(kind);
    let room = (bytes.len() / size - at.runs).min(cells.len() - at.cells);
    let mut last = at.last;
    for k in 0..room {
        let run = Run::read_at(kind, bytes, at.runs + k);
        if run.count != 1 || !run.is_run(kind) || repeats(last, run) {
            return Progress {
                runs: at.runs + k,
                cells: at.cells + k,
                last,
            };
        }
        write_cell(cells, at.cells + k, run);
        last = Some(run.value);
    }
    Progress {
        runs: at.runs + room,
        cells: at.cells + room,
        last,
    }
}

/// Reads one more run, of any length: `None` where there is no spelling of so many cells.
#[inline(always)]
fn read_run(kind: FieldType, bytes: &[u8], cells: &mut [i64], at: Progress) -> Option<Progress>
    requires read { AreRead kind bytes.now cells.old at }
    requires inside { at.runs < run_count kind bytes.now }
    ensures read { IfSome result (λ next. AreRead kind bytes.now cells.new next) }
    ensures next { IfSome result (λ next. next.runs ≡ at.runs + 1) }
    ensures damaged { IfNone result (IsNoSpelling (length cells.old) kind bytes.now) }
{
    let run = Run::read_at(kind, bytes, at.runs);
    let after = at.cells + run.count as usize;
    if !run.is_run(kind) || repeats(at.last, run) || cells.len() < after {
        return None;
    }
    write_run(cells, at.cells, run.count as usize, run.value);
    Some(Progress {
        runs: at.runs + 1,
        cells: after,
        last: Some(run.value),
    })
}

/// Reads a few runs more, of any length, or those that are left: `None` where there is no spelling of so many cells.
#[inline(always)]
fn read_few(kind: FieldType, bytes: &[u8], cells: &mut [i64], from: Progress) -> Option<Progress>
    requires read { AreRead kind bytes.now cells.old from }
    requires inside { from.runs < run_count kind bytes.now }
    ensures read { IfSome result (λ next. AreRead kind bytes.now cells.new next) }
    ensures inside { IfSome result (λ next. next.runs ≤ run_count kind bytes.now) }
    ensures further { IfSome result (λ next. from.runs < next.runs) }
    ensures damaged { IfNone result (IsNoSpelling (length cells.old) kind bytes.now) }
{
    let end = (bytes.len() / (2 + width(kind))).min(from.runs + FEW);
    let mut at = from;
    'few: while at.runs < end {
        match read_run(kind, bytes, cells, at) {
            Some(next) => at = next,
            None => return None,
        }
    }
    Some(at)
}

/// Whether the bytes spell as many cells of a type as there is room for, which are written then. Where a few runs had
/// one cell each, the following ones are read by the loop for such.
#[inline(always)]
fn read_runs(kind: FieldType, bytes: &[u8], cells: &mut [i64]) -> bool
    ensures spelled { IsTrue result → IsSpelling kind bytes.now cells.new }
    ensures damaged { (result ≡ false) → IsNoSpelling (length cells.old) kind bytes.now }
{
    let size = 2 + width(kind);
    if bytes.len() % size != 0 {
        return false;
    }
    let runs = bytes.len() / size;
    let mut at = Progress {
        runs: 0,
        cells: 0,
        last: None,
    };
    let mut single = true;
    'parts: while at.runs < runs {
        if single {
            at = read_singles(kind, bytes, cells, at);
        }
        if at.runs < runs {
            let before = at;
            match read_few(kind, bytes, cells, at) {
                Some(next) => at = next,
                None => return false,
            }
            single = at.cells == before.cells + (at.runs - before.runs);
        }
    }
    at.cells == cells.len()
}

/// The same, by a loop of its own for each type.
pub fn read_cells(kind: FieldType, bytes: &[u8], cells: &mut [i64]) -> bool
    ensures spelled { IsTrue result → IsSpelling kind bytes.now cells.new }
    ensures damaged { (result ≡ false) → IsNoSpelling (length cells.old) kind bytes.now }
{
    match kind {
        FieldType::Bool => read_runs(FieldType::Bool, bytes, cells),
        FieldType::U8 => read_runs(FieldType::U8, bytes, cells),
        FieldType::I16 => read_runs(FieldType::I16, bytes, cells),
        FieldType::I32 => read_runs(FieldType::I32, bytes, cells),
        FieldType::I64 => read_runs(FieldType::I64, bytes, cells),
    }
}
