//! Cells as they are kept, as runs or one by one: copied, and written from there.

ghost use Rattle.std.specs.Prelude.{◌≡◌, ◌≤◌, ◌++◌, length, take, IsTrue, IfOk, OnOk};
ghost use Rattle.arr_core.specs.Runs.{cells_of};

use arr_core::{RunList, widen};
use std::alloc::{AllocError, Global};
use std::mem;

/// The same cells again, one by one.
pub(crate) fn list_of(alloc: Global, cells: &[i64]) -> Result<RunList, AllocError>
    ensures { IfOk result (λ list. cells_of list ≡ cells.now) }
{
    let mut values = Vec::with_capacity(alloc, cells.len())?;
    values.extend_from_slice(cells)?;
    Ok(RunList::of(alloc, values, Vec::new(alloc)))
}

/// The same cells again, in 32 bits.
fn narrow_of(alloc: Global, cells: &[i32]) -> Result<RunList, AllocError>
    ensures { IfOk result (λ list. cells_of list ≡ cells.now) }
{
    let mut narrow = Vec::with_capacity(alloc, cells.len())?;
    narrow.extend_from_slice(cells)?;
    Ok(RunList {
        values: Vec::new(alloc),
        counts: Vec::new(alloc),
        narrow,
        is_narrow: true,
    })
}

/// The same cells again, in 32 bits where they lie so, and with no more values than are needed.
pub(crate) fn copy_of(alloc: Global, runs: &RunList) -> Result<RunList, AllocError>
    ensures { IfOk result (λ copy. cells_of copy ≡ cells_of runs.now) }
{
    if runs.is_narrow {
        let list = narrow_of(alloc, &runs.narrow)?;
        return Ok(list);
    }
    if runs.counts.is_empty() {
        let list = list_of(alloc, &runs.values)?;
        return Ok(list);
    }
    let used = runs.values.len().min(runs.counts.len());
    let mut values = Vec::with_capacity(alloc, used)?;
    values.extend_from_slice(&runs.values[..used])?;
    let mut counts = Vec::with_capacity(alloc, runs.counts.len())?;
    counts.extend_from_slice(&runs.counts)?;
    Ok(RunList::of(alloc, values, counts))
}

/// Adds numbers of 32 bits behind cells.
fn append_narrow(narrow: &[i32], cells: &mut Vec<i64>) -> Result<(), AllocError>
    ensures { OnOk result (cells.new.items ≡ cells.old.items ++ narrow.now) }
{
    let from = cells.len();
    cells.resize(from + narrow.len(), 0)?;
    widen(&mut cells[from..], narrow);
    Ok(())
}

/// Adds the cells of runs behind others.
pub(crate) fn append_cells(runs: &RunList, cells: &mut Vec<i64>) -> Result<(), AllocError>
    ensures { OnOk result (cells.new.items ≡ cells.old.items ++ cells_of runs.now) }
{
    if runs.is_narrow {
        append_narrow(&runs.narrow, cells)?;
        return Ok(());
    }
    if runs.counts.is_empty() {
        cells.extend_from_slice(&runs.values)?;
        return Ok(());
    }
    let used = runs.values.len().min(runs.counts.len());
    for place in 0..used {
        let end = cells.len() + runs.counts[place] as usize;
        cells.resize(end, runs.values[place])?;
    }
    Ok(())
}

/// Copies so many of the first values.
fn copy_front(to: &mut [i64], from: &[i64], count: usize)
    requires within { count ≤ length from.now }
    requires room { count ≤ length to.old }
    ensures { take count to.new ≡ take count from.now }
{
    to[..count].copy_from_slice(&from[..count]);
}

/// Makes a list that of numbers of 32 bits, where it has as many values, which it tells. It keeps these.
fn write_narrow(runs: &mut RunList, from: &[i32]) -> Result<bool, AllocError>
    ensures cells { IfOk result (λ done. IsTrue done → cells_of runs.new ≡ from.now) }
    ensures room { length runs.new.values.items ≡ length runs.old.values.items }
{
    if from.len() != runs.values.len() {
        return Ok(false);
    }
    runs.is_narrow = true;
    runs.narrow.clear();
    runs.narrow.extend_from_slice(from)?;
    Ok(true)
}

/// Makes a list that of another one of 32 bits, and gives what it held for it. It keeps its values.
pub(crate) fn exchange_narrow(runs: &mut RunList, from: &mut RunList)
    requires { IsTrue from.old.is_narrow }
    ensures cells { cells_of runs.new ≡ cells_of from.old }
    ensures room { length runs.new.values.items ≡ length runs.old.values.items }
{
    runs.is_narrow = from.is_narrow;
    runs.counts.clear();
    mem::swap(&mut runs.narrow, &mut from.narrow);
}

/// Makes a list that of the cells of another one, where it has room for the values, which it tells. It keeps as many
/// values as it has.
pub(crate) fn write_list(runs: &mut RunList, from: &RunList) -> Result<bool, AllocError>
    ensures cells { IfOk result (λ done. IsTrue done → cells_of runs.new ≡ cells_of from.now) }
    ensures room { length runs.new.values.items ≡ length runs.old.values.items }
{
    runs.counts.clear();
    if from.is_narrow {
        return write_narrow(runs, &from.narrow);
    }
    runs.is_narrow = false;
    if from.counts.is_empty() {
        if from.values.len() != runs.values.len() {
            return Ok(false);
        }
        runs.values.copy_from_slice(&from.values);
        return Ok(true);
    }
    let used = from.counts.len();
    if from.values.len() < used || runs.values.len() < used {
        return Ok(false);
    }
    runs.counts.extend_from_slice(&from.counts)?;
    copy_front(&mut runs.values, &from.values, used);
    Ok(true)
}
