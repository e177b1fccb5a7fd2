//! Condensers over windows: what is combined of the cells round each place of a box. Each row of cells is condensed
//! once for each span of columns, and of these a window puts its rows together.

ghost use Rattle.std.specs.Prelude.{◌≡◌, ℕ, ◌+◌, ◌*◌, ◌<◌, ◌≤◌, ◌++◌, length, slice_index_or, IfOk, OnOk};
ghost use Rattle.std.specs.List.{All};
ghost use Rattle.arr_core.specs.Limits.{max_points};
ghost use Rattle.wcps_mean.specs.Condensers.{combined};
ghost use Rattle.tile_kernel.specs.Windows.{cells_across, window, windows_of_rows, windows, KeepsAcross};

use crate::summaries::{AllTrue, Factors, Greatest, Least, Mean, SomeTrue, Total, Trues};
use crate::summary::Summary;
use std::alloc::{AllocError, Global};
use wcps_mean::Outcome;
use wcps_text::Aggregate;

/// Neighbouring items of a line: from the first one to before the second one; none where that is not above.
#[derive(Clone, Copy)]
pub struct Span {
    /// The first one.
    pub from: usize,
    /// The one behind the last.
    pub to: usize,
}

/// Cells in rows of so many, one row after the other.
#[derive(Clone, Copy)]
pub struct Grid<'a> {
    /// The cells.
    pub cells: &'a [i64],
    /// How many a row has.
    pub width: usize,
}

/// How many rows the spans reach into, from the first row on.
fn reach(down: &[Span]) -> usize
    ensures within { All (λ d. d.to ≤ result) down.now }
    ensures reached { (width n : ℕ) → All (λ d. d.to * width ≤ n) down.now → result * width ≤ n }
{
    let mut reach = 0;
    for k in 0..down.len() {
        reach = reach.max(down[k].to);
    }
    reach
}

/// What is kept of a row's cells in a span of columns.
fn summary_across<S: Summary>(grid: &Grid<'_>, row: usize, across: Span) -> S
    requires row { (row + 1) * grid.now.width ≤ length grid.now.cells.now }
    requires across { across.to ≤ grid.now.width }
    requires few { length grid.now.cells.now ≤ max_points }
    ensures kept { S.keeps result (cells_across grid.now across row) }
    ensures few { S.counted result ≤ grid.now.width }
{
    let start = row * grid.width;
    let mut all = S::none();
    for column in across.from..across.to {
        all = all.with(S::of(grid.cells[start + column]));
    }
    all
}

/// Puts what is kept of one more row's cells, in each span of columns, to those of the rows before.
fn add_row<S: Summary>(kept: &mut [S], grid: &Grid<'_>, row: usize, across: &[Span])
    requires row { (row + 1) * grid.now.width ≤ length grid.now.cells.now }
    requires across { All (λ a. a.to ≤ grid.now.width) across.now }
    requires few { length grid.now.cells.now ≤ max_points }
    requires room { (row + 1) * length across.now ≤ length kept.old }
    requires before { KeepsAcross S.keeps S.counted grid.now across.now (row * length across.now) kept.old }
    ensures { KeepsAcross S.keeps S.counted grid.now across.now ((row + 1) * length across.now) kept.new }
{
    let start = row * across.len();
    for place in 0..across.len() {
        kept[start + place] = summary_across(grid, row, across[place]);
    }
}

/// Makes the summaries those of the cells of the first rows, in each span of columns, one row after the other.
fn add_rows<S: Summary>(kept: &mut [S], grid: &Grid<'_>, rows: usize, across: &[Span])
    requires rows { rows * grid.now.width ≤ length grid.now.cells.now }
    requires across { All (λ a. a.to ≤ grid.now.width) across.now }
    requires few { length grid.now.cells.now ≤ max_points }
    requires room { rows * length across.now ≤ length kept.old }
    ensures { KeepsAcross S.keeps S.counted grid.now across.now (rows * length across.now) kept.new }
{
    for row in 0..rows {
        add_row(kept, grid, row, across);
    }
}

/// What is kept of the cells of each of the first rows, in each span of columns, one row after the other.
fn rows_across<S: Summary>(
    alloc: Global,
    grid: &Grid<'_>,
    rows: usize,
    across: &[Span],
) -> Result<Vec<S>, AllocError>
    requires rows { rows * grid.now.width ≤ length grid.now.cells.now }
    requires across { All (λ a. a.to ≤ grid.now.width) across.now }
    requires few { length grid.now.cells.now ≤ max_points }
    ensures kept { IfOk result (λ v. KeepsAcross S.keeps S.counted grid.now across.now (rows * length across.now) v.items) }
    ensures length { IfOk result (λ v. length v.items ≡ rows * length across.now) }
{
    let size = rows.checked_mul(across.len()).ok_or(AllocError)?;
    let mut kept = vec![in alloc; S::none(); size]?;
    add_rows(kept.as_mut_slice(), grid, rows, across);
    Ok(kept)
}

/// The outcome of a window: of the rows in a span, in one of the spans of columns.
fn window_outcome<S: Summary>(
    kept: &[S],
    grid: &Grid<'_>,
    down: Span,
    across: &[Span],
    place: usize,
) -> Outcome
    requires place { place < length across.now }
    requires down { down.to * length across.now ≤ length kept.now }
    requires rows { down.to * grid.now.width ≤ max_points }
    requires kept { KeepsAcross S.keeps S.counted grid.now across.now (down.to * length across.now) kept.now }
    ensures { result ≡ combined S.op (window grid.now down (slice_index_or across.now place down)) }
{
    let width = across.len();
    let mut all = S::none();
    for row in down.from..down.to {
        all = all.with(kept[row * width + place]);
    }
    all.outcome()
}

/// Puts the outcomes of the windows of a row of places behind others.
fn push_row<S: Summary>(
    outcomes: &mut Vec<Outcome>,
    kept: &[S],
    grid: &Grid<'_>,
    down: Span,
    across: &[Span],
) -> Result<(), AllocError>
    requires down { down.to * length across.now ≤ length kept.now }
    requires rows { down.to * grid.now.width ≤ max_points }
    requires kept { KeepsAcross S.keeps S.counted grid.now across.now (down.to * length across.now) kept.now }
    ensures { OnOk result (outcomes.new.items ≡ outcomes.old.items ++ windows_of_rows S.op grid.now across.now down) }
{
    for place in 0..across.len() {
        outcomes.push(window_outcome(kept, grid, down, across, place))?;
    }
    Ok(())
}

/// The outcomes of all windows, by the summary of their condenser.
fn condense_by<S: Summary>(
    alloc: Global,
    grid: &Grid<'_>,
    down: &[Span],
    across: &[Span],
    outcomes: &mut Vec<Outcome>,
) -> Result<(), AllocError>
    requires down { All (λ d. d.to * grid.now.width ≤ length grid.now.cells.now) down.now }
    requires across { All (λ a. a.to ≤ grid.now.width) across.now }
    requires few { length grid.now.cells.now ≤ max_points }
    ensures { OnOk result (outcomes.new.items ≡ windows S.op grid.now down.now across.now) }
{
    let kept: Vec<S> = rows_across(alloc, grid, reach(down), across)?;
    outcomes.clear();
    outcomes.reserve(down.len().checked_mul(across.len()).ok_or(AllocError)?)?;
    for k in 0..down.len() {
        push_row(outcomes, kept.as_slice(), grid, down[k], across)?;
    }
    Ok(())
}

/// Makes the outcomes those of the windows of a box of places, in row-major order: a span of rows for each row of
/// places, and a span of columns for each place of a row. A window is the cells in both, and its outcome is their
/// combination. The cost of a place grows with the sum of the lengths of its spans, and not with their product.
pub fn condense_windows(
    alloc: Global,
    op: Aggregate,
    grid: &Grid<'_>,
    down: &[Span],
    across: &[Span],
    outcomes: &mut Vec<Outcome>,
) -> Result<(), AllocError>
    requires down { All (λ d. d.to * grid.now.width ≤ length grid.now.cells.now) down.now }
    requires across { All (λ a. a.to ≤ grid.now.width) across.now }
    requires few { length grid.now.cells.now ≤ max_points }
    ensures { OnOk result (outcomes.new.items ≡ windows op grid.now down.now across.now) }
{
    match op {
        Aggregate::Sum => condense_by::<Total>(alloc, grid, down, across, outcomes),
        Aggregate::Product => condense_by::<Factors>(alloc, grid, down, across, outcomes),
        Aggregate::Greatest => condense_by::<Greatest>(alloc, grid, down, across, outcomes),
        Aggregate::Least => condense_by::<Least>(alloc, grid, down, across, outcomes),
        Aggregate::Every => condense_by::<AllTrue>(alloc, grid, down, across, outcomes),
        Aggregate::Any => condense_by::<SomeTrue>(alloc, grid, down, across, outcomes),
        Aggregate::Count => condense_by::<Trues>(alloc, grid, down, across, outcomes),
        Aggregate::Average => condense_by::<Mean>(alloc, grid, down, across, outcomes),
    }
}
