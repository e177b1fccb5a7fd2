//! Condensers over windows of a grid.

ghost use Rattle.std.specs.Prelude.{◌*◌, ◌≤◌, ◌^◌, length, All, IsTrue};
ghost use Rattle.tile_kernel.specs.declared.windows.Span.{Span};

use crate::words::{aggregate, shown};
use anyhow::{Result, bail};
use std::alloc::Global;
use test_rows::{cut, cut_at, index, numbers};
use tile_kernel::{Grid, Span, condense_windows};
use wcps_mean::Outcome;
use wcps_text::Aggregate;

/// How many cells a grid has here at most.
const MOST: usize = 65_536;

/// Spans, as `0-2,1-3`, each from the first item to before the last number.
fn spans(alloc: Global, words: &str) -> Result<Vec<Span>> {
    let mut spans = Vec::new(alloc);
    for word in words.split(',') {
        let (from, to) = cut_at(word, '-');
        let from = index(from)?;
        let to = index(to)?;
        spans.push(Span { from, to })?;
    }
    Ok(spans)
}

/// Whether the spans lie in a grid.
fn are_within(grid: &Grid<'_>, down: &[Span], across: &[Span]) -> bool
    ensures down { IsTrue result → All (λ (d : Span). d.to * grid.now.width ≤ length grid.now.cells.now) down.now }
    ensures across { IsTrue result → All (λ (a : Span). a.to ≤ grid.now.width) across.now }
    ensures few { IsTrue result → length grid.now.cells.now ≤ 2 ^ 24 }
{
    if grid.width > MOST || grid.cells.len() > MOST {
        return false;
    }
    if !down
        .iter()
        .all(|d| d.to <= MOST && d.to * grid.width <= grid.cells.len())
    {
        return false;
    }
    across.iter().all(|a| a.to <= grid.width)
}

/// The outcomes, one after the other.
fn text(alloc: Global, outcomes: &[Outcome]) -> Result<String> {
    let mut text = String::new(alloc);
    for outcome in outcomes {
        if !text.is_empty() {
            text.push(',')?;
        }
        text.push_str(shown(alloc, *outcome)?.as_str())?;
    }
    Ok(text)
}

/// The outcomes of the windows of a grid that lie in some rows and columns.
fn condensed(
    alloc: Global,
    op: Aggregate,
    grid: &Grid<'_>,
    down: &[Span],
    across: &[Span],
) -> Result<String> {
    if !are_within(grid, down, across) {
        bail!("a span outside of the grid");
    }
    let mut outcomes = Vec::new(alloc);
    outcomes.push(Outcome::Value(7))?;
    condense_windows(alloc, op, grid, down, across, &mut outcomes)?;
    text(alloc, outcomes.as_slice())
}

/// The same, as `0-1,0-2 0-2,1-3`: the spans of rows and those of columns.
fn over_windows(alloc: Global, op: Aggregate, grid: &Grid<'_>, words: &str) -> Result<String> {
    let (down, across) = cut(words);
    let down = spans(alloc, down)?;
    let across = spans(alloc, across)?;
    condensed(alloc, op, grid, down.as_slice(), across.as_slice())
}

/// The outcomes of the windows of a grid, as `sum 3 1,2,3,4,5,6 0-1,0-2 0-2,1-3`: its width, its cells, the spans of
/// rows and those of columns.
pub fn windowed(alloc: Global, words: &str) -> Result<String> {
    let (op, rest) = cut(words);
    let (width, rest) = cut(rest);
    let (cells, spans) = cut(rest);
    let op = aggregate(op)?;
    let width = index(width)?;
    let cells = numbers(alloc, cells)?;
    let grid = Grid {
        cells: cells.as_slice(),
        width,
    };
    over_windows(alloc, op, &grid, spans)
}
