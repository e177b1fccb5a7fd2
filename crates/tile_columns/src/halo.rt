//! The cells around the places of windows, and what becomes of those within reach of each place.

ghost use Rattle.std.specs.Prelude.{◌≡◌, ◌+◌, ◌++◌, length, map, OnOk, IfOk};
ghost use Rattle.tile_columns.specs.Sources.{FetchesAtMost};
ghost use Rattle.tile_columns.specs.Calling.{Reads, FetchesOnce};
ghost use Rattle.tile_columns.specs.Meaning.{IsGroundOf};
ghost use Rattle.tile_columns.specs.Readings.{IsThere, ReadsInside, tiles_of};
ghost use Rattle.tile_columns.specs.Windows.{CanRead, IsReady, AreRowsOf, AreWindowsOf, AddsRead, AddsRows, HasHalo, halo_cells, row_cells, window_places, value_of};

use crate::frame::Frame;
use crate::gather::{Reading, read};
use crate::ground::Ground;
use crate::reach::{Extents, narrow, size_of, spans_of};
use crate::scratch::Scratch;
use crate::source::Tiles;
use crate::windows::Window;
use arr_core::coordinate;
use plan_ir::{Index, Interval};
use std::alloc::AllocError;
use tile_kernel::{Column, Grid, MAX_PLACES, condense_windows};
use wcps_mean::{CellError, Outcome};

/// The value of an outcome, or 0 of a fault.
fn value_of(o: Outcome) -> i64
    ensures { result ≡ value_of o }
{
    match o {
        Outcome::Value(z) => z,
        Outcome::Fault(_) => 0,
    }
}

/// Puts the values of a column at the end of a list.
fn push_values(column: &Column, cells: &mut Vec<i64>) -> Result<(), AllocError>
    ensures { OnOk result (cells.new.items ≡ cells.old.items ++ map value_of column.now) }
{
    if let Some(values) = column.values() {
        return cells.extend_from_slice(values);
    }
    for place in 0..column.len() {
        cells.push(value_of(column.at(place)))?;
    }
    Ok(())
}

/// Puts the cells that are read at the places of a frame at the end of a list.
fn push_cells<S: Tiles>(
    source: &mut S,
    reading: &Reading<'_>,
    frame: &Frame,
    scratch: &mut Scratch,
    cells: &mut Vec<i64>,
) -> Result<(), CellError>
    requires there { IsThere (S.state source.old) reading.now }
    requires inside { ReadsInside reading.now frame.now }
    ensures value { OnOk result (AddsRead (S.state source.old) reading.now frame.now cells.old.items cells.new.items) }
    ensures many { OnOk result (length cells.new.items ≡ length cells.old.items + length frame.now) }
    ensures reads { Reads S.Tiles result source.old source.new }
    ensures fetched { OnOk result (FetchesOnce (tiles_of reading.now frame.now) S.Tiles source.old source.new) }
{
    let mut column = scratch.take_column()?;
    read(source, reading, frame, scratch, &mut column)?;
    push_values(&column, cells)?;
    scratch.give_back(column);
    Ok(())
}

/// Puts the cells of some rows of the halo of windows at the end of a list.
fn read_rows<S: Tiles>(
    source: &mut S,
    ground: &Ground<'_>,
    window: &Window,
    rows: Interval,
    scratch: &mut Scratch,
    cells: &mut Vec<i64>,
) -> Result<(), CellError>
    requires signatures { IsGroundOf (S.state source.old) ground.now }
    requires there { CanRead ground.now window.now }
    requires rows { AreRowsOf window.now rows }
    ensures value { OnOk result (AddsRows (S.state source.old) window.now rows cells.old.items cells.new.items) }
    ensures many { OnOk result (length cells.new.items ≡ length cells.old.items + row_cells window.now rows) }
    ensures reads { Reads S.Tiles result source.old source.new }
    ensures fetched { OnOk result (FetchesAtMost (row_cells window.now rows) (S.state source.old) (S.state source.new)) }
{
    let extents = Extents {
        rows,
        columns: window.columns.halo,
    };
    let signature = &ground.signatures[window.place];
    let area = narrow(scratch.alloc(), &signature.domain, extents)?;
    let frame = Frame::of_box(scratch.alloc(), &area)?;
    let reading = Reading {
        coverage: window.place,
        field: window.pattern.field,
        domain: &signature.domain,
        indexes: &[Index::Var(0), Index::Var(1)],
    };
    push_cells(source, &reading, &frame, scratch, cells)?;
    Ok(())
}

/// The cells of the halo of windows, row by row: as many rows at once as make a column.
fn cells_of<S: Tiles>(
    source: &mut S,
    ground: &Ground<'_>,
    window: &Window,
    scratch: &mut Scratch,
) -> Result<Vec<i64>, CellError>
    requires signatures { IsGroundOf (S.state source.old) ground.now }
    requires ready { IsReady ground.now window.now }
    ensures value { IfOk result (λ v. HasHalo (S.state source.old) window.now v.items) }
    ensures many { IfOk result (λ v. length v.items ≡ halo_cells window.now) }
    ensures reads { Reads S.Tiles result source.old source.new }
    ensures fetched { OnOk result (FetchesAtMost (halo_cells window.now) (S.state source.old) (S.state source.new)) }
{
    let halo = window.rows.halo;
    let height = size_of(halo);
    let most = MAX_PLACES as u64 / size_of(window.columns.halo);
    let mut cells = Vec::new(scratch.alloc());
    let mut done = 0;
    while done < height {
        let count = most.min(height - done);
        let rows = Interval {
            lo: coordinate(halo.lo, halo.hi, done),
            hi: coordinate(halo.lo, halo.hi, done + (count - 1)),
        };
        read_rows(source, ground, window, rows, scratch, &mut cells)?;
        done += count;
    }
    Ok(cells)
}

/// Makes `out` what becomes of the cells within reach of each place of windows.
pub(crate) fn condense_window<S: Tiles>(
    source: &mut S,
    ground: &Ground<'_>,
    window: &Window,
    scratch: &mut Scratch,
    out: &mut Column,
) -> Result<(), CellError>
    requires signatures { IsGroundOf (S.state source.old) ground.now }
    requires ready { IsReady ground.now window.now }
    ensures value { OnOk result (AreWindowsOf (S.state source.old) window.now out.new) }
    ensures places { OnOk result (length out.new ≡ window_places window.now) }
    ensures reads { Reads S.Tiles result source.old source.new }
    ensures fetched { OnOk result (FetchesAtMost (halo_cells window.now) (S.state source.old) (S.state source.new)) }
{
    let cells = cells_of(source, ground, window, scratch)?;
    let down = spans_of(scratch.alloc(), &window.rows)?;
    let across = spans_of(scratch.alloc(), &window.columns)?;
    let grid = Grid {
        cells: &cells,
        width: size_of(window.columns.halo) as usize,
    };
    condense_windows(
        scratch.alloc(),
        window.op,
        &grid,
        &down,
        &across,
        &mut scratch.outcomes,
    )?;
    out.write_outcomes(&scratch.outcomes);
    Ok(())
}
