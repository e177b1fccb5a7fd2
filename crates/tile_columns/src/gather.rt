//! Reads at all places of a column: each tile that holds a cell of it is fetched once. Where the places read few tiles,
//! one tile after the other is copied to all places that read it; else the places are put in the order of their tiles.

ghost use Rattle.std.specs.Prelude.{◌≡◌, ◌≢◌, ◌<◌, ◌≤◌, pos, length, slice_index_or, IfSome, OnOk};
ghost use Rattle.arr_core.specs.Limits.{max_tile};
ghost use Rattle.arr_core.specs.Domains.{count};
ghost use Rattle.tile_columns.specs.Sources.{OneMore, box_in};
ghost use Rattle.tile_columns.specs.Calling.{Reads, FetchesOnce};
ghost use Rattle.tile_columns.specs.Readings.{IsThere, ReadsInside, ReadsWhole, IsTileColumn, tiles_of, AreCellsRead, IsColumnRead};
ghost use Rattle.tile_columns.specs.Stretches.{IsTileRead};
ghost use Rattle.tile_columns.specs.Gathering.{HasRanks, CopiesTile, IsLocated, AreListed, IsListed, KeepsGathered, WritesTile};

use crate::different::list_tiles;
use crate::frame::Frame;
use crate::locate::{Located, locate};
use crate::numbers::fill_list;
use crate::scratch::Scratch;
use crate::source::Tiles;
use crate::stretches::{FEW, gather_stretches};
use arr_core::{Domain, RunList};
use plan_ir::Index;
use std::alloc::AllocError;
use tile_kernel::{Column, MAX_PLACES};
use wcps_mean::CellError;

/// How many different tiles are copied one after the other, each to all places that read it.
const MOST_TILES: usize = 8;

/// What is read: a coverage of the plan and a field, by their places, the coverage's domain, and an index for each
/// axis.
#[derive(Clone, Copy)]
pub struct Reading<'a> {
    pub coverage: usize,
    pub field: usize,
    pub domain: &'a Domain,
    pub indexes: &'a [Index],
}

/// The cell of a place if its tile is this one, else the cell that was there.
fn copied(at: Located, number: u64, tile: &[i64], before: i64) -> i64
    requires { at.tile ≡ number → at.rank < length tile.now }
    ensures copied { at.tile ≡ number → result ≡ slice_index_or tile.now at.rank (pos 0) }
    ensures kept { at.tile ≢ number → result ≡ before }
{
    if at.tile != number {
        return before;
    }
    tile[at.rank as usize]
}

/// Writes the cells of all places whose tile is this one; there are the number of each place's tile and its rank in it.
fn copy_tile(numbers: &[u64], ranks: &[u64], number: u64, tile: &[i64], cells: &mut Vec<i64>)
    requires ranks { length ranks.now ≡ length numbers.now }
    requires cells { length cells.old.items ≡ length numbers.now }
    requires inside { HasRanks number numbers.now ranks.now tile.now }
    ensures { CopiesTile number numbers.now ranks.now tile.now cells.old.items cells.new.items }
{
    let all = cells.as_mut_slice();
    for place in 0..numbers.len() {
        let at = Located {
            tile: numbers[place],
            rank: ranks[place],
        };
        all[place] = copied(at, number, tile, all[place]);
    }
}

/// Fetches one of the tiles that are listed, and writes the cells of all places whose tile it is.
fn fetch_listed<S: Tiles>(
    source: &mut S,
    reading: &Reading<'_>,
    frame: &Frame,
    k: usize,
    scratch: &mut Scratch,
) -> Result<(), CellError>
    requires there { IsThere (S.state source.old) reading.now }
    requires inside { ReadsInside reading.now frame.now }
    requires located { IsLocated reading.now frame.now scratch.old }
    requires listed { IsListed reading.now frame.now k scratch.old }
    ensures value { OnOk result (KeepsGathered (S.state source.old) reading.now frame.now k scratch.old scratch.new) }
    ensures located { OnOk result (IsLocated reading.now frame.now scratch.new) }
    ensures listed { OnOk result (scratch.new.seen.items ≡ scratch.old.seen.items) }
    ensures fetched { OnOk result (OneMore (S.state source.old).fetched (S.state source.new).fetched) }
    ensures reads { Reads S.Tiles result source.old source.new }
{
    let number = scratch.seen[k];
    source.tile(reading.coverage, reading.field, number, &mut scratch.tile)?;
    copy_fetched(number, scratch);
    Ok(())
}

/// Writes the cells of all places whose tile was fetched last.
fn copy_fetched(number: u64, scratch: &mut Scratch)
    requires ranks { length scratch.old.ranks.items ≡ length scratch.old.numbers.items }
    requires cells { length scratch.old.cells.items ≡ length scratch.old.numbers.items }
    requires inside { HasRanks number scratch.old.numbers.items scratch.old.ranks.items scratch.old.tile.items }
    ensures { WritesTile number scratch.old scratch.new }
{
    copy_tile(
        &scratch.numbers,
        &scratch.ranks,
        number,
        &scratch.tile,
        &mut scratch.cells,
    );
}

/// Makes scratch cells those that are read at each place, of tiles that are listed.
fn gather_listed<S: Tiles>(
    source: &mut S,
    reading: &Reading<'_>,
    frame: &Frame,
    scratch: &mut Scratch,
) -> Result<(), CellError>
    requires there { IsThere (S.state source.old) reading.now }
    requires inside { ReadsInside reading.now frame.now }
    requires located { IsLocated reading.now frame.now scratch.old }
    requires listed { AreListed reading.now frame.now scratch.old }
    ensures value { OnOk result (AreCellsRead (S.state source.old) reading.now frame.now scratch.new.cells.items) }
    ensures places { OnOk result (length scratch.new.cells.items ≡ length frame.now) }
    ensures reads { Reads S.Tiles result source.old source.new }
    ensures fetched { OnOk result (FetchesOnce (tiles_of reading.now frame.now) S.Tiles source.old source.new) }
{
    let tiles = scratch.seen.len();
    for k in 0..tiles {
        fetch_listed(source, reading, frame, k, scratch)?;
    }
    Ok(())
}

/// Makes scratch cells those that are read at each place.
fn gather<S: Tiles>(
    source: &mut S,
    reading: &Reading<'_>,
    frame: &Frame,
    scratch: &mut Scratch,
) -> Result<(), CellError>
    requires there { IsThere (S.state source.old) reading.now }
    requires inside { ReadsInside reading.now frame.now }
    ensures value { OnOk result (AreCellsRead (S.state source.old) reading.now frame.now scratch.new.cells.items) }
    ensures places { OnOk result (length scratch.new.cells.items ≡ length frame.now) }
    ensures reads { Reads S.Tiles result source.old source.new }
    ensures fetched { OnOk result (FetchesOnce (tiles_of reading.now frame.now) S.Tiles source.old source.new) }
{
    locate(reading, frame, scratch)?;
    fill_list(frame.places(), 0, &mut scratch.cells)?;
    let most = MOST_TILES.min(frame.places() / FEW);
    if list_tiles(&scratch.numbers, most, &mut scratch.seen)? {
        gather_listed(source, reading, frame, scratch)?;
        return Ok(());
    }
    gather_stretches(source, reading, frame, scratch)?;
    Ok(())
}

/// The number of the tile whose box the indexes go over, point for point, if there is such a tile.
fn whole_tile(reading: &Reading<'_>, frame: &Frame) -> Option<u64>
    ensures { IfSome result (ReadsWhole reading.now frame.now) }
{
    if frame.places() == 0 {
        return None;
    }
    frame.tile_under(reading.indexes, reading.domain)
}

/// Gives a list of runs as many values as a column has places at most.
fn make_room(runs: &mut RunList) -> Result<(), AllocError>
    ensures { OnOk result (length runs.new.values.items ≡ max_tile) }
{
    runs.values.resize(MAX_PLACES, 0)?;
    Ok(())
}

/// Keeps each outcome of a column at its place, unless it may keep runs.
fn spread_unless(keeps_runs: bool, column: &mut Column)
    ensures { column.new ≡ column.old }
{
    if keeps_runs {
        return;
    }
    column.spread();
}

/// Makes `out` the cells of a tile of 4,096 points by an exchange of lists: as they lie, as runs or one by one, or each
/// at its place.
fn read_runs<S: Tiles>(
    source: &mut S,
    reading: &Reading<'_>,
    number: u64,
    scratch: &mut Scratch,
    out: &mut Column,
) -> Result<(), CellError>
    requires tile { IsTileRead (S.state source.old) reading.now number }
    requires points { count (box_in (S.state source.old) reading.now.coverage number) ≡ max_tile }
    ensures value { OnOk result (IsTileColumn (S.state source.old) reading.now number out.new) }
    ensures places { OnOk result (length out.new ≡ max_tile) }
    ensures fetched { OnOk result (OneMore (S.state source.old).fetched (S.state source.new).fetched) }
    ensures reads { Reads S.Tiles result source.old source.new }
{
    make_room(&mut scratch.runs)?;
    source.runs(reading.coverage, reading.field, number, &mut scratch.runs)?;
    out.exchange_runs(&mut scratch.runs);
    spread_unless(scratch.keeps_runs, out);
    Ok(())
}

/// Makes `out` the cells of a tile, of so many points.
fn read_tile<S: Tiles>(
    source: &mut S,
    reading: &Reading<'_>,
    number: u64,
    points: usize,
    scratch: &mut Scratch,
    out: &mut Column,
) -> Result<(), CellError>
    requires tile { IsTileRead (S.state source.old) reading.now number }
    requires points { count (box_in (S.state source.old) reading.now.coverage number) ≡ points }
    requires few { points ≤ max_tile }
    ensures value { OnOk result (IsTileColumn (S.state source.old) reading.now number out.new) }
    ensures places { OnOk result (length out.new ≡ points) }
    ensures fetched { OnOk result (OneMore (S.state source.old).fetched (S.state source.new).fetched) }
    ensures reads { Reads S.Tiles result source.old source.new }
{
    if points == MAX_PLACES {
        return read_runs(source, reading, number, scratch, out);
    }
    source.tile(reading.coverage, reading.field, number, &mut scratch.cells)?;
    out.write(&scratch.cells);
    Ok(())
}

/// Makes `out` the cells that are read at each place. Each tile that holds one of them is fetched once, whole or in
/// part, and one tile is held at a time; where the indexes go over the box of a tile, its cells are the column, as runs
/// where the tile lies so and the scratch keeps them. What the source reports passes through.
pub fn read<S: Tiles>(
    source: &mut S,
    reading: &Reading<'_>,
    frame: &Frame,
    scratch: &mut Scratch,
    out: &mut Column,
) -> Result<(), CellError>
    requires there { IsThere (S.state source.old) reading.now }
    requires inside { ReadsInside reading.now frame.now }
    ensures value { OnOk result (IsColumnRead (S.state source.old) reading.now frame.now out.new) }
    ensures places { OnOk result (length out.new ≡ length frame.now) }
    ensures reads { Reads S.Tiles result source.old source.new }
    ensures fetched { OnOk result (FetchesOnce (tiles_of reading.now frame.now) S.Tiles source.old source.new) }
{
    let places = frame.places();
    match whole_tile(reading, frame) {
        Some(number) => return read_tile(source, reading, number, places, scratch, out),
        None => (),
    }
    gather(source, reading, frame, scratch)?;
    out.write(&scratch.cells);
    Ok(())
}
