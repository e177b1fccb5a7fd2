//! Reads of places in the order of their tiles: those of one tile stand side by side, and are read together.

ghost use Rattle.std.specs.Prelude.{◌≡◌, ◌<◌, length, IfOk, OnOk};
ghost use Rattle.tile_columns.specs.Sources.{OneMore};
ghost use Rattle.tile_columns.specs.Calling.{Reads, FetchesOnce};
ghost use Rattle.tile_columns.specs.Readings.{IsThere, ReadsInside, tiles_of, AreCellsRead};
ghost use Rattle.tile_columns.specs.Gathering.{IsLocated};
ghost use Rattle.tile_columns.specs.Spots.{IsStretch};
ghost use Rattle.tile_columns.specs.Stretches.{IsTileRead, AreRanksOf, PicksWanted, KeepsPlaces, IsOrdered, KeepsRead, KeepsSpots};

use crate::frame::Frame;
use crate::gather::Reading;
use crate::scratch::Scratch;
use crate::source::Tiles;
use crate::spots::{end_of, list_cells, list_ranks, order_places, write_at_spots};
use wcps_mean::CellError;

/// How many cells of a tile are picked one by one; for more of them the whole tile is fetched.
pub(crate) const FEW: usize = 64;

/// Makes `picked` the cells of a tile at the ranks that are wanted.
fn fetch_cells<S: Tiles>(
    source: &mut S,
    reading: &Reading<'_>,
    tile: u64,
    scratch: &mut Scratch,
) -> Result<(), CellError>
    requires tile { IsTileRead (S.state source.old) reading.now tile }
    requires ranks { AreRanksOf (S.state source.old) reading.now tile scratch.old.wanted.items }
    ensures value { OnOk result (PicksWanted (S.state source.old) reading.now tile scratch.old scratch.new) }
    ensures ranks { OnOk result (length scratch.new.picked.items ≡ length scratch.old.wanted.items) }
    ensures places { KeepsPlaces scratch.old scratch.new }
    ensures fetched { OnOk result (OneMore (S.state source.old).fetched (S.state source.new).fetched) }
    ensures reads { Reads S.Tiles result source.old source.new }
{
    if scratch.wanted.len() <= FEW {
        source.pick(
            reading.coverage,
            reading.field,
            tile,
            &scratch.wanted,
            &mut scratch.picked,
        )?;
        return Ok(());
    }
    source.tile(reading.coverage, reading.field, tile, &mut scratch.tile)?;
    list_cells(&scratch.tile, &scratch.wanted, &mut scratch.picked)?;
    Ok(())
}

/// Reads the cells at the places of one tile, which begin here among those in the order of their tiles, and answers
/// where they end.
fn fetch_stretch<S: Tiles>(
    source: &mut S,
    reading: &Reading<'_>,
    frame: &Frame,
    from: usize,
    scratch: &mut Scratch,
) -> Result<usize, CellError>
    requires there { IsThere (S.state source.old) reading.now }
    requires inside { ReadsInside reading.now frame.now }
    requires ordered { IsOrdered reading.now frame.now scratch.old }
    requires some { from < length scratch.old.spots.items }
    ensures stretch { IfOk result (IsStretch scratch.old.spots.items from) }
    ensures value { IfOk result (KeepsRead (S.state source.old) reading.now frame.now scratch.old scratch.new from) }
    ensures spots { OnOk result (KeepsSpots scratch.old scratch.new) }
    ensures fetched { OnOk result (OneMore (S.state source.old).fetched (S.state source.new).fetched) }
    ensures reads { Reads S.Tiles result source.old source.new }
{
    let to = end_of(&scratch.spots, from);
    let tile = scratch.spots[from].tile;
    list_ranks(&scratch.spots[from..to], &mut scratch.wanted)?;
    fetch_cells(source, reading, tile, scratch)?;
    write_at_spots(
        &scratch.spots[from..to],
        &scratch.picked,
        &mut scratch.cells,
    );
    Ok(to)
}

/// Makes scratch cells those that are read at each place, tile by tile in the order of their numbers.
pub(crate) fn gather_stretches<S: Tiles>(
    source: &mut S,
    reading: &Reading<'_>,
    frame: &Frame,
    scratch: &mut Scratch,
) -> Result<(), CellError>
    requires there { IsThere (S.state source.old) reading.now }
    requires inside { ReadsInside reading.now frame.now }
    requires located { IsLocated reading.now frame.now scratch.old }
    ensures value { OnOk result (AreCellsRead (S.state source.old) reading.now frame.now scratch.new.cells.items) }
    ensures places { OnOk result (length scratch.new.cells.items ≡ length frame.now) }
    ensures reads { Reads S.Tiles result source.old source.new }
    ensures fetched { OnOk result (FetchesOnce (tiles_of reading.now frame.now) S.Tiles source.old source.new) }
{
    order_places(&scratch.numbers, &scratch.ranks, &mut scratch.spots)?;
    let mut from = 0;
    while from < scratch.spots.len() {
        from = fetch_stretch(source, reading, frame, from, scratch)?;
    }
    Ok(())
}
