//! Where points stand: the numbers of their tiles, and their ranks in these.

ghost use Rattle.std.specs.Prelude.{◌≡◌, ◌<◌, ◌≤◌, ◌^◌, ◌≤ℤ◌, pos, length, replicate, OnOk};
ghost use Rattle.arr_core.specs.Domains.{gap};
ghost use Rattle.arr_core.specs.Limits.{max_points, max_tile};
ghost use Rattle.tile_columns.specs.Readings.{ReadsInside, tiles_of, ranks_of};
ghost use Rattle.tile_columns.specs.Locating.{AreInside, tile_along, rank_along, LieAlong, CountedOn, CountsFew, HaveLength, CountedFrom, CountsFewFrom};

use crate::frame::Frame;
use crate::gather::Reading;
use crate::scratch::Scratch;
use arr_core::{Axis, distance, tile_steps};
use plan_ir::Index;
use std::alloc::AllocError;

/// An axis that tiles part: its first coordinate, how far the last one is above it, and the edge of a tile.
#[derive(Clone, Copy)]
struct Along {
    lo: i32,
    last: u64,
    edge: u64,
}

/// The number of a tile, and a rank in it.
#[derive(Clone, Copy)]
pub(crate) struct Located {
    pub tile: u64,
    pub rank: u64,
}

/// With the coordinate of one more axis.
fn located_along(at: Located, along: Along, x: i64) -> Located
    requires edge { 0 < along.edge }
    requires last { (along.last < 2 ^ 32) × (along.edge ≤ max_tile) }
    requires inside { (along.lo ≤ℤ x) × (gap along.lo x ≤ along.last) }
    requires tile { tile_along along x at.tile < max_points }
    requires rank { rank_along along x at.rank < max_points }
    ensures tile { result.tile ≡ tile_along along x at.tile }
    ensures rank { result.rank ≡ rank_along along x at.rank }
{
    let above = (x - along.lo as i64) as u64;
    let step = above / along.edge;
    let (from, to) = tile_steps(along.last, along.edge, step);
    Located {
        tile: at.tile * (along.last / along.edge + 1) + step,
        rank: at.rank * (to - from + 1) + (above - from),
    }
}

/// Counts tiles and ranks along one more axis, at each place.
fn add_axis(along: Along, coordinates: &[i64], tiles: &mut Vec<u64>, ranks: &mut Vec<u64>)
    requires edge { 0 < along.edge }
    requires last { (along.last < 2 ^ 32) × (along.edge ≤ max_tile) }
    requires places { HaveLength (length coordinates.now) tiles.old.items ranks.old.items }
    requires inside { LieAlong along coordinates.now }
    requires few_tiles { CountsFew coordinates.now (pos 0) (tile_along along) tiles.old.items }
    requires few_ranks { CountsFew coordinates.now (pos 0) (rank_along along) ranks.old.items }
    ensures places { (length tiles.new.items ≡ length tiles.old.items) × (length ranks.new.items ≡ length ranks.old.items) }
    ensures tiles { CountedOn coordinates.now (pos 0) (tile_along along) tiles.old.items tiles.new.items }
    ensures ranks { CountedOn coordinates.now (pos 0) (rank_along along) ranks.old.items ranks.new.items }
{
    let numbers = tiles.as_mut_slice();
    let within = ranks.as_mut_slice();
    for place in 0..coordinates.len() {
        let before = Located {
            tile: numbers[place],
            rank: within[place],
        };
        let now = located_along(before, along, coordinates[place]);
        numbers[place] = now.tile;
        within[place] = now.rank;
    }
}

/// Counts tiles and ranks along all axes, an index for each.
fn add_axes(
    axes: &[Axis],
    edge: u64,
    indexes: &[Index],
    frame: &Frame,
    scratch: &mut Scratch,
) -> Result<(), AllocError>
    requires edge { (0 < edge) × (edge ≤ max_tile) }
    requires inside { AreInside axes.now indexes.now frame.now }
    requires places { HaveLength (length frame.now) scratch.old.numbers.items scratch.old.ranks.items }
    requires few { CountsFewFrom edge axes.now indexes.now frame.now scratch.old }
    ensures places { OnOk result (HaveLength (length frame.now) scratch.new.numbers.items scratch.new.ranks.items) }
    ensures counted { OnOk result (CountedFrom edge axes.now indexes.now frame.now scratch.old scratch.new) }
{
    match axes {
        [] => Ok(()),
        [axis, rest @ ..] => match indexes {
            [] => Ok(()),
            [index, further @ ..] => {
                frame.list(*index, &mut scratch.coordinates)?;
                let along = Along {
                    lo: axis.lo,
                    last: distance(axis.lo, axis.hi),
                    edge,
                };
                add_axis(
                    along,
                    &scratch.coordinates,
                    &mut scratch.numbers,
                    &mut scratch.ranks,
                );
                add_axes(rest, edge, further, frame, scratch)?;
                Ok(())
            }
        },
    }
}

/// Makes a list so many zeros.
fn clear_numbers(len: usize, numbers: &mut Vec<u64>) -> Result<(), AllocError>
    ensures { OnOk result (numbers.new.items ≡ replicate len 0) }
{
    numbers.clear();
    numbers.resize(len, 0)?;
    Ok(())
}

/// Makes the numbers of tiles and the ranks so many zeros.
fn clear_counts(len: usize, scratch: &mut Scratch) -> Result<(), AllocError>
    ensures tiles { OnOk result (scratch.new.numbers.items ≡ replicate len 0) }
    ensures ranks { OnOk result (scratch.new.ranks.items ≡ replicate len 0) }
{
    clear_numbers(len, &mut scratch.numbers)?;
    clear_numbers(len, &mut scratch.ranks)?;
    Ok(())
}

/// Makes `numbers` the numbers of the tiles that are read, place by place, and `ranks` the ranks in the boxes of these.
pub(crate) fn locate(
    reading: &Reading<'_>,
    frame: &Frame,
    scratch: &mut Scratch,
) -> Result<(), AllocError>
    requires { ReadsInside reading.now frame.now }
    ensures tiles { OnOk result (scratch.new.numbers.items ≡ tiles_of reading.now frame.now) }
    ensures ranks { OnOk result (scratch.new.ranks.items ≡ ranks_of reading.now frame.now) }
{
    let axes = reading.domain.axes();
    clear_counts(frame.places(), scratch)?;
    add_axes(
        axes,
        reading.domain.tile_edge(),
        reading.indexes,
        frame,
        scratch,
    )?;
    Ok(())
}
