//! Parts of a box, and the places of their points.

ghost use Rattle.std.specs.Prelude.{◌≡◌, ◌+◌, ◌<◌, ◌≤◌, ◌^◌, ◌≤ℤ◌, ◌++◌, length, map, IfOk, OnOk};
ghost use Rattle.std.specs.List.{range_with_len};
ghost use Rattle.arr_core.specs.Domains.{gap, points, count, AreOrdered, IsBoxOf, rank_of};
ghost use Rattle.arr_core.specs.Limits.{max_points};
ghost use Rattle.arr_core.specs.Tiles.{tile_boxes, tile_box};
ghost use Rattle.tile_columns.specs.TileOrder.{IsPart};

use arr_core::{Axis, Domain, count_points, distance};
use std::alloc::{AllocError, Global};

/// A part of a box, and the places that its points have in the row-major list of the box's points.
#[derive(Drop)]
pub(crate) struct Part {
    pub area: Domain,
    pub ranks: Vec<u64>,
}

/// How far an axis of a part begins above that of the box.
fn offset(axis: &Axis, own: &Axis) -> u64
    requires { axis.now.lo ≤ℤ own.now.lo }
    ensures gap { result ≡ gap axis.now.lo own.now.lo }
    ensures small { result < 2 ^ 32 }
{
    distance(axis.lo, own.lo)
}

/// Puts so many places, from one on, at the end of a list.
fn push_run(list: &mut Vec<u64>, first: u64, count: u64) -> Result<(), AllocError>
    requires { first + count ≤ 2 ^ 32 }
    ensures { OnOk result (list.new.items ≡ list.old.items ++ range_with_len first count) }
{
    for k in 0..count {
        list.push(first + k)?;
    }
    Ok(())
}

/// Puts the places of a part's points, counted from `first` on, at the end of a list: a run for each row of the last
/// axis.
fn push_places(
    list: &mut Vec<u64>,
    area: &[Axis],
    part: &[Axis],
    first: u64,
) -> Result<(), AllocError>
    requires inside { IsBoxOf area.now part.now }
    requires ordered { AreOrdered area.now }
    requires part_ordered { AreOrdered part.now }
    requires few { first + count area.now ≤ max_points }
    ensures { OnOk result (list.new.items ≡ list.old.items ++ map (λ p. first + rank_of area.now p) (points part.now)) }
{
    match area {
        [] => push_run(list, first, 1),
        [axis, area_rest @ ..] => match part {
            [] => Ok(()),
            [own, part_rest @ ..] => {
                let skipped = offset(axis, own);
                let rows = own.size();
                if area_rest.is_empty() {
                    return push_run(list, first + skipped, rows);
                }
                let row = count_points(area_rest);
                for step in 0..rows {
                    push_places(list, area_rest, part_rest, first + (skipped + step) * row)?;
                }
                Ok(())
            }
        },
    }
}

/// Makes a list of the places that the points of a part have in the row-major list of the points of a box.
pub fn ranks(list: &mut Vec<u64>, area: &Domain, part: &Domain) -> Result<(), AllocError>
    requires { IsBoxOf area.now part.now }
    ensures { OnOk result (list.new.items ≡ map (rank_of area.now) (points part.now)) }
{
    list.truncate(0);
    push_places(list, area.axes(), part.axes(), 0)
}

/// The part of a box that the tile with a number has.
pub(crate) fn part_at(alloc: Global, area: &Domain, tile: u64) -> Result<Part, AllocError>
    requires { tile < length (tile_boxes area.now) }
    ensures tile { IfOk result (λ p. p.area ≡ tile_box area.now tile) }
    ensures part { IfOk result (λ p. IsPart area.now p) }
{
    let part = area.tile_box(alloc, tile)?;
    let _axes = part.axes();
    let mut places = Vec::new(alloc);
    ranks(&mut places, area, &part)?;
    Ok(Part {
        area: part,
        ranks: places,
    })
}
