//! The tile over whose box indexes go, point for point.

ghost use Rattle.std.specs.Prelude.{◌≡◌, ◌+◌, ◌*◌, ◌/◌, ◌<◌, ◌≤◌, ◌≤ℤ◌, ◌^◌, IfSome};
ghost use Rattle.arr_core.specs.Domains.{gap, count, AreOrdered};
ghost use Rattle.arr_core.specs.Limits.{max_points, max_tile};
ghost use Rattle.tile_columns.specs.Covering.{TurnsAlong, TurnsOver};

use crate::frame::{Variable, bounds_at, turns_as};
use arr_core::{Axis, distance, tile_bounds, tiles_along};
use plan_ir::Index;
use tile_kernel::MAX_PLACES;

/// What tiles have of an axis at one place: how many tiles are before it, and how many coordinates it has.
#[derive(Clone, Copy)]
pub(crate) struct AxisPart {
    pub place: u64,
    pub size: u64,
}

/// A tile of some axes: its number among their tiles, how many these are, and how many points it has.
#[derive(Clone, Copy)]
pub(crate) struct Covered {
    pub number: u64,
    pub tiles: u64,
    pub points: u64,
}

/// What tiles have of an axis where an index turns, if it turns over just that, each coordinate so many times.
fn part_under(
    variables: &[Variable],
    index: Index,
    axis: &Axis,
    edge: u64,
    every: u64,
) -> Option<AxisPart>
    requires ordered { axis.now.lo ≤ℤ axis.now.hi }
    requires some { 0 < edge }
    requires small { edge ≤ max_tile }
    ensures turns { IfSome result (TurnsAlong edge axis.now variables.now index every) }
    ensures small { IfSome result (λ s. (s.place < 2 ^ 32) × (s.size ≤ max_tile)) }
{
    let Some(bounds) = bounds_at(variables, index) else {
        return None;
    };
    if bounds.lo < axis.lo || axis.hi < bounds.lo {
        return None;
    }
    let place = distance(axis.lo, bounds.lo) / edge;
    let (lo, hi) = tile_bounds(axis, edge, place);
    if bounds.lo != lo || bounds.hi != hi || !turns_as(variables, index, lo, hi, every) {
        return None;
    }
    Some(AxisPart {
        place,
        size: distance(lo, hi) + 1,
    })
}

/// The tile of one more axis in front.
fn in_front(axis: &Axis, edge: u64, part: AxisPart, behind: Covered) -> Covered
    requires edge { 0 < edge }
    requires part { (part.place < 2 ^ 32) × (part.size ≤ max_tile) }
    requires behind { (behind.number < behind.tiles) × (behind.tiles ≤ max_points) × (behind.points ≤ max_tile) }
    ensures number { result.number ≡ part.place * behind.tiles + behind.number }
    ensures tiles { result.tiles ≡ (gap axis.now.lo axis.now.hi / edge + 1) * behind.tiles }
    ensures points { result.points ≡ part.size * behind.points }
{
    Covered {
        number: part.place * behind.tiles + behind.number,
        tiles: tiles_along(axis, edge) * behind.tiles,
        points: part.size * behind.points,
    }
}

/// The tile of some axes over whose box indexes turn, if there is one; a tile has no more points than a column has
/// places.
pub(crate) fn tile_covered(
    variables: &[Variable],
    indexes: &[Index],
    axes: &[Axis],
    edge: u64,
) -> Option<Covered>
    requires ordered { AreOrdered axes.now }
    requires few { count axes.now ≤ max_points }
    requires some { 0 < edge }
    requires small { edge ≤ max_tile }
    ensures { IfSome result (TurnsOver edge variables.now indexes.now axes.now) }
{
    match axes {
        [] => match indexes {
            [] => Some(Covered {
                number: 0,
                tiles: 1,
                points: 1,
            }),
            _ => None,
        },
        [axis, rest @ ..] => match indexes {
            [] => None,
            [index, further @ ..] => match tile_covered(variables, further, rest, edge) {
                None => None,
                Some(behind) => {
                    if behind.points > MAX_PLACES as u64 {
                        return None;
                    }
                    match part_under(variables, *index, axis, edge, behind.points) {
                        None => None,
                        Some(part) => Some(in_front(axis, edge, part, behind)),
                    }
                }
            },
        },
    }
}
