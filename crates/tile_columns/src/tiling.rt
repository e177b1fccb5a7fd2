//! The variables of a tile's box, one for each axis.

ghost use Rattle.std.specs.Prelude.{◌*◌, ◌<◌, ◌≤◌, IfOk};
ghost use Rattle.arr_core.specs.Domains.{count, AreOrdered};
ghost use Rattle.arr_core.specs.Limits.{max_points, max_tile};
ghost use Rattle.tile_columns.specs.Tiling.{AddsTile};

use crate::frame::Variable;
use arr_core::{Axis, distance, tile_bounds, tiles_along};
use std::alloc::AllocError;

/// A tile of some axes among those of these and of axes in front of them: its number among the tiles of the axes in
/// front, and how many points its box has along the others.
#[derive(Clone, Copy)]
pub(crate) struct Behind {
    pub ahead: u64,
    pub points: u64,
}

/// Puts a variable at the end for each axis, which turns over the box of a tile, the last one fastest. The number is
/// that of the tile among those of these axes and of any in front of them.
pub(crate) fn push_tile(
    variables: &mut Vec<Variable>,
    axes: &[Axis],
    edge: u64,
    number: u64,
) -> Result<Behind, AllocError>
    requires ordered { AreOrdered axes.now }
    requires few { count axes.now ≤ max_points }
    requires some { 0 < edge }
    requires small { edge ≤ max_tile }
    ensures added { IfOk result (AddsTile edge axes.now number variables.old.items variables.new.items) }
    ensures few { IfOk result (λ b. b.points ≤ count axes.now) }
{
    match axes {
        [] => Ok(Behind {
            ahead: number,
            points: 1,
        }),
        [axis, rest @ ..] => {
            let level = variables.len();
            variables.push(Variable::Const(0))?;
            let behind = push_tile(variables, rest, edge, number)?;
            let along = tiles_along(axis, edge);
            let (lo, hi) = tile_bounds(axis, edge, behind.ahead % along);
            variables[level] = Variable::Axis(lo, hi, behind.points);
            Ok(Behind {
                ahead: behind.ahead / along,
                points: (distance(lo, hi) + 1) * behind.points,
            })
        }
    }
}
