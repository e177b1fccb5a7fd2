//! The outcome of a part of a query at a point.

ghost use Rattle.wcps_mean.specs.Parts.{part_outcome, part_over};
ghost use Rattle.wcps_mean.specs.QueryParts.{part_view};
ghost use Rattle.wcps_mean.specs.Reading.{Leaves, Returns};
ghost use Rattle.wcps_mean.specs.Reports.{Reports};
ghost use Rattle.wcps_mean.specs.Spots.{part_at};

use crate::cell::Outcome;
use crate::cells::{CellError, Cells};
use crate::eval::eval;
use crate::part::{Spot, spot_of};
use crate::query_part::QueryPart;
use crate::scope::Scope;
use std::alloc::Global;

/// The outcome of a part at a point.
pub fn value_at<C: Cells>(
    alloc: Global,
    cells: &mut C,
    part: &QueryPart,
    point: &[i32],
) -> Result<Outcome, CellError>
    ensures value { Returns C.Cells cells.old result (part_outcome point.now (part_view part.now)) }
    ensures leaves { Leaves C.Cells cells.old cells.new }
    ensures reports { Reports result (C.intact cells.old) (C.failures cells.old) (C.failures cells.new) }
{
    match &part.tree {
        // Without a tree, which is so in no query, the condition is false.
        None => Ok(Outcome::Value(0)),
        Some(tree) => match spot_of(tree, part.part) {
            None => unreachable!(),
            Some(spot) => outcome_at(alloc, cells, &part.coverages, &spot, point),
        },
    }
}

/// The outcome at a point of a part that stands there.
fn outcome_at<C: Cells>(
    alloc: Global,
    cells: &mut C,
    coverages: &[usize],
    spot: &Spot<'_>,
    point: &[i32],
) -> Result<Outcome, CellError>
    ensures value { Returns C.Cells cells.old result (part_outcome point.now (part_over coverages.now (part_at spot.now))) }
    ensures leaves { Leaves C.Cells cells.old cells.new }
    ensures reports { Reports result (C.intact cells.old) (C.failures cells.old) (C.failures cells.new) }
{
    let mut scope = Scope::new(alloc, coverages);
    if spot.iterates {
        scope.iterators.extend_from_slice(point)?;
        return eval(cells, &mut scope, spot.node, spot.field);
    }
    scope.points.extend_from_slice(point)?;
    eval(cells, &mut scope, spot.node, spot.field)
}
