//! The positions of a bind at all places of a column.

ghost use Rattle.std.specs.Prelude.{◌≡◌, ◌≤◌, length, map, IsTrue, OnOk, IfOk};
ghost use Rattle.std.specs.List.{All};
ghost use Rattle.arr_core.specs.Limits.{max_tile};
ghost use Rattle.wcps_mean.specs.Cells.{at_position};
ghost use Rattle.tile_columns.specs.Binding.{coordinate_or_lo, IsSettled};
ghost use Rattle.tile_columns.specs.Fields.{settled_by};

use plan_ir::Interval;
use std::alloc::{AllocError, Global};
use tile_kernel::Column;
use wcps_mean::{Outcome, coordinate_in};

/// The coordinate of a position that lies in the interval, else the lower bound.
fn coordinate(position: Outcome, interval: Interval) -> i32
    ensures { result ≡ coordinate_or_lo interval.lo interval.hi position }
{
    match coordinate_in(position, interval.lo, interval.hi) {
        Ok(z) => z,
        Err(_) => interval.lo,
    }
}

/// The coordinates of the positions.
pub(crate) fn coordinates(
    alloc: Global,
    positions: &Column,
    interval: Interval,
) -> Result<Vec<i32>, AllocError>
    ensures { IfOk result (λ v. v.items ≡ map (coordinate_or_lo interval.lo interval.hi) positions.now) }
{
    let mut list = Vec::new(alloc);
    list.resize(positions.len(), interval.lo)?;
    write_coordinates(positions, interval, &mut list);
    Ok(list)
}

/// Writes the coordinates of the positions.
fn write_coordinates(positions: &Column, interval: Interval, list: &mut Vec<i32>)
    requires { length list.old.items ≡ length positions.now }
    ensures { list.new.items ≡ map (coordinate_or_lo interval.lo interval.hi) positions.now }
{
    let all = list.as_mut_slice();
    for place in 0..positions.len() {
        all[place] = coordinate(positions.at(place), interval);
    }
}

/// The position's fault, else `OutOfDomain` where it does not lie in the interval, else the outcome.
fn settled(position: Outcome, interval: Interval, o: Outcome) -> Outcome
    ensures { result ≡ at_position position interval.lo interval.hi (λ _. o) }
{
    match coordinate_in(position, interval.lo, interval.hi) {
        Ok(_) => o,
        Err(f) => Outcome::Fault(f),
    }
}

/// Whether a position is a number that lies in the interval.
fn is_settled(position: Outcome, interval: Interval) -> bool
    ensures { IsTrue result → IsSettled interval.lo interval.hi position }
{
    coordinate_in(position, interval.lo, interval.hi).is_ok()
}

/// Whether all positions are numbers that lie in the interval.
fn all_lie_in(positions: &Column, interval: Interval) -> bool
    ensures { IsTrue result → All (IsSettled interval.lo interval.hi) positions.now }
{
    for place in 0..positions.len() {
        if !is_settled(positions.at(place), interval) {
            return false;
        }
    }
    true
}

/// Leaves the outcomes of `out` where the position lies in the interval, and puts the fault elsewhere.
pub(crate) fn settle(
    positions: &Column,
    interval: Interval,
    outcomes: &mut Vec<Outcome>,
    out: &mut Column,
) -> Result<(), AllocError>
    requires { length out.old ≡ length positions.now }
    ensures { OnOk result (out.new ≡ settled_by positions.now interval.lo interval.hi out.old) }
{
    if all_lie_in(positions, interval) {
        return Ok(());
    }
    settle_each(positions, interval, out, outcomes)?;
    out.write_outcomes(outcomes);
    Ok(())
}

/// The settled outcomes, place by place.
fn settle_each(
    positions: &Column,
    interval: Interval,
    column: &Column,
    outcomes: &mut Vec<Outcome>,
) -> Result<(), AllocError>
    requires { length column.now ≡ length positions.now }
    ensures value { OnOk result (outcomes.new.items ≡ settled_by positions.now interval.lo interval.hi column.now) }
    ensures few { OnOk result (length outcomes.new.items ≤ max_tile) }
{
    outcomes.clear();
    for place in 0..positions.len() {
        let o = settled(positions.at(place), interval, column.at(place));
        outcomes.push(o)?;
    }
    Ok(())
}
