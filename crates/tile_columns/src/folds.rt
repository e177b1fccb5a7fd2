//! The accumulators of a fold, one for each place of a column.

ghost use Rattle.std.specs.Prelude.{◌≡◌, ◌*◌, ◌++◌, ◌<◌, ◌≤◌, [], length, map, slice_index_or, IfOk, OnOk, nat_lt};
ghost use Rattle.arr_core.specs.Limits.{max_tile};
ghost use Rattle.arr_core.specs.Domains.{points, count, IsInside};
ghost use Rattle.arr_core.specs.Tiles.{tile_boxes};
ghost use Rattle.tile_kernel.specs.Standing.{EachStands, AreOf, HaveAtMost};
ghost use Rattle.tile_columns.specs.Frames.{under};
ghost use Rattle.tile_columns.specs.Condensing.{MergesAt, HasRoomAt, AreOutcomesOf};

use crate::frame::Frame;
use arr_core::Domain;
use std::alloc::{AllocError, Global};
use tile_kernel::Accumulator;
use wcps_mean::Outcome;
use wcps_text::Aggregate;

/// Accumulators of no point, one for each place.
pub(crate) fn empty_folds(
    alloc: Global,
    op: Aggregate,
    places: usize,
) -> Result<Vec<Accumulator>, AllocError>
    ensures length { IfOk result (λ v. length v.items ≡ places) }
    ensures op { IfOk result (λ v. AreOf op v.items) }
    ensures room { IfOk result (λ v. HaveAtMost 0 v.items) }
    ensures stands { IfOk result (λ v. EachStands v.items (λ _. [])) }
{
    let mut folds = Vec::new(alloc);
    for _place in 0..places {
        folds.push(Accumulator::empty(op))?;
    }
    Ok(folds)
}

/// Makes `list` the outcomes of the accumulators.
pub(crate) fn finish_folds(
    folds: Vec<Accumulator>,
    list: &mut Vec<Outcome>,
) -> Result<(), AllocError>
    ensures places { OnOk result (length list.new.items ≡ length folds.items) }
    ensures value { OnOk result (AreOutcomesOf folds.items list.new.items) }
{
    list.clear();
    for accumulator in folds {
        list.push(accumulator.finish())?;
    }
    Ok(())
}

/// Adds the coordinates of a point of a domain, by its place, to the variables.
pub(crate) fn push_place(
    domain: &Domain,
    place: u64,
    point: &mut Vec<i32>,
    frame: &mut Frame,
) -> Result<(), AllocError>
    requires { place < length (points domain.now) }
    ensures inside { OnOk result (IsInside domain.now (slice_index_or (points domain.now) place [])) }
    ensures frame { OnOk result (frame.new ≡ under frame.old (slice_index_or (points domain.now) place [])) }
{
    let _all = domain.axes();
    point.clear();
    domain.push_point(point, place)?;
    frame.push_numbers(point)?;
    Ok(())
}

/// The numbers of all variables at a place.
fn place_numbers(alloc: Global, frame: &Frame, place: usize) -> Result<Vec<i32>, AllocError>
    requires { place < length frame.now }
    ensures { IfOk result (λ v. v.items ≡ slice_index_or frame.now place []) }
{
    let mut numbers = Vec::new(alloc);
    for k in 0..frame.depth() {
        numbers.push(frame.number(k, place))?;
    }
    Ok(numbers)
}

/// The variables of a place, and behind them the coordinates of a box of at most 4,096 points, in row-major order.
pub(crate) fn part_frame(
    alloc: Global,
    frame: &Frame,
    place: usize,
    area: &Domain,
) -> Result<Frame, AllocError>
    requires place { place < length frame.now }
    requires few { count area.now ≤ max_tile }
    ensures { IfOk result (λ f. f ≡ map (λ p. slice_index_or frame.now place [] ++ p) (points area.now)) }
{
    let numbers = place_numbers(alloc, frame, place)?;
    Frame::of_box_under(alloc, &numbers, area)
}

/// Tells the accumulator at a place what another one was told.
pub(crate) fn merge_at(folds: &mut [Accumulator], place: usize, found: &Accumulator)
    requires place { place < length folds.old }
    requires op { AreOf found.now.running.op folds.old }
    requires room { HasRoomAt place found.now.running.count folds.old }
    ensures { MergesAt place found.now folds.old folds.new }
{
    folds[place].take_over(found);
}

/// Whether a fold takes fewer column operations a tile box at a time, one for each tile box and place of the frame,
/// than a point at a time, one for each point of its box. Over all places and points both have as many cells.
pub(crate) fn goes_by_tiles(places: usize, area: &Domain) -> bool
    requires { places ≤ max_tile }
    ensures { result ≡ nat_lt (places * length (tile_boxes area.now)) (count area.now) }
{
    places as u64 * area.tiles() < area.points()
}
