//! Numbers of a key, and points where it has them.

ghost use Rattle.std.specs.Prelude.{◌≡◌, ◌<◌, ◌≤◌, pos, length, map, slice_index_or, IfOk, IfSome, OnOk};
ghost use Rattle.std.specs.List.{All};
ghost use Rattle.arr_core.specs.Limits.{max_tile};
ghost use Rattle.arr_core.specs.Domains.{points, count};
ghost use Rattle.tile_columns.specs.Calling.{Reads};
ghost use Rattle.tile_columns.specs.Meaning.{IsGroundOf};
ghost use Rattle.tile_exec.specs.Known.{IsKeyPlaced, AreSamples, AddsPoint, AddsPoints, FetchesTimes, point_of};

use crate::buffers::Buffers;
use crate::column::column_over;
use arr_core::Domain;
use plan_ir::Body;
use std::alloc::{AllocError, Global};
use tile_columns::{Frame, Ground, Tiles};
use tile_kernel::{Column, MAX_PLACES};
use wcps_mean::{CellError, Outcome};

/// A number of a key, and a point where the key has it.
#[derive(Drop)]
pub(crate) struct Sample {
    pub number: i64,
    pub point: Vec<i32>,
}

/// Puts the number that a key has at a place of a box, with the point, among samples in the order of their numbers,
/// where none has it.
fn add_point(
    alloc: Global,
    samples: &mut Vec<Sample>,
    part: &Domain,
    place: usize,
    key: Outcome,
) -> Result<(), AllocError>
    requires { place < length (points part.now) }
    ensures { OnOk result (AddsPoint part.now place key samples.old.items samples.new.items) }
{
    let Outcome::Value(number) = key else {
        return Ok(());
    };
    match samples.binary_search_by_key(&number, |sample| sample.number) {
        Ok(_) => Ok(()),
        Err(at) => {
            let point = part.unrank(alloc, place as u64)?;
            samples.insert(at, Sample { number, point })?;
            Ok(())
        }
    }
}

/// Does so with a column of keys at the points of a box.
fn add_points(
    alloc: Global,
    samples: &mut Vec<Sample>,
    part: &Domain,
    keys: &Column,
) -> Result<(), AllocError>
    requires { length keys.now ≡ length (points part.now) }
    ensures { OnOk result (AddsPoints part.now keys.now samples.old.items samples.new.items) }
{
    for place in 0..keys.len() {
        add_point(alloc, samples, part, place, keys.at(place))?;
    }
    Ok(())
}

/// The different numbers of a key at the points of a box, each with one of these points; none where they are more than
/// a column has places.
pub(crate) fn samples_of<S: Tiles>(
    buffers: &mut Buffers,
    source: &mut S,
    ground: &Ground<'_>,
    key: &Body,
    area: &Domain,
) -> Result<Option<Vec<Sample>>, CellError>
    requires signatures { IsGroundOf (S.state source.old) ground.now }
    requires placed { IsKeyPlaced (S.state source.old) ground.now area.now key.now }
    ensures value { IfOk result (λ o. IfSome o (λ v. AreSamples (S.state source.old) ground.now area.now key.now v.items)) }
    ensures few { IfOk result (λ o. IfSome o (λ v. length v.items ≤ max_tile)) }
    ensures reads { Reads S.Tiles result source.old source.new }
    ensures fetched { OnOk result (FetchesTimes (count area.now) key.now S.Tiles source.old source.new) }
{
    let alloc = buffers.memory.alloc;
    let _axes = area.axes();
    let mut samples = Vec::new(alloc);
    for tile in 0..area.tiles() {
        let part = area.tile_box(alloc, tile)?;
        let _part_axes = part.axes();
        column_over(
            &mut buffers.memory,
            source,
            ground,
            &part,
            key,
            &mut buffers.column,
        )?;
        buffers.column.spread();
        add_points(alloc, &mut samples, &part, &buffers.column)?;
        if samples.len() > MAX_PLACES {
            return Ok(None);
        }
    }
    Ok(Some(samples))
}

/// The coordinates of samples along an axis.
fn coordinates(alloc: Global, samples: &[Sample], axis: usize) -> Result<Vec<i32>, AllocError>
    requires { All (λ (x : Sample). axis < length x.point.items) samples.now }
    ensures { IfOk result (λ v. v.items ≡ map (λ (x : Sample). slice_index_or x.point.items axis (pos 0)) samples.now) }
{
    let mut numbers = Vec::new(alloc);
    for sample in samples {
        numbers.push(sample.point[axis])?;
    }
    Ok(numbers)
}

/// A frame whose places are the points of samples.
pub(crate) fn frame_of(alloc: Global, samples: &[Sample], depth: usize) -> Result<Frame, AllocError>
    requires few { length samples.now ≤ max_tile }
    requires deep { All (λ (x : Sample). length x.point.items ≡ depth) samples.now }
    ensures { IfOk result (λ f. f ≡ map point_of samples.now) }
{
    let mut frame = Frame::of_places(alloc, samples.len())?;
    for axis in 0..depth {
        let numbers = coordinates(alloc, samples, axis)?;
        frame.push_column(numbers)?;
    }
    Ok(frame)
}
