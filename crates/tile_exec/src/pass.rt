//! A tile of a pass, and a condition.

ghost use Rattle.std.specs.Prelude.{◌≡◌, ◌<◌, ◌≤◌, [], length, IfOk, OnOk};
ghost use Rattle.arr_core.specs.Domains.{points};
ghost use Rattle.arr_core.specs.Tiles.{tile_boxes, tile_box};
ghost use Rattle.tile_kernel.specs.Told.{told_at, demanded_at};
ghost use Rattle.tile_kernel.specs.Standing.{Stands};
ghost use Rattle.tile_columns.specs.Calling.{Reads};
ghost use Rattle.tile_columns.specs.Meaning.{IsGroundOf};
ghost use Rattle.tile_exec.specs.declared.found.Found.TheVariants.{Pass, Condition};
ghost use Rattle.tile_exec.specs.Passes.{ranks_of};
ghost use Rattle.tile_exec.specs.Units.{IsFound};
ghost use Rattle.tile_exec.specs.Fetching.{as_pass, as_condition, IsPartOver, FetchesBody, FetchesTile};

use crate::buffers::Buffers;
use crate::column::{column_at, column_over};
use arr_core::Domain;
use plan_ir::{Body, Fold};
use std::alloc::{AllocError, Global};
use tile_columns::{Frame, Ground, Tiles, ranks};
use tile_kernel::{
    Accumulator, Column, fold_column, fold_column_where, fold_values, fold_values_where, is_never,
};
use wcps_mean::{CellError, Outcome};
use wcps_text::Aggregate;

/// A tile of a box, by its number.
#[derive(Clone, Copy)]
struct TileOf<'a> {
    area: &'a Domain,
    tile: u64,
}

/// Lists the places that the points of a tile have in its box.
fn list_places(alloc: Global, of: TileOf<'_>, places: &mut Vec<u64>) -> Result<(), AllocError>
    requires { of.tile < length (tile_boxes of.area.now) }
    ensures { OnOk result (places.new.items ≡ ranks_of of.entry) }
{
    let part = of.area.tile_box(alloc, of.tile)?;
    ranks(places, of.area, &part)?;
    Ok(())
}

/// What a column of the cells of a tile tells a condenser. Their places in the box are listed only where a cell may
/// have a fault.
fn fold_part(
    alloc: Global,
    op: Aggregate,
    column: &Column,
    of: TileOf<'_>,
    places: &mut Vec<u64>,
) -> Result<Accumulator, AllocError>
    requires tile { of.tile < length (tile_boxes of.area.now) }
    requires column { length column.now ≡ length (points (tile_box of.area.now of.tile)) }
    ensures stands { IfOk result (λ a. Stands a (told_at (ranks_of of.entry) column.now)) }
    ensures op { IfOk result (λ a. a.running.op ≡ op) }
    ensures count { IfOk result (λ a. a.running.count ≡ length column.now) }
{
    match fold_values(op, column) {
        Some(accumulator) => Ok(accumulator),
        None => {
            list_places(alloc, of, places)?;
            Ok(fold_column(op, column, places))
        }
    }
}

/// The same under a condition.
fn fold_part_where(
    alloc: Global,
    op: Aggregate,
    condition: &Column,
    column: &Column,
    of: TileOf<'_>,
    places: &mut Vec<u64>,
) -> Result<Accumulator, AllocError>
    requires tile { of.tile < length (tile_boxes of.area.now) }
    requires column { length column.now ≡ length (points (tile_box of.area.now of.tile)) }
    requires condition { length condition.now ≡ length column.now }
    ensures stands { IfOk result (λ a. Stands a (demanded_at (ranks_of of.entry) condition.now column.now)) }
    ensures op { IfOk result (λ a. a.running.op ≡ op) }
    ensures count { IfOk result (λ a. a.running.count ≤ length column.now) }
{
    match fold_values_where(op, condition, column) {
        Some(accumulator) => Ok(accumulator),
        None => {
            list_places(alloc, of, places)?;
            Ok(fold_column_where(op, condition, column, places))
        }
    }
}

/// What a tile of a pass's box tells its condenser.
pub(crate) fn pass_tile<S: Tiles>(
    buffers: &mut Buffers,
    source: &mut S,
    ground: &Ground<'_>,
    pass: &Fold,
    tile: u64,
) -> Result<Accumulator, CellError>
    requires signatures { IsGroundOf (S.state source.old) ground.now }
    requires placed { IsPartOver (S.state source.old) ground.now (as_pass pass.now) }
    requires tile { tile < length (tile_boxes pass.now.domain) }
    ensures op { IfOk result (λ a. a.running.op ≡ pass.now.op) }
    ensures count { IfOk result (λ a. a.running.count ≤ length (points (tile_box pass.now.domain tile))) }
    ensures stands { IfOk result (λ a. IsFound (S.state source.old) ground.now tile (Pass a) (as_pass pass.now)) }
    ensures reads { Reads S.Tiles result source.old source.new }
    ensures fetched { FetchesTile result ground.now tile S.Tiles source.old source.new (as_pass pass.now) }
{
    let alloc = buffers.memory.alloc;
    let area = &pass.domain;
    let of = TileOf { area, tile };
    let _axes = area.axes();
    let mut frame = Frame::of_tile(alloc, area, tile)?;
    match &pass.condition {
        None => {
            column_at(
                &mut buffers.memory,
                source,
                ground,
                &mut frame,
                &pass.body,
                &mut buffers.column,
            )?;
            let told = fold_part(alloc, pass.op, &buffers.column, of, &mut buffers.places)?;
            Ok(told)
        }
        Some(condition) => {
            column_at(
                &mut buffers.memory,
                source,
                ground,
                &mut frame,
                condition,
                &mut buffers.chosen,
            )?;
            if is_never(&buffers.chosen) {
                return Ok(Accumulator::empty(pass.op));
            }
            column_at(
                &mut buffers.memory,
                source,
                ground,
                &mut frame,
                &pass.body,
                &mut buffers.column,
            )?;
            let told = fold_part_where(
                alloc,
                pass.op,
                &buffers.chosen,
                &buffers.column,
                of,
                &mut buffers.places,
            )?;
            Ok(told)
        }
    }
}

/// The outcome of a condition.
pub(crate) fn condition_of<S: Tiles>(
    buffers: &mut Buffers,
    source: &mut S,
    ground: &Ground<'_>,
    test: &Body,
) -> Result<Outcome, CellError>
    requires signatures { IsGroundOf (S.state source.old) ground.now }
    requires placed { IsPartOver (S.state source.old) ground.now (as_condition test.now) }
    ensures value { IfOk result (λ o. IsFound (S.state source.old) ground.now 0 (Condition o) (as_condition test.now)) }
    ensures reads { Reads S.Tiles result source.old source.new }
    ensures fetched { FetchesBody result ground.now [] test.now S.Tiles source.old source.new }
{
    match Domain::new(Vec::new(buffers.memory.alloc)) {
        Err(_) => unreachable!(),
        Ok(point) => {
            let _axes = point.axes();
            column_over(
                &mut buffers.memory,
                source,
                ground,
                &point,
                test,
                &mut buffers.column,
            )?;
            Ok(buffers.column.at(0))
        }
    }
}
