//! A body at all points of a box.

ghost use Rattle.std.specs.Prelude.{◌≡◌, ◌≤◌, length, IfOk, OnOk};
ghost use Rattle.arr_core.specs.Limits.{max_tile};
ghost use Rattle.arr_core.specs.Domains.{points, count};
ghost use Rattle.plan_ir.specs.Bodies.{body_view};
ghost use Rattle.tile_columns.specs.Calling.{Reads};
ghost use Rattle.tile_columns.specs.Fields.{HavePlaces};
ghost use Rattle.tile_columns.specs.Meaning.{IsGroundOf, HasPlaceOver, IsColumnOf, Fetches};
ghost use Rattle.tile_exec.specs.Fetching.{as_item, ItemHasPlace, AreItemColumns, FetchesBody, FetchesOver};

use crate::buffers::Memory;
use arr_core::Domain;
use plan_ir::{Body, Item};
use tile_columns::{Frame, Ground, Tiles, evaluate, evaluate_fields};
use tile_kernel::Column;
use wcps_mean::CellError;

/// Makes a column the outcomes of a body at the places of a frame, kept as runs where a tile that is read lies so.
pub(crate) fn column_at<S: Tiles>(
    memory: &mut Memory,
    source: &mut S,
    ground: &Ground<'_>,
    frame: &mut Frame,
    body: &Body,
    out: &mut Column,
) -> Result<(), CellError>
    requires signatures { IsGroundOf (S.state source.old) ground.now }
    requires place { HasPlaceOver (S.state source.old) ground.now (body_view body.now) frame.old }
    ensures value { OnOk result (IsColumnOf (S.state source.old) ground.now (body_view body.now) frame.old out.new) }
    ensures places { OnOk result (length out.new ≡ length frame.old) }
    ensures frame { OnOk result (frame.new ≡ frame.old) }
    ensures reads { Reads S.Tiles result source.old source.new }
    ensures fetched { Fetches result ground.now (body_view body.now) frame.old S.Tiles source.old source.new }
{
    memory.scratch.keep_runs(true);
    evaluate(source, ground, body, frame, &mut memory.scratch, out)?;
    Ok(())
}

/// Makes a column the outcomes of a body at the points of a box, in row-major order.
pub(crate) fn column_over<S: Tiles>(
    memory: &mut Memory,
    source: &mut S,
    ground: &Ground<'_>,
    at: &Domain,
    body: &Body,
    out: &mut Column,
) -> Result<(), CellError>
    requires signatures { IsGroundOf (S.state source.old) ground.now }
    requires place { HasPlaceOver (S.state source.old) ground.now (body_view body.now) (points at.now) }
    requires few { count at.now ≤ max_tile }
    ensures value { OnOk result (IsColumnOf (S.state source.old) ground.now (body_view body.now) (points at.now) out.new) }
    ensures places { OnOk result (length out.new ≡ length (points at.now)) }
    ensures reads { Reads S.Tiles result source.old source.new }
    ensures fetched { FetchesBody result ground.now at.now body.now S.Tiles source.old source.new }
{
    let _axes = at.axes();
    let mut frame = Frame::of_box(memory.alloc, at)?;
    column_at(memory, source, ground, &mut frame, body, out)?;
    Ok(())
}

/// A column for each field of an item, behind its binds: the outcomes at the points of a box, in row-major order.
pub(crate) fn columns_over<S: Tiles>(
    memory: &mut Memory,
    source: &mut S,
    ground: &Ground<'_>,
    item: &Item,
    at: &Domain,
) -> Result<Vec<Column>, CellError>
    requires signatures { IsGroundOf (S.state source.old) ground.now }
    requires place { ItemHasPlace (S.state source.old) ground.now item.now at.now }
    requires few { count at.now ≤ max_tile }
    ensures value { IfOk result (λ v. AreItemColumns (S.state source.old) ground.now item.now at.now v.items) }
    ensures fields { IfOk result (λ v. length v.items ≡ length item.now.fields.items) }
    ensures places { IfOk result (λ v. HavePlaces (length (points at.now)) v.items) }
    ensures reads { Reads S.Tiles result source.old source.new }
    ensures fetched { FetchesOver result ground.now at.now S.Tiles source.old source.new (as_item item.now) }
{
    let _axes = at.axes();
    let mut frame = Frame::of_box(memory.alloc, at)?;
    memory.scratch.keep_runs(false);
    evaluate_fields(
        source,
        ground,
        &item.binds,
        &item.fields,
        &mut frame,
        &mut memory.scratch,
    )
}
