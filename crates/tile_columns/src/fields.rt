//! Fields behind binds, at all places of a frame.

ghost use Rattle.std.specs.Prelude.{◌≡◌, [], ◌∷◌, ◌++◌, length, map, replicate, OnOk, IfOk};
ghost use Rattle.tile_columns.specs.Calling.{Reads};
ghost use Rattle.tile_columns.specs.Meaning.{IsGroundOf};
ghost use Rattle.tile_columns.specs.Fields.{HavePlaces, HavePlaceOver, AreColumnsOf, FetchAll, settled_by, blank_by};

use crate::binds::{coordinates, settle};
use crate::bodies::evaluate;
use crate::frame::Frame;
use crate::ground::Ground;
use crate::scratch::Scratch;
use crate::source::Tiles;
use plan_ir::{Bind, Field, Interval};
use std::alloc::AllocError;
use tile_kernel::Column;
use wcps_mean::{CellError, Outcome};

/// A column for each field: its outcomes at the places of a frame, behind the binds. The position of a bind is one more
/// variable for all that is behind it; where the position has a fault or lies outside of its interval, there is that
/// fault in each column. A position is evaluated once for all fields, and what is behind an interval of no coordinate
/// is not evaluated. What the source reports passes through; after that the frame may have further variables.
pub fn evaluate_fields<S: Tiles>(
    source: &mut S,
    ground: &Ground<'_>,
    binds: &[Bind],
    fields: &[Field],
    frame: &mut Frame,
    scratch: &mut Scratch,
) -> Result<Vec<Column>, CellError>
    requires signatures { IsGroundOf (S.state source.old) ground.now }
    requires place { HavePlaceOver (S.state source.old) ground.now binds.now fields.now frame.old }
    ensures value { IfOk result (λ v. AreColumnsOf (S.state source.old) ground.now binds.now fields.now frame.old v.items) }
    ensures fields { IfOk result (λ v. length v.items ≡ length fields.now) }
    ensures places { IfOk result (λ v. HavePlaces (length frame.old) v.items) }
    ensures frame { OnOk result (frame.new ≡ frame.old) }
    ensures reads { Reads S.Tiles result source.old source.new }
    ensures fetched { FetchAll result ground.now binds.now fields.now frame.old S.Tiles source.old source.new }
{
    match binds {
        [] => field_columns(source, ground, fields, frame, scratch),
        [bind, rest @ ..] => {
            let mut positions = scratch.take_column()?;
            evaluate(
                source,
                ground,
                &bind.position,
                frame,
                scratch,
                &mut positions,
            )?;
            if bind.interval.hi < bind.interval.lo {
                let columns = blank_columns(fields.len(), &positions, bind.interval, scratch)?;
                scratch.give_back(positions);
                return Ok(columns);
            }
            let depth = frame.depth();
            let numbers = coordinates(scratch.alloc(), &positions, bind.interval)?;
            frame.push_column(numbers)?;
            let mut columns = evaluate_fields(source, ground, rest, fields, frame, scratch)?;
            frame.truncate(depth);
            settle_columns(&positions, bind.interval, scratch, &mut columns)?;
            scratch.give_back(positions);
            Ok(columns)
        }
    }
}

/// A column for each field: the outcomes of its body at the places of a frame.
fn field_columns<S: Tiles>(
    source: &mut S,
    ground: &Ground<'_>,
    fields: &[Field],
    frame: &mut Frame,
    scratch: &mut Scratch,
) -> Result<Vec<Column>, CellError>
    requires signatures { IsGroundOf (S.state source.old) ground.now }
    requires place { HavePlaceOver (S.state source.old) ground.now [] fields.now frame.old }
    ensures value { IfOk result (λ v. AreColumnsOf (S.state source.old) ground.now [] fields.now frame.old v.items) }
    ensures fields { IfOk result (λ v. length v.items ≡ length fields.now) }
    ensures places { IfOk result (λ v. HavePlaces (length frame.old) v.items) }
    ensures frame { OnOk result (frame.new ≡ frame.old) }
    ensures reads { Reads S.Tiles result source.old source.new }
    ensures fetched { FetchAll result ground.now [] fields.now frame.old S.Tiles source.old source.new }
{
    let mut columns = Vec::new(scratch.alloc());
    for field in fields {
        let mut column = scratch.take_column()?;
        evaluate(source, ground, &field.body, frame, scratch, &mut column)?;
        push_column(&mut columns, column)?;
    }
    Ok(columns)
}

/// Puts a column at the end of a list.
fn push_column(columns: &mut Vec<Column>, column: Column) -> Result<(), AllocError>
    ensures { OnOk result (columns.new.items ≡ columns.old.items ++ column ∷ []) }
{
    columns.push(column)?;
    Ok(())
}

/// Columns of zeros, but where the position does not lie in the interval there is the fault.
fn blank_columns(
    count: usize,
    positions: &Column,
    interval: Interval,
    scratch: &mut Scratch,
) -> Result<Vec<Column>, AllocError>
    ensures { IfOk result (λ v. v.items ≡ replicate count (blank_by positions.now interval.lo interval.hi)) }
{
    let mut columns = Vec::new(scratch.alloc());
    for _field in 0..count {
        let mut column = scratch.take_column()?;
        column.fill(positions.len(), Outcome::Value(0));
        settle(positions, interval, &mut scratch.outcomes, &mut column)?;
        push_column(&mut columns, column)?;
    }
    Ok(columns)
}

/// Leaves the outcomes of each column where the position lies in the interval, and puts the fault elsewhere.
fn settle_columns(
    positions: &Column,
    interval: Interval,
    scratch: &mut Scratch,
    columns: &mut Vec<Column>,
) -> Result<(), AllocError>
    requires { HavePlaces (length positions.now) columns.old.items }
    ensures { OnOk result (columns.new.items ≡ map (settled_by positions.now interval.lo interval.hi) columns.old.items) }
{
    for k in 0..columns.len() {
        settle(positions, interval, &mut scratch.outcomes, &mut columns[k])?;
    }
    Ok(())
}
