//! Bodies at all places of a frame.

ghost use Rattle.std.specs.Prelude.{◌≡◌, ◌+◌, ◌-◌, ◌<◌, ◌≤◌, ◌≤ℤ◌, length, OnOk, IfOk};
ghost use Rattle.arr_core.specs.Domains.{points};
ghost use Rattle.arr_core.specs.Limits.{max_points};
ghost use Rattle.plan_ir.specs.Bodies.{body_view, fold_view};
ghost use Rattle.tile_kernel.specs.Standing.{AreOf};
ghost use Rattle.tile_columns.specs.Calling.{Reads};
ghost use Rattle.tile_columns.specs.Meaning.{IsGroundOf, HasPlaceOver, IsColumnOf, Fetches};
ghost use Rattle.tile_columns.specs.Binds.{HasPlaceBehind, IsColumnBehind, IsColumnUnder, FetchesBehind};
ghost use Rattle.tile_columns.specs.TileOrder.{IsPart};
ghost use Rattle.tile_columns.specs.Zones.{other_of, AreZonesOf, HasEquation};
ghost use Rattle.tile_columns.specs.Folds.{FoldHasPlace, BodiesHavePlace, AreOfFold, GrowBy, StandsFor, TakeInFold, TakeInBox, TakeInPoint, TakeInLast, TakeInZones, TakeInZone, FetchesFold, FetchesPart, FetchesPoint, FetchesZones, FetchesZonePart};
ghost use Rattle.tile_columns.specs.Folds.{IsColumnOfOther, FetchesOther, FetchesByZones};

use crate::binds::{coordinates, settle};
use crate::folds::{empty_folds, finish_folds, goes_by_tiles, merge_at, part_frame, push_place};
use crate::frame::Frame;
use crate::ground::{BodyRead, Ground, read_cells};
use crate::halo::condense_window;
use crate::lookup::{fill_variable, look_up};
use crate::part::{Part, part_at};
use crate::scratch::Scratch;
use crate::shapes::always_true;
use crate::sides::{other_of, side_of};
use crate::source::Tiles;
use crate::windows::window_of;
use crate::zone_folds::{Keys, Seen, keys_of, tell_seen};
use crate::zones::{Zones, zones_of};
use plan_ir::{Body, Fold, Interval, register};
use tile_kernel::{
    Accumulator, Column, add_column, add_column_where, fold_column, fold_column_where, is_never,
    operate_column, operate_columns,
};
use wcps_mean::{CellError, Outcome};

/// Makes `out` the outcomes of a body at the places of a frame, a column for each of its nodes. What the source reports
/// passes through; after that the frame may have further variables.
#[cycle(evaluate)]
pub fn evaluate<S: Tiles>(
    source: &mut S,
    ground: &Ground<'_>,
    body: &Body,
    frame: &mut Frame,
    scratch: &mut Scratch,
    out: &mut Column,
) -> Result<(), CellError>
    requires signatures { IsGroundOf (S.state source.old) ground.now }
    requires place { HasPlaceOver (S.state source.old) ground.now (body_view body.now) frame.old }
    ensures value { OnOk result (IsColumnOf (S.state source.old) ground.now (body_view body.now) frame.old out.new) }
    ensures places { OnOk result (length out.new ≡ length frame.old) }
    ensures frame { OnOk result (frame.new ≡ frame.old) }
    ensures reads { Reads S.Tiles result source.old source.new }
    ensures fetched { Fetches result ground.now (body_view body.now) frame.old S.Tiles source.old source.new }
{
    let places = frame.places();
    match body {
        Body::Lit(z) => {
            out.fill(places, Outcome::Value(*z));
            Ok(())
        }
        Body::Var(k) => {
            fill_variable(frame, *k, scratch, out)?;
            Ok(())
        }
        Body::Reg(k) => {
            out.fill(places, register(ground.registers, *k));
            Ok(())
        }
        Body::Op1(op, e) => {
            let operand = column_of(source, ground, e, frame, scratch)?;
            operate_column(*op, &operand, out);
            scratch.give_back(operand);
            Ok(())
        }
        Body::Op2(op, l, r) => {
            let left = column_of(source, ground, l, frame, scratch)?;
            let right = column_of(source, ground, r, frame, scratch)?;
            operate_columns(*op, &left, &right, out);
            scratch.give_back(left);
            scratch.give_back(right);
            Ok(())
        }
        Body::Read {
            coverage,
            field,
            indexes,
        } => {
            let what = BodyRead {
                coverage: *coverage,
                field: *field,
                indexes,
            };
            read_cells(source, ground, &what, frame, scratch, out)
        }
        Body::Table {
            domain,
            items,
            indexes,
        } => {
            look_up(domain, items, indexes, frame, scratch, out)?;
            Ok(())
        }
        Body::Bind {
            position,
            interval,
            body: inner,
        } => {
            scratch.keep_runs(false);
            let positions = column_of(source, ground, position, frame, scratch)?;
            let bound = Bound {
                ground: &*ground,
                positions: &positions,
                interval: *interval,
            };
            bind(source, &bound, inner, frame, scratch, out)?;
            scratch.give_back(positions);
            Ok(())
        }
        Body::Fold(fold) => condense(source, ground, fold, frame, scratch, out),
    }
}

/// The outcomes of a body at the places of a frame, in a column of the scratch.
#[cycle(evaluate)]
fn column_of<S: Tiles>(
    source: &mut S,
    ground: &Ground<'_>,
    body: &Body,
    frame: &mut Frame,
    scratch: &mut Scratch,
) -> Result<Column, CellError>
    requires signatures { IsGroundOf (S.state source.old) ground.now }
    requires place { HasPlaceOver (S.state source.old) ground.now (body_view body.now) frame.old }
    ensures value { IfOk result (IsColumnOf (S.state source.old) ground.now (body_view body.now) frame.old) }
    ensures places { IfOk result (λ c. length c ≡ length frame.old) }
    ensures frame { OnOk result (frame.new ≡ frame.old) }
    ensures reads { Reads S.Tiles result source.old source.new }
    ensures fetched { Fetches result ground.now (body_view body.now) frame.old S.Tiles source.old source.new }
{
    let mut out = scratch.take_column()?;
    evaluate(source, ground, body, frame, scratch, &mut out)?;
    Ok(out)
}

/// What the body of a bind stands over, with the outcomes of the position at the places of a frame, and the interval.
#[derive(Clone, Copy)]
pub(crate) struct Bound<'a> {
    pub ground: &'a Ground<'a>,
    pub positions: &'a Column,
    pub interval: Interval,
}

/// Makes `out` the outcomes of a body under one more variable, the value of the position at each place; where that does
/// not lie in the interval, its fault.
#[cycle(evaluate)]
fn bind<S: Tiles>(
    source: &mut S,
    bound: &Bound<'_>,
    body: &Body,
    frame: &mut Frame,
    scratch: &mut Scratch,
    out: &mut Column,
) -> Result<(), CellError>
    requires signatures { IsGroundOf (S.state source.old) bound.now.ground.now }
    requires positions { length bound.now.positions.now ≡ length frame.old }
    requires place { HasPlaceBehind (S.state source.old) bound.now body.now frame.old }
    ensures value { OnOk result (IsColumnBehind (S.state source.old) bound.now body.now frame.old out.new) }
    ensures places { OnOk result (length out.new ≡ length frame.old) }
    ensures frame { OnOk result (frame.new ≡ frame.old) }
    ensures reads { Reads S.Tiles result source.old source.new }
    ensures fetched { FetchesBehind result bound.now body.now frame.old S.Tiles source.old source.new }
{
    let interval = bound.interval;
    if interval.hi < interval.lo {
        out.fill(frame.places(), Outcome::Value(0));
        settle(bound.positions, interval, &mut scratch.outcomes, out)?;
        return Ok(());
    }
    at_coordinates(source, bound, body, frame, scratch, out)?;
    settle(bound.positions, interval, &mut scratch.outcomes, out)?;
    Ok(())
}

/// Makes `out` the outcomes of a body under one more variable, the coordinate of the position at each place, or the
/// lower bound of the interval where it has none there.
#[cycle(evaluate)]
fn at_coordinates<S: Tiles>(
    source: &mut S,
    bound: &Bound<'_>,
    body: &Body,
    frame: &mut Frame,
    scratch: &mut Scratch,
    out: &mut Column,
) -> Result<(), CellError>
    requires signatures { IsGroundOf (S.state source.old) bound.now.ground.now }
    requires positions { length bound.now.positions.now ≡ length frame.old }
    requires ordered { bound.now.interval.lo ≤ℤ bound.now.interval.hi }
    requires place { HasPlaceBehind (S.state source.old) bound.now body.now frame.old }
    ensures value { OnOk result (IsColumnUnder (S.state source.old) bound.now body.now frame.old out.new) }
    ensures places { OnOk result (length out.new ≡ length frame.old) }
    ensures frame { OnOk result (frame.new ≡ frame.old) }
    ensures reads { Reads S.Tiles result source.old source.new }
    ensures fetched { FetchesBehind result bound.now body.now frame.old S.Tiles source.old source.new }
{
    let depth = frame.depth();
    let numbers = coordinates(scratch.alloc(), bound.positions, bound.interval)?;
    frame.push_column(numbers)?;
    evaluate(source, bound.ground, body, frame, scratch, out)?;
    frame.truncate(depth);
    Ok(())
}

/// Makes `out` what a fold gives at the places of a frame: where it is one of windows, of the cells of all of them at
/// once.
#[cycle(evaluate)]
fn condense<S: Tiles>(
    source: &mut S,
    ground: &Ground<'_>,
    fold: &Fold,
    frame: &mut Frame,
    scratch: &mut Scratch,
    out: &mut Column,
) -> Result<(), CellError>
    requires signatures { IsGroundOf (S.state source.old) ground.now }
    requires place { HasPlaceOver (S.state source.old) ground.now (fold_view fold.now) frame.old }
    ensures value { OnOk result (IsColumnOf (S.state source.old) ground.now (fold_view fold.now) frame.old out.new) }
    ensures places { OnOk result (length out.new ≡ length frame.old) }
    ensures frame { OnOk result (frame.new ≡ frame.old) }
    ensures reads { Reads S.Tiles result source.old source.new }
    ensures fetched { Fetches result ground.now (fold_view fold.now) frame.old S.Tiles source.old source.new }
{
    scratch.keep_runs(false);
    let found = window_of(scratch.alloc(), ground, fold, frame)?;
    match found {
        Some(window) => return condense_window(source, ground, &window, scratch, out),
        None => (),
    }
    let mut folds = empty_folds(scratch.alloc(), fold.op, frame.places())?;
    tell_all(source, ground, fold, frame, scratch, &mut folds)?;
    finish_folds(folds, &mut scratch.outcomes)?;
    out.write_outcomes(&scratch.outcomes);
    Ok(())
}

/// Tells accumulators, one for each place of a frame, of all points of a fold's box: in one pass where it is of zones,
/// a tile box at a time where that takes fewer column operations, else a point at a time.
#[cycle(evaluate)]
fn tell_all<S: Tiles>(
    source: &mut S,
    ground: &Ground<'_>,
    fold: &Fold,
    frame: &mut Frame,
    scratch: &mut Scratch,
    folds: &mut [Accumulator],
) -> Result<(), CellError>
    requires place { FoldHasPlace (S.state source.old) ground.now fold.now frame.old }
    requires folds { AreOfFold fold.now frame.old 0 folds.old }
    ensures told { OnOk result (TakeInFold (S.state source.old) ground.now fold.now frame.old folds.old folds.new) }
    ensures op { OnOk result (AreOf fold.now.op folds.new) }
    ensures frame { OnOk result (frame.new ≡ frame.old) }
    ensures reads { Reads S.Tiles result source.old source.new }
    ensures fetched { OnOk result (FetchesFold fold.now frame.old S.Tiles source.old source.new) }
{
    match zones_of(fold, frame) {
        Some(zones) => {
            let zoning = Zoning {
                ground: &*ground,
                zones,
            };
            return tell_zones(source, &zoning, fold, frame, scratch, folds);
        }
        None => (),
    }
    if goes_by_tiles(frame.places(), &fold.domain) {
        return tell_tiles(source, ground, fold, frame, scratch, folds);
    }
    tell_points(source, ground, fold, frame, scratch, folds)
}

/// What the bodies of a fold of zones stand over, and what is found of its condition and its body.
#[derive(Clone, Copy)]
pub(crate) struct Zoning<'a> {
    pub ground: &'a Ground<'a>,
    pub zones: Zones,
}

/// Tells accumulators, one for each place of a frame, of all points of the box of a fold of zones, in one pass over it.
/// The keys of the places are evaluated once.
#[cycle(evaluate)]
pub(crate) fn tell_zones<S: Tiles>(
    source: &mut S,
    on: &Zoning<'_>,
    fold: &Fold,
    frame: &mut Frame,
    scratch: &mut Scratch,
    folds: &mut [Accumulator],
) -> Result<(), CellError>
    requires place { FoldHasPlace (S.state source.old) on.now.ground.now fold.now frame.old }
    requires zones { AreZonesOf fold.now frame.old on.now.zones }
    requires folds { AreOfFold fold.now frame.old 0 folds.old }
    ensures told { OnOk result (TakeInFold (S.state source.old) on.now.ground.now fold.now frame.old folds.old folds.new) }
    ensures op { OnOk result (AreOf fold.now.op folds.new) }
    ensures frame { OnOk result (frame.new ≡ frame.old) }
    ensures reads { Reads S.Tiles result source.old source.new }
    ensures fetched { OnOk result (FetchesByZones on.now fold.now frame.old S.Tiles source.old source.new) }
{
    let key = side_of(fold, on.zones, on.zones.key_first);
    let column = column_of(source, on.ground, key, frame, scratch)?;
    let keys = keys_of(scratch.alloc(), column)?;
    let zoned = Zoned {
        zoning: *on,
        frame: &*frame,
        keys: &keys,
    };
    tell_zone_tiles(source, &zoned, fold, scratch, folds)?;
    scratch.give_back(keys.column);
    Ok(())
}

/// A fold of zones with the places of a frame and their keys.
#[derive(Clone, Copy)]
pub(crate) struct Zoned<'a> {
    pub zoning: Zoning<'a>,
    pub frame: &'a Frame,
    pub keys: &'a Keys,
}

/// Tells accumulators, one for each place of a frame with its key, of all points of the box of a fold of zones, a tile
/// box at a time.
#[cycle(evaluate)]
fn tell_zone_tiles<S: Tiles>(
    source: &mut S,
    zoned: &Zoned<'_>,
    fold: &Fold,
    scratch: &mut Scratch,
    folds: &mut [Accumulator],
) -> Result<(), CellError>
    requires place { FoldHasPlace (S.state source.old) zoned.now.zoning.ground.now fold.now zoned.now.frame.now }
    requires zones { AreZonesOf fold.now zoned.now.frame.now zoned.now.zoning.zones }
    requires keys { length zoned.now.keys.now.column ≡ length zoned.now.frame.now }
    requires folds { AreOfFold fold.now zoned.now.frame.now 0 folds.old }
    ensures told { OnOk result (TakeInZones (S.state source.old) zoned.now fold.now folds.old folds.new) }
    ensures op { OnOk result (AreOf fold.now.op folds.new) }
    ensures reads { Reads S.Tiles result source.old source.new }
    ensures fetched { OnOk result (FetchesZones zoned.now fold.now S.Tiles source.old source.new) }
{
    let area = &fold.domain;
    let _axes = area.axes();
    for number in 0..area.tiles() {
        let part = part_at(scratch.alloc(), area, number)?;
        tell_zone_part(source, zoned, fold, &part, scratch, folds)?;
    }
    Ok(())
}

/// Tells accumulators, one for each place of a frame with its key, of the points of a part of the box of a fold of
/// zones. Both bodies are evaluated once, under the variables of the first place, of which they use none.
#[cycle(evaluate)]
fn tell_zone_part<S: Tiles>(
    source: &mut S,
    zoned: &Zoned<'_>,
    fold: &Fold,
    part: &Part,
    scratch: &mut Scratch,
    folds: &mut [Accumulator],
) -> Result<(), CellError>
    requires place { FoldHasPlace (S.state source.old) zoned.now.zoning.ground.now fold.now zoned.now.frame.now }
    requires zones { AreZonesOf fold.now zoned.now.frame.now zoned.now.zoning.zones }
    requires keys { length zoned.now.keys.now.column ≡ length zoned.now.frame.now }
    requires part { IsPart fold.now.domain part.now }
    requires folds { AreOfFold fold.now zoned.now.frame.now (max_points - length (points part.now.area)) folds.old }
    ensures told { OnOk result (TakeInZone (S.state source.old) zoned.now fold.now part.now folds.old folds.new) }
    ensures folds { OnOk result (GrowBy fold.now part.now zoned.now.frame.now folds.old folds.new) }
    ensures reads { Reads S.Tiles result source.old source.new }
    ensures fetched { OnOk result (FetchesZonePart zoned.now fold.now part.now S.Tiles source.old source.new) }
{
    let on = &zoned.zoning;
    let key_first = on.zones.key_first;
    let mut inner = part_frame(scratch.alloc(), zoned.frame, 0, &part.area)?;
    let side = side_of(fold, on.zones, !key_first);
    let own = column_of(source, on.ground, side, &mut inner, scratch)?;
    let column = other_column(source, on, fold, &mut inner, scratch)?;
    let seen = Seen {
        own: &own,
        column: &column,
        ranks: &part.ranks,
        key_first,
        role: on.zones.role,
    };
    tell_seen(fold.op, folds, zoned.keys, &seen, scratch)?;
    scratch.give_back(own);
    scratch.give_back(column);
    Ok(())
}

/// The outcomes of the other body of a fold of zones at the places of a frame, in a column of the scratch; where it has
/// none, of what is true.
#[cycle(evaluate)]
fn other_column<S: Tiles>(
    source: &mut S,
    on: &Zoning<'_>,
    fold: &Fold,
    frame: &mut Frame,
    scratch: &mut Scratch,
) -> Result<Column, CellError>
    requires signatures { IsGroundOf (S.state source.old) on.now.ground.now }
    requires equation { HasEquation fold.now on.now.zones }
    requires place { HasPlaceOver (S.state source.old) on.now.ground.now (other_of fold.now on.now.zones) frame.old }
    ensures value { IfOk result (IsColumnOfOther (S.state source.old) on.now fold.now frame.old) }
    ensures places { IfOk result (λ c. length c ≡ length frame.old) }
    ensures frame { OnOk result (frame.new ≡ frame.old) }
    ensures reads { Reads S.Tiles result source.old source.new }
    ensures fetched { FetchesOther result on.now fold.now frame.old S.Tiles source.old source.new }
{
    match other_of(fold, on.zones) {
        None => Ok(always_true(frame, scratch)?),
        Some(body) => column_of(source, on.ground, body, frame, scratch),
    }
}

/// Tells accumulators, one for each place of a frame, of all points of a fold's box, in row-major order: for each point
/// a column of its body.
#[cycle(evaluate)]
fn tell_points<S: Tiles>(
    source: &mut S,
    ground: &Ground<'_>,
    fold: &Fold,
    frame: &mut Frame,
    scratch: &mut Scratch,
    folds: &mut [Accumulator],
) -> Result<(), CellError>
    requires place { FoldHasPlace (S.state source.old) ground.now fold.now frame.old }
    requires folds { AreOfFold fold.now frame.old 0 folds.old }
    ensures told { OnOk result (TakeInFold (S.state source.old) ground.now fold.now frame.old folds.old folds.new) }
    ensures op { OnOk result (AreOf fold.now.op folds.new) }
    ensures frame { OnOk result (frame.new ≡ frame.old) }
    ensures reads { Reads S.Tiles result source.old source.new }
    ensures fetched { OnOk result (FetchesFold fold.now frame.old S.Tiles source.old source.new) }
{
    for place in 0..fold.domain.points() {
        let point = Point {
            ground: &*ground,
            place,
        };
        tell_point(source, &point, fold, frame, scratch, folds)?;
    }
    Ok(())
}

/// A point of a fold's box, by its place there, and what the fold's bodies stand over.
#[derive(Clone, Copy)]
pub(crate) struct Point<'a> {
    pub ground: &'a Ground<'a>,
    pub place: u64,
}

/// Tells accumulators of a point of a fold's box.
#[cycle(evaluate)]
fn tell_point<S: Tiles>(
    source: &mut S,
    point: &Point<'_>,
    fold: &Fold,
    frame: &mut Frame,
    scratch: &mut Scratch,
    folds: &mut [Accumulator],
) -> Result<(), CellError>
    requires place { FoldHasPlace (S.state source.old) point.now.ground.now fold.now frame.old }
    requires point { point.now.place < length (points fold.now.domain) }
    requires folds { AreOfFold fold.now frame.old point.now.place folds.old }
    ensures told { OnOk result (TakeInPoint (S.state source.old) point.now fold.now frame.old folds.old folds.new) }
    ensures folds { OnOk result (AreOfFold fold.now frame.old (point.now.place + 1) folds.new) }
    ensures frame { OnOk result (frame.new ≡ frame.old) }
    ensures reads { Reads S.Tiles result source.old source.new }
    ensures fetched { OnOk result (FetchesPoint fold.now frame.old S.Tiles source.old source.new) }
{
    let area = &fold.domain;
    let _few = area.points();
    let depth = frame.depth();
    push_place(area, point.place, &mut scratch.point, frame)?;
    tell(source, point, fold, frame, scratch, folds)?;
    frame.truncate(depth);
    Ok(())
}

/// Tells accumulators of a point of a fold's box, whose coordinates are the last variables of the frame.
#[cycle(evaluate)]
fn tell<S: Tiles>(
    source: &mut S,
    point: &Point<'_>,
    fold: &Fold,
    frame: &mut Frame,
    scratch: &mut Scratch,
    folds: &mut [Accumulator],
) -> Result<(), CellError>
    requires place { BodiesHavePlace (S.state source.old) point.now.ground.now fold.now frame.old }
    requires point { point.now.place < max_points }
    requires folds { AreOfFold fold.now frame.old point.now.place folds.old }
    ensures told { OnOk result (TakeInLast (S.state source.old) point.now fold.now frame.old folds.old folds.new) }
    ensures folds { OnOk result (AreOfFold fold.now frame.old (point.now.place + 1) folds.new) }
    ensures frame { OnOk result (frame.new ≡ frame.old) }
    ensures reads { Reads S.Tiles result source.old source.new }
    ensures fetched { OnOk result (FetchesPoint fold.now frame.old S.Tiles source.old source.new) }
{
    match &fold.condition {
        None => {
            let column = column_of(source, point.ground, &fold.body, frame, scratch)?;
            add_column(folds, point.place, &column);
            scratch.give_back(column);
            Ok(())
        }
        Some(condition) => {
            let chosen = column_of(source, point.ground, condition, frame, scratch)?;
            let column = column_of(source, point.ground, &fold.body, frame, scratch)?;
            add_column_where(folds, point.place, &chosen, &column);
            scratch.give_back(chosen);
            scratch.give_back(column);
            Ok(())
        }
    }
}

/// Tells accumulators, one for each place of a frame, of all points of a fold's box, a tile box at a time.
#[cycle(evaluate)]
fn tell_tiles<S: Tiles>(
    source: &mut S,
    ground: &Ground<'_>,
    fold: &Fold,
    frame: &Frame,
    scratch: &mut Scratch,
    folds: &mut [Accumulator],
) -> Result<(), CellError>
    requires place { FoldHasPlace (S.state source.old) ground.now fold.now frame.now }
    requires folds { AreOfFold fold.now frame.now 0 folds.old }
    ensures told { OnOk result (TakeInFold (S.state source.old) ground.now fold.now frame.now folds.old folds.new) }
    ensures op { OnOk result (AreOf fold.now.op folds.new) }
    ensures reads { Reads S.Tiles result source.old source.new }
    ensures fetched { OnOk result (FetchesFold fold.now frame.now S.Tiles source.old source.new) }
{
    let area = &fold.domain;
    let _axes = area.axes();
    for tile in 0..area.tiles() {
        let part = part_at(scratch.alloc(), area, tile)?;
        let around = Around {
            ground: &*ground,
            frame: &*frame,
        };
        tell_part(source, &around, fold, &part, scratch, folds)?;
    }
    Ok(())
}

/// The places of a frame, and what a fold's bodies stand over.
#[derive(Clone, Copy)]
pub(crate) struct Around<'a> {
    pub ground: &'a Ground<'a>,
    pub frame: &'a Frame,
}

/// Tells accumulators, one for each place of a frame, of the points of a part of a fold's box.
#[cycle(evaluate)]
fn tell_part<S: Tiles>(
    source: &mut S,
    around: &Around<'_>,
    fold: &Fold,
    part: &Part,
    scratch: &mut Scratch,
    folds: &mut [Accumulator],
) -> Result<(), CellError>
    requires place { FoldHasPlace (S.state source.old) around.now.ground.now fold.now around.now.frame.now }
    requires part { IsPart fold.now.domain part.now }
    requires folds { AreOfFold fold.now around.now.frame.now (max_points - length (points part.now.area)) folds.old }
    ensures told { OnOk result (TakeInBox (S.state source.old) around.now fold.now part.now folds.old folds.new) }
    ensures folds { OnOk result (GrowBy fold.now part.now around.now.frame.now folds.old folds.new) }
    ensures reads { Reads S.Tiles result source.old source.new }
    ensures fetched { OnOk result (FetchesPart fold.now part.now around.now S.Tiles source.old source.new) }
{
    for place in 0..around.frame.places() {
        let mut own = part_frame(scratch.alloc(), around.frame, place, &part.area)?;
        let found = fold_frame(source, around.ground, fold, &part.ranks, &mut own, scratch)?;
        merge_at(folds, place, &found);
    }
    Ok(())
}

/// What the places of a frame tell a fold's condenser, each as a point of its box with this rank. A body is not
/// evaluated where its condition is false at each place.
#[cycle(evaluate)]
fn fold_frame<S: Tiles>(
    source: &mut S,
    ground: &Ground<'_>,
    fold: &Fold,
    ranks: &[u64],
    frame: &mut Frame,
    scratch: &mut Scratch,
) -> Result<Accumulator, CellError>
    requires place { BodiesHavePlace (S.state source.old) ground.now fold.now frame.old }
    requires ranks { length ranks.now ≡ length frame.old }
    ensures stands { IfOk result (StandsFor (S.state source.old) ground.now fold.now ranks.now frame.old) }
    ensures op { IfOk result (λ a. a.running.op ≡ fold.now.op) }
    ensures count { IfOk result (λ a. a.running.count ≤ length frame.old) }
    ensures reads { Reads S.Tiles result source.old source.new }
    ensures fetched { OnOk result (FetchesPoint fold.now frame.old S.Tiles source.old source.new) }
{
    match &fold.condition {
        None => {
            let column = column_of(source, ground, &fold.body, frame, scratch)?;
            let found = fold_column(fold.op, &column, ranks);
            scratch.give_back(column);
            Ok(found)
        }
        Some(condition) => {
            let chosen = column_of(source, ground, condition, frame, scratch)?;
            if is_never(&chosen) {
                scratch.give_back(chosen);
                return Ok(Accumulator::empty(fold.op));
            }
            let column = column_of(source, ground, &fold.body, frame, scratch)?;
            let found = fold_column_where(fold.op, &chosen, &column, ranks);
            scratch.give_back(chosen);
            scratch.give_back(column);
            Ok(found)
        }
    }
}
