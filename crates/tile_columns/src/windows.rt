//! Folds of windows, as those of focal sums: at each place of a box they condense the cells within reach of it, as far
//! as these lie within bounds.

ghost use Rattle.std.specs.Prelude.{◌≤◌, IfSome, IfOk, IsTrue};
ghost use Rattle.plan_ir.specs.Placed.{LiesWithin};
ghost use Rattle.tile_columns.specs.Windows.{halo_cells, GoesOver, IsNear, Covers, CanRead, IsWindow};

use crate::frame::Frame;
use crate::ground::Ground;
use crate::pattern::{Pattern, pattern_of};
use crate::reach::{Extents, Reach, extents_of, grid, reach_of, size_of};
use arr_core::{Domain, MAX_TILE, Signature};
use plan_ir::{Fold, Index, Interval};
use std::alloc::{AllocError, Global};
use wcps_mean::place_at;
use wcps_text::Aggregate;

/// The windows of all places of a frame. The coverage that they read is also known by its place in the plan.
#[derive(Clone, Copy)]
pub(crate) struct Window {
    pub op: Aggregate,
    pub place: usize,
    pub pattern: Pattern,
    pub rows: Reach,
    pub columns: Reach,
}

/// How many cells a halo has at most.
const MAX_HALO: u64 = 16_384;

/// The coordinates that the variables of the places go over, if they turn as the axes of a box.
fn places_of(
    alloc: Global,
    pattern: &Pattern,
    like: &Domain,
    frame: &Frame,
) -> Result<Option<Extents>, AllocError>
    ensures { IfOk result (λ o. IfSome o (GoesOver pattern.now frame.now)) }
{
    let Some(rows) = frame.bounds(pattern.rows.level) else {
        return Ok(None);
    };
    let Some(columns) = frame.bounds(pattern.columns.level) else {
        return Ok(None);
    };
    let places = Extents { rows, columns };
    let Some(area) = grid(alloc, like, places)? else {
        return Ok(None);
    };
    let indexes = [
        Index::Var(pattern.rows.level),
        Index::Var(pattern.columns.level),
    ];
    if !frame.goes_over(&indexes, &area) {
        return Ok(None);
    }
    Ok(Some(places))
}

/// Whether the halo of windows has few cells, no more than there are pairs of a place and a point, and there are few
/// places.
fn is_near(window: &Window, pairs: u64) -> bool
    ensures near { IsTrue result → IsNear window.now }
    ensures pairs { IsTrue result → halo_cells window.now ≤ pairs }
{
    let width = size_of(window.columns.halo);
    let height = size_of(window.rows.halo);
    let across = size_of(window.columns.places);
    let down = size_of(window.rows.places);
    if width > MAX_TILE || height > MAX_HALO || across > MAX_TILE || down > MAX_TILE {
        return false;
    }
    height * width <= MAX_HALO && height * width <= pairs && down * across <= MAX_TILE
}

/// Whether one interval lies within another.
fn lies_within(inner: Interval, outer: Interval) -> bool
    ensures { IsTrue result → LiesWithin inner outer }
{
    outer.lo <= inner.lo && inner.hi <= outer.hi
}

/// Whether a coverage has the field of windows, and two axes on which their halo lies.
fn covers(window: &Window, signature: &Signature) -> bool
    ensures { IsTrue result → Covers window.now signature.now }
{
    if window.pattern.field >= signature.fields.len() {
        return false;
    }
    match extents_of(&signature.domain) {
        None => false,
        Some(extents) => {
            if !lies_within(window.rows.halo, extents.rows) {
                return false;
            }
            lies_within(window.columns.halo, extents.columns)
        }
    }
}

/// Whether the coverage of windows is there, and covers their halo.
fn can_read(ground: &Ground<'_>, window: &Window) -> bool
    ensures { IsTrue result → CanRead ground.now window.now }
{
    match ground.signatures.get(window.place) {
        None => false,
        Some(signature) => covers(window, signature),
    }
}

/// The windows of a fold at the places of a frame, if it is one of windows that lie within few cells.
pub(crate) fn window_of(
    alloc: Global,
    ground: &Ground<'_>,
    fold: &Fold,
    frame: &Frame,
) -> Result<Option<Window>, AllocError>
    ensures { IfOk result (λ o. IfSome o (IsWindow ground.now fold.now frame.now)) }
{
    let Some(pattern) = pattern_of(fold, frame.depth()) else {
        return Ok(None);
    };
    let Some(offsets) = extents_of(&fold.domain) else {
        return Ok(None);
    };
    let Some(places) = places_of(alloc, &pattern, &fold.domain, frame)? else {
        return Ok(None);
    };
    let Some(rows) = reach_of(places.rows, offsets.rows, pattern.rows.bounds) else {
        return Ok(None);
    };
    let Some(columns) = reach_of(places.columns, offsets.columns, pattern.columns.bounds) else {
        return Ok(None);
    };
    let window = Window {
        op: fold.op,
        place: place_at(ground.coverages, pattern.coverage),
        pattern,
        rows,
        columns,
    };
    if !is_near(&window, frame.places() as u64 * fold.domain.points()) {
        return Ok(None);
    }
    if !can_read(ground, &window) {
        return Ok(None);
    }
    Ok(Some(window))
}
