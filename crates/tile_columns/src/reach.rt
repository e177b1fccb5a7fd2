//! How far windows reach along the axes of a coverage.

ghost use Rattle.std.specs.Prelude.{◌≡◌, ◌+◌, ◌^◌, ◌<◌, ◌≤◌, ◌≤ℤ◌, ◌+ℤ◌, length, IfSome, IfOk, pos, negsuc};
ghost use Rattle.std.specs.Int.{int_max, int_min};
ghost use Rattle.std.specs.List.{All};
ghost use Rattle.tile_columns.specs.Reaching.{extent, reached_by, along, AreSpansOf, EndsBy, IsReach, HasExtents, Encloses};

use arr_core::{Axis, Domain, coordinate, distance};
use plan_ir::Interval;
use std::alloc::{AllocError, Global};
use tile_kernel::Span;

/// The coordinates of two axes.
#[derive(Clone, Copy)]
pub(crate) struct Extents {
    pub rows: Interval,
    pub columns: Interval,
}

/// How far windows reach along an axis: the coordinates of their places, those of the offsets, the bounds outside of
/// which nothing is read, and the halo, which is what all of them together read.
#[derive(Clone, Copy)]
pub(crate) struct Reach {
    pub places: Interval,
    pub offsets: Interval,
    pub bounds: Interval,
    pub halo: Interval,
}

/// How many coordinates an interval has.
pub(crate) fn size_of(interval: Interval) -> u64
    ensures value { result ≡ extent interval }
    ensures small { result ≤ 2 ^ 32 }
{
    distance(interval.lo, interval.hi) + 1
}

/// The coordinates of a domain that has two axes.
pub(crate) fn extents_of(domain: &Domain) -> Option<Extents>
    ensures { IfSome result (λ e. HasExtents e domain.now) }
{
    match domain.axes() {
        [rows, columns] => Some(Extents {
            rows: Interval {
                lo: rows.lo,
                hi: rows.hi,
            },
            columns: Interval {
                lo: columns.lo,
                hi: columns.hi,
            },
        }),
        _ => None,
    }
}

/// An axis with other bounds.
fn bounded(alloc: Global, axis: &Axis, interval: Interval) -> Result<Axis, AllocError>
    ensures { IfOk result (λ a. (a.lo ≡ interval.lo) × (a.hi ≡ interval.hi)) }
{
    Ok(Axis {
        name: axis.name.copy(alloc)?,
        lo: interval.lo,
        hi: interval.hi,
    })
}

/// The axes of a domain of two, with these coordinates, where they make a domain.
pub(crate) fn grid(
    alloc: Global,
    like: &Domain,
    extents: Extents,
) -> Result<Option<Domain>, AllocError>
    ensures { IfOk result (λ o. IfSome o (λ d. HasExtents extents d)) }
{
    match like.axes() {
        [rows, columns] => {
            let mut axes = Vec::new(alloc);
            axes.push(bounded(alloc, rows, extents.rows)?)?;
            axes.push(bounded(alloc, columns, extents.columns)?)?;
            match Domain::new(axes) {
                Ok(domain) => Ok(Some(domain)),
                Err(_) => Ok(None),
            }
        }
        _ => Ok(None),
    }
}

/// The domain of two axes with other coordinates of both, which lie within the old ones.
pub(crate) fn narrow(alloc: Global, domain: &Domain, extents: Extents) -> Result<Domain, AllocError>
    requires { Encloses domain.now extents }
    ensures { IfOk result (HasExtents extents) }
{
    let rows = extents.rows;
    let columns = extents.columns;
    let across = domain.narrow(alloc, 1, columns.lo, columns.hi)?;
    across.narrow(alloc, 0, rows.lo, rows.hi)
}

/// The sum of a place and an offset, or the bound where that is higher.
fn lowest(place: i32, offset: i32, bound: i32) -> i64
    ensures value { result ≡ int_max (place +ℤ offset) bound }
    ensures within { (negsuc (2 ^ 32) ≤ℤ result) × (result ≤ℤ pos (2 ^ 32)) }
{
    let sum = place as i64 + offset as i64;
    let bound = bound as i64;
    if sum < bound { bound } else { sum }
}

/// The sum of a place and an offset, or the bound where that is lower.
fn highest(place: i32, offset: i32, bound: i32) -> i64
    ensures value { result ≡ int_min (place +ℤ offset) bound }
    ensures within { (negsuc (2 ^ 32) ≤ℤ result) × (result ≤ℤ pos (2 ^ 32)) }
{
    let sum = place as i64 + offset as i64;
    let bound = bound as i64;
    if bound < sum { bound } else { sum }
}

/// How far windows with these offsets reach around these places, if they read anything within the bounds.
pub(crate) fn reach_of(places: Interval, offsets: Interval, bounds: Interval) -> Option<Reach>
    requires places { places.lo ≤ℤ places.hi }
    requires offsets { offsets.lo ≤ℤ offsets.hi }
    ensures reach { IfSome result IsReach }
    ensures parts { IfSome result (λ r. (r.places ≡ places) × (r.offsets ≡ offsets) × (r.bounds ≡ bounds)) }
{
    let lo = lowest(places.lo, offsets.lo, bounds.lo);
    let hi = highest(places.hi, offsets.hi, bounds.hi);
    if hi < lo {
        return None;
    }
    Some(Reach {
        places,
        offsets,
        bounds,
        halo: Interval {
            lo: lo as i32,
            hi: hi as i32,
        },
    })
}

/// How far a coordinate is above the first one.
fn steps_to(base: i32, z: i64) -> usize
    requires low { base ≤ℤ z }
    requires high { z ≤ℤ pos (2 ^ 32) }
    ensures value { base +ℤ pos result ≡ z }
    ensures small { result ≤ 2 ^ 34 }
{
    (z - base as i64) as usize
}

/// Where the coordinates that the window of a place reaches stand in the halo.
fn span_at(reach: &Reach, place: i32) -> Span
    requires reach { IsReach reach.now }
    requires low { reach.now.places.lo ≤ℤ place }
    requires high { place ≤ℤ reach.now.places.hi }
    ensures reached { along reach.now.halo.lo result ≡ reached_by reach.now place }
    ensures within { EndsBy (extent reach.now.halo) result }
{
    let first = lowest(place, reach.offsets.lo, reach.bounds.lo);
    let last = highest(place, reach.offsets.hi, reach.bounds.hi);
    if last < first {
        return Span { from: 0, to: 0 };
    }
    let base = reach.halo.lo;
    Span {
        from: steps_to(base, first),
        to: steps_to(base, last) + 1,
    }
}

/// Where the coordinates that the windows of all places reach stand in the halo, place by place.
pub(crate) fn spans_of(alloc: Global, reach: &Reach) -> Result<Vec<Span>, AllocError>
    requires { IsReach reach.now }
    ensures reached { IfOk result (λ v. AreSpansOf reach.now v.items) }
    ensures within { IfOk result (λ v. All (EndsBy (extent reach.now.halo)) v.items) }
    ensures many { IfOk result (λ v. length v.items ≡ extent reach.now.places) }
{
    let mut spans = Vec::new(alloc);
    for step in 0..size_of(reach.places) {
        let place = coordinate(reach.places.lo, reach.places.hi, step);
        spans.push(span_at(reach, place))?;
    }
    Ok(spans)
}
