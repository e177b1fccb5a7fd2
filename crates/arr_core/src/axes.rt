//! Lists of axes: how many coordinates and points they have, and the places of points in row-major order, the last axis
//! fastest.

ghost use Rattle.std.specs.Prelude.{◌≡◌, ◌+◌, ◌*◌, ◌<◌, ◌≤◌, ◌^◌, ◌≤ℤ◌, ◌+ℤ◌, pos, [], ◌++◌, length, OnOk};
ghost use Rattle.arr_core.specs.Domains.{gap, size_of, count as count_of, AreOrdered, rank_of, point_at};
ghost use Rattle.arr_core.specs.Limits.{max_axes, max_points};

use crate::domain::Axis;
use std::alloc::AllocError;

/// How far two coordinates are apart.
pub fn distance(lo: i32, x: i32) -> u64
    ensures gap { result ≡ gap lo x }
    ensures small { result < 2 ^ 32 }
{
    (x as i64 - lo as i64).unsigned_abs()
}

/// The coordinate that lies so far above the lower of two bounds.
pub fn coordinate(lo: i32, hi: i32, steps: u64) -> i32
    requires ordered { lo ≤ℤ hi }
    requires inside { steps ≤ gap lo hi }
    ensures { result ≡ lo +ℤ pos steps }
{
    (lo as i64 + steps as i64) as i32
}

impl Axis {
    /// How many coordinates the axis has; both bounds are of them.
    pub fn size(&self) -> u64
        ensures value { result ≡ size_of self.now }
        ensures small { result ≤ 2 ^ 32 }
    {
        distance(self.lo, self.hi) + 1
    }
}

/// How many points the axes have.
pub fn count_points(axes: &[Axis]) -> u64
    requires ordered { AreOrdered axes.now }
    requires few { count_of axes.now ≤ max_points }
    ensures count { result ≡ count_of axes.now }
    ensures small { result ≤ max_points }
{
    match axes {
        [] => 1,
        [axis, rest @ ..] => axis.size() * count_points(rest),
    }
}

/// The place of a point in the row-major list of the axes' points, from 0; of a point outside a number that no point
/// has to have.
pub fn rank_of(axes: &[Axis], point: &[i32]) -> u64
    requires ordered { AreOrdered axes.now }
    requires few { count_of axes.now ≤ max_points }
    requires few_axes { length axes.now ≤ max_axes }
    ensures rank { result ≡ rank_of axes.now point.now }
    ensures below { result ≤ length axes.now * 2 ^ 56 }
{
    match axes {
        [] => 0,
        [axis, rest @ ..] => match point {
            [] => 0,
            [x, further @ ..] => distance(axis.lo, *x) * count_points(rest)
                + rank_of(rest, further),
        },
    }
}

/// Puts the coordinates of the point at a place of the row-major list of the axes' points, of which there are `count`,
/// at the end of a list.
pub(crate) fn push_coordinates(
    list: &mut Vec<i32>,
    axes: &[Axis],
    count: u64,
    place: u64,
) -> Result<(), AllocError>
    requires ordered { AreOrdered axes.now }
    requires counted { count ≡ count_of axes.now }
    requires inside { place < count }
    ensures { OnOk result (list.new.items ≡ list.old.items ++ point_at axes.now place) }
{
    match axes {
        [] => Ok(()),
        [axis, rest @ ..] => {
            let inner = count / axis.size();
            let x = coordinate(axis.lo, axis.hi, place / inner);
            list.push(x)?;
            push_coordinates(list, rest, inner, place % inner)?;
            Ok(())
        }
    }
}
