//! Numbers of a box written over the cells of another, by runs along the last axis. The cells of a box stand in
//! row-major order of its points.

ghost use Rattle.std.specs.Prelude.{◌≡◌, ◌+◌, ◌-◌, ◌*◌, ◌<◌, ◌≤◌, ◌^◌, ◌≤ℤ◌, length, slice_index_or, pos};
ghost use Rattle.arr_core.specs.Domains.{count, AreOrdered, rank_of};
ghost use Rattle.arr_core.specs.Limits.{max_points};
ghost use Rattle.tile_store.specs.Numbers.{HasNumbers, number_of};
ghost use Rattle.tile_store.specs.Overlays.{IsCommon, Overlaid, FirstIs, HasRun, KeepsBelow, KeepsFrom};

use crate::numbers::Numbers;
use arr_core::{Axis, count_points, distance};

/// Where the coordinates that two axes have in common begin, counted from the lower bound of each, and how many there
/// are.
#[derive(Clone, Copy)]
pub(crate) struct Common {
    pub to: usize,
    pub from: usize,
    pub count: usize,
}

/// The coordinates that two axes have in common.
fn common_of(to: &Axis, from: &Axis) -> Common
    requires to { to.now.lo ≤ℤ to.now.hi }
    requires from { from.now.lo ≤ℤ from.now.hi }
    ensures common { IsCommon to.now from.now result }
    ensures small { (result.to + result.count ≤ 2 ^ 33) × (result.from + result.count ≤ 2 ^ 33) }
{
    let lo = to.lo.max(from.lo);
    let hi = to.hi.min(from.hi);
    if hi < lo {
        return Common {
            to: 0,
            from: 0,
            count: 0,
        };
    }
    Common {
        to: distance(to.lo, lo) as usize,
        from: distance(from.lo, lo) as usize,
        count: distance(lo, hi) as usize + 1,
    }
}

/// Writes numbers at the points that the box with the axes `axes` has in common with the box of `to`. The numbers of
/// its points stand from the place `at` on.
pub(crate) fn overlay(to: &mut [i64], to_axes: &[Axis], numbers: &Numbers, at: usize, axes: &[Axis])
    requires to { length to.old ≡ count to_axes.now }
    requires from { HasNumbers numbers.now (at + count axes.now) }
    requires to_ordered { AreOrdered to_axes.now }
    requires ordered { AreOrdered axes.now }
    requires to_few { count to_axes.now ≤ max_points }
    requires few { at + count axes.now ≤ max_points }
    ensures { Overlaid to_axes.now axes.now (λ p. number_of numbers.now (at + rank_of axes.now p)) to.old to.new }
{
    match to_axes {
        [] => write_first(to, numbers, at, axes.is_empty()),
        [a, to_rest @ ..] => match axes {
            [] => {}
            [b, rest @ ..] => {
                let common = common_of(a, b);
                if to_rest.is_empty() && rest.is_empty() {
                    write_run(to, numbers, at, common);
                    return;
                }
                let to_row = count_points(to_rest) as usize;
                let row = count_points(rest) as usize;
                for step in 0..common.count {
                    let to_at = (common.to + step) * to_row;
                    let from_at = at + (common.from + step) * row;
                    overlay(
                        &mut to[to_at..to_at + to_row],
                        to_rest,
                        numbers,
                        from_at,
                        rest,
                    );
                }
            }
        },
    }
}

/// Writes the first cell where it is wanted.
fn write_first(to: &mut [i64], numbers: &Numbers, at: usize, wanted: bool)
    requires to { 0 < length to.old }
    requires from { HasNumbers numbers.now (at + 1) }
    ensures { FirstIs wanted (number_of numbers.now at) to.old to.new }
{
    if wanted {
        to[0] = numbers.at(at);
    }
}

/// Writes the cells of the coordinates in common along a single axis.
fn write_run(to: &mut [i64], numbers: &Numbers, at: usize, common: Common)
    requires to { common.to + common.count ≤ length to.old }
    requires from { HasNumbers numbers.now (at + (common.from + common.count)) }
    requires few { at + (common.from + common.count) ≤ max_points }
    ensures inside { HasRun common (λ i. number_of numbers.now (at + i)) to.new }
    ensures below { KeepsBelow common.to to.old to.new }
    ensures above { KeepsFrom (common.to + common.count) to.old to.new }
{
    match numbers {
        Numbers::Same(number) => fill_run(to, common, *number),
        Numbers::Each(list) => copy_run(to, list, at, common),
    }
}

/// Copies the cells of the coordinates in common along a single axis.
fn copy_run(to: &mut [i64], from: &[i64], at: usize, common: Common)
    requires to { common.to + common.count ≤ length to.old }
    requires from { at + (common.from + common.count) ≤ length from.now }
    requires few { at + (common.from + common.count) ≤ max_points }
    ensures inside { HasRun common (λ i. slice_index_or from.now (at + i) (pos 0)) to.new }
    ensures below { KeepsBelow common.to to.old to.new }
    ensures above { KeepsFrom (common.to + common.count) to.old to.new }
{
    let first = at + common.from;
    to[common.to..common.to + common.count].copy_from_slice(&from[first..first + common.count]);
}

/// Writes a number at the coordinates in common along a single axis.
fn fill_run(to: &mut [i64], common: Common, number: i64)
    requires { common.to + common.count ≤ length to.old }
    ensures inside { HasRun common (λ i. number) to.new }
    ensures below { KeepsBelow common.to to.old to.new }
    ensures above { KeepsFrom (common.to + common.count) to.old to.new }
{
    to[common.to..common.to + common.count].fill(number);
}
