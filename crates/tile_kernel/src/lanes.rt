//! Operations tried in lanes: two places in a vector, four vectors at a time.

ghost use Rattle.std.specs.Prelude.{◌≡◌, ◌+◌, ◌*◌, ◌≤◌, ◌≤ℤ◌, pos, length, IsTrue};
ghost use Rattle.tile_kernel.specs.Columns.{exact_at, AreValues, AreValuesBy};
ghost use Rattle.tile_kernel.specs.Lanes.{IsPair, AreSure, AreTried, GoesOn};

use crate::loops::{try_from, try_places};
use crate::operand::Operand;
use crate::trial::Trial;
use std::simd::prelude::*;

/// The results of a trial in two lanes, and their marks.
#[derive(Clone, Copy)]
pub(crate) struct TriedPair {
    pub values: i64x2,
    pub marks: i64x2,
}

/// A trial that is made in two lanes at once.
pub(crate) trait LaneTrial: Trial {
    /// Tries the operation in each lane.
    fn tried_pair(x: i64x2, y: i64x2) -> TriedPair
        requires left { IsPair x }
        requires right { IsPair y }
        ensures values { IsPair result.values }
        ensures marks { IsPair result.marks }
        ensures tried { AreTried Self.exact x y result.values result.marks };
}

/// How many places are tried at a time.
const BLOCK: usize = 8;

/// A mark that is negative where one of two is.
fn joined(marks: i64x2) -> i64
    requires { IsPair marks }
    ensures { pos 0 ≤ℤ result → AreSure marks }
{
    marks.reduce_or()
}

/// Tries an operation at a place and at the next one; gives the marks, joined with those before.
fn try_pair<O: LaneTrial, L: Operand, R: Operand>(
    place: usize,
    left: &L,
    right: &R,
    out: &mut [i64],
    marks: i64x2,
) -> i64x2
    requires left { place + 2 ≤ L.places left.now }
    requires right { place + 2 ≤ R.places right.now }
    requires out { place + 2 ≤ length out.old }
    requires marks { IsPair marks }
    ensures marks { IsPair result }
    ensures length { length out.new ≡ length out.old }
    ensures tried { GoesOn 2 (exact_at O.exact (L.value left.now) (R.value right.now)) place marks out.old result out.new }
{
    let tried = O::tried_pair(left.pair(place), right.pair(place));
    tried.values.copy_to_slice(&mut out[place..]);
    marks | tried.marks
}

/// Tries an operation at a place and at the next seven.
fn try_block<O: LaneTrial, L: Operand, R: Operand>(
    place: usize,
    left: &L,
    right: &R,
    out: &mut [i64],
    marks: i64x2,
) -> i64x2
    requires left { place + 8 ≤ L.places left.now }
    requires right { place + 8 ≤ R.places right.now }
    requires out { place + 8 ≤ length out.old }
    requires marks { IsPair marks }
    ensures marks { IsPair result }
    ensures length { length out.new ≡ length out.old }
    ensures tried { GoesOn 8 (exact_at O.exact (L.value left.now) (R.value right.now)) place marks out.old result out.new }
{
    let a = try_pair::<O, L, R>(place, left, right, out, marks);
    let b = try_pair::<O, L, R>(place + 2, left, right, out, a);
    let c = try_pair::<O, L, R>(place + 4, left, right, out, b);
    try_pair::<O, L, R>(place + 6, left, right, out, c)
}

/// Tries an operation in so many blocks from the first place on; gives a mark that is negative where some lane's is.
fn try_blocks<O: LaneTrial, L: Operand, R: Operand>(
    blocks: usize,
    left: &L,
    right: &R,
    out: &mut [i64],
) -> i64
    requires left { 8 * blocks ≤ L.places left.now }
    requires right { 8 * blocks ≤ R.places right.now }
    requires out { 8 * blocks ≤ length out.old }
    ensures length { length out.new ≡ length out.old }
    ensures tried { AreValuesBy result (8 * blocks) (exact_at O.exact (L.value left.now) (R.value right.now)) out.new }
{
    let mut marks = i64x2::splat(0);
    for block in 0..blocks {
        marks = try_block::<O, L, R>(BLOCK * block, left, right, out, marks);
    }
    joined(marks)
}

/// Tries an operation at the first `len` places, in lanes where there are eight places more; tells whether each result
/// is the operation's value.
pub(crate) fn try_lanes<O: LaneTrial, L: Operand, R: Operand>(
    len: usize,
    left: &L,
    right: &R,
    out: &mut [i64],
) -> bool
    requires left { len ≤ L.places left.now }
    requires right { len ≤ R.places right.now }
    requires out { len ≤ length out.old }
    ensures { IsTrue result → AreValues len (exact_at O.exact (L.value left.now) (R.value right.now)) out.new }
{
    if len < BLOCK {
        return try_places::<O, L, R>(len, left, right, out);
    }
    let blocks = len / BLOCK;
    let mark = try_blocks::<O, L, R>(blocks, left, right, out);
    try_from::<O, L, R>(BLOCK * blocks, len, left, right, out, mark)
}
