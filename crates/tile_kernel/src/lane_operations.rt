//! The cell operations as trials in lanes.

ghost use Rattle.arr_core.specs.Cells.{truth_of};
ghost use Rattle.wcps_mean.specs.Cells.{number};
ghost use Rattle.tile_kernel.specs.Lanes.{IsPair, AreEach};

use crate::lanes::{LaneTrial, TriedPair};
use crate::operations::{
    Both, Difference, Either, IsAtLeast, IsAtMost, IsEqual, IsGreater, IsLess, IsOther, OneOnly,
    Sum,
};
use std::simd::prelude::*;

/// The numbers of truth values: 1 where a lane is true, else 0.
fn truths(x: i64x2) -> i64x2
    requires { IsPair x }
    ensures lanes { IsPair result }
    ensures truths { AreEach (λ z. number (truth_of z)) x result }
{
    x.simd_ne(i64x2::splat(0))
        .select(i64x2::splat(1), i64x2::splat(0))
}

impl LaneTrial for Sum {
    fn tried_pair(x: i64x2, y: i64x2) -> TriedPair {
        let values = x + y;
        TriedPair {
            values,
            marks: (x ^ values) & (y ^ values),
        }
    }
}

impl LaneTrial for Difference {
    fn tried_pair(x: i64x2, y: i64x2) -> TriedPair {
        let values = x - y;
        TriedPair {
            values,
            marks: (x ^ y) & (x ^ values),
        }
    }
}

impl LaneTrial for IsLess {
    fn tried_pair(x: i64x2, y: i64x2) -> TriedPair {
        TriedPair {
            values: x.simd_lt(y).select(i64x2::splat(1), i64x2::splat(0)),
            marks: i64x2::splat(0),
        }
    }
}

impl LaneTrial for IsAtMost {
    fn tried_pair(x: i64x2, y: i64x2) -> TriedPair {
        TriedPair {
            values: x.simd_le(y).select(i64x2::splat(1), i64x2::splat(0)),
            marks: i64x2::splat(0),
        }
    }
}

impl LaneTrial for IsGreater {
    fn tried_pair(x: i64x2, y: i64x2) -> TriedPair {
        IsLess::tried_pair(y, x)
    }
}

impl LaneTrial for IsAtLeast {
    fn tried_pair(x: i64x2, y: i64x2) -> TriedPair {
        IsAtMost::tried_pair(y, x)
    }
}

impl LaneTrial for IsEqual {
    fn tried_pair(x: i64x2, y: i64x2) -> TriedPair {
        TriedPair {
            values: x.simd_eq(y).select(i64x2::splat(1), i64x2::splat(0)),
            marks: i64x2::splat(0),
        }
    }
}

impl LaneTrial for IsOther {
    fn tried_pair(x: i64x2, y: i64x2) -> TriedPair {
        TriedPair {
            values: x.simd_ne(y).select(i64x2::splat(1), i64x2::splat(0)),
            marks: i64x2::splat(0),
        }
    }
}

impl LaneTrial for Both {
    fn tried_pair(x: i64x2, y: i64x2) -> TriedPair {
        TriedPair {
            values: truths(x) & truths(y),
            marks: i64x2::splat(0),
        }
    }
}

impl LaneTrial for Either {
    fn tried_pair(x: i64x2, y: i64x2) -> TriedPair {
        TriedPair {
            values: truths(x) | truths(y),
            marks: i64x2::splat(0),
        }
    }
}

impl LaneTrial for OneOnly {
    fn tried_pair(x: i64x2, y: i64x2) -> TriedPair {
        TriedPair {
            values: truths(x) ^ truths(y),
            marks: i64x2::splat(0),
        }
    }
}
