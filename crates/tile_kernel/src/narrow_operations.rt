//! The cell operations in 32 bits.

ghost use Rattle.std.specs.Prelude.{◌≡◌};
ghost use Rattle.wcps_mean.specs.Cells.{number};

use crate::narrow_trial::NarrowTrial;
use crate::operations::{
    Both, Difference, Either, IsAtLeast, IsAtMost, IsEqual, IsGreater, IsLess, IsOther, Itself,
    Magnitude, Negative, OneOnly, Opposite, Product, Quotient, Sum,
};

/// A truth value as a cell's number of 32 bits: 1 or 0.
fn narrow_number(b: bool) -> i32
    ensures { result ≡ number b }
{
    if b { 1 } else { 0 }
}

impl NarrowTrial for Sum {
    fn narrow(x: i32, y: i32) -> i32 {
        x.wrapping_add(y)
    }
}

impl NarrowTrial for Difference {
    fn narrow(x: i32, y: i32) -> i32 {
        x.wrapping_sub(y)
    }
}

impl NarrowTrial for Product {
    fn narrow(x: i32, y: i32) -> i32 {
        x.wrapping_mul(y)
    }
}

impl NarrowTrial for Quotient {
    fn narrow(x: i32, y: i32) -> i32 {
        if y == 0 || (y == -1 && x == i32::MIN) {
            return 0;
        }
        x / y
    }
}

impl NarrowTrial for IsLess {
    fn narrow(x: i32, y: i32) -> i32 {
        narrow_number(x < y)
    }
}

impl NarrowTrial for IsAtMost {
    fn narrow(x: i32, y: i32) -> i32 {
        narrow_number(x <= y)
    }
}

impl NarrowTrial for IsGreater {
    fn narrow(x: i32, y: i32) -> i32 {
        narrow_number(y < x)
    }
}

impl NarrowTrial for IsAtLeast {
    fn narrow(x: i32, y: i32) -> i32 {
        narrow_number(y <= x)
    }
}

impl NarrowTrial for IsEqual {
    fn narrow(x: i32, y: i32) -> i32 {
        narrow_number(x == y)
    }
}

impl NarrowTrial for IsOther {
    fn narrow(x: i32, y: i32) -> i32 {
        narrow_number(x != y)
    }
}

impl NarrowTrial for Both {
    fn narrow(x: i32, y: i32) -> i32 {
        narrow_number((x != 0) & (y != 0))
    }
}

impl NarrowTrial for Either {
    fn narrow(x: i32, y: i32) -> i32 {
        narrow_number((x != 0) | (y != 0))
    }
}

impl NarrowTrial for OneOnly {
    fn narrow(x: i32, y: i32) -> i32 {
        narrow_number((x != 0) ^ (y != 0))
    }
}

impl NarrowTrial for Negative {
    fn narrow(x: i32, _: i32) -> i32 {
        x.wrapping_neg()
    }
}

impl NarrowTrial for Itself {
    fn narrow(x: i32, _: i32) -> i32 {
        x
    }
}

impl NarrowTrial for Opposite {
    fn narrow(x: i32, _: i32) -> i32 {
        narrow_number(x == 0)
    }
}

impl NarrowTrial for Magnitude {
    fn narrow(x: i32, _: i32) -> i32 {
        x.wrapping_abs()
    }
}
