//! The cell operations as trials.

ghost use Rattle.std.specs.Prelude.{◌≡◌, pos, ◌&&◌, ◌||◌, IsTrue, FitsSigned};
ghost use Rattle.std.specs.Int.{w32};
ghost use Rattle.wcps_mean.specs.Cells.{number};

use crate::trial::{Trial, Tried};
use wcps_mean::is_set;

/// A result that cannot be wrong.
fn sure(value: i64) -> Tried
    ensures { result ≡ record { value = value; mark = pos 0 } }
{
    Tried { value, mark: 0 }
}

/// A truth value as a cell's number: 1 or 0.
fn number(b: bool) -> i64
    ensures { result ≡ number b }
{
    if b { 1 } else { 0 }
}

/// The sum. It wrapped where its sign differs from both operands'.
pub(crate) struct Sum;

impl Trial for Sum {
    ghost use Rattle.wcps_mean.specs.Cells.{exact2};
    ghost use Rattle.wcps_text.specs.declared.operator.BinaryOperator.TheVariants.{Add};

    ghost exact = { exact2 Add };

    fn tried(x: i64, y: i64) -> Tried {
        let value = x.wrapping_add(y);
        Tried {
            value,
            mark: (x ^ value) & (y ^ value),
        }
    }
}

/// The difference. It wrapped where the operands' signs differ and its own from the left one's.
pub(crate) struct Difference;

impl Trial for Difference {
    ghost use Rattle.wcps_mean.specs.Cells.{exact2};
    ghost use Rattle.wcps_text.specs.declared.operator.BinaryOperator.TheVariants.{Subtract};

    ghost exact = { exact2 Subtract };

    fn tried(x: i64, y: i64) -> Tried {
        let value = x.wrapping_sub(y);
        Tried {
            value,
            mark: (x ^ y) & (x ^ value),
        }
    }
}

/// Whether a value fits 32 bits.
pub(crate) fn is_narrow(x: i64) -> bool
    ensures { IsTrue result → FitsSigned w32 x }
{
    -2_147_483_648 <= x && x <= 2_147_483_647
}

/// The product of two values that fit 32 bits; of others it says that it may be wrong. It makes no other test, so its
/// loop becomes vector code.
pub(crate) struct NarrowProduct;

impl Trial for NarrowProduct {
    ghost use Rattle.wcps_mean.specs.Cells.{exact2};
    ghost use Rattle.wcps_text.specs.declared.operator.BinaryOperator.TheVariants.{Multiply};

    ghost exact = { exact2 Multiply };

    fn tried(x: i64, y: i64) -> Tried {
        let value = x.wrapping_mul(y);
        if is_narrow(x) && is_narrow(y) {
            return sure(value);
        }
        Tried { value, mark: -1 }
    }
}

/// The product.
pub(crate) struct Product;

impl Trial for Product {
    ghost use Rattle.wcps_mean.specs.Cells.{exact2};
    ghost use Rattle.wcps_text.specs.declared.operator.BinaryOperator.TheVariants.{Multiply};

    ghost exact = { exact2 Multiply };

    fn tried(x: i64, y: i64) -> Tried {
        let (value, wrapped) = x.overflowing_mul(y);
        if wrapped {
            return Tried { value, mark: -1 };
        }
        sure(value)
    }
}

/// The quotient truncated toward zero.
pub(crate) struct Quotient;

impl Trial for Quotient {
    ghost use Rattle.wcps_mean.specs.Cells.{exact2};
    ghost use Rattle.wcps_text.specs.declared.operator.BinaryOperator.TheVariants.{Divide};

    ghost exact = { exact2 Divide };

    fn tried(x: i64, y: i64) -> Tried {
        if y == 0 || (y == -1 && x == i64::MIN) {
            return Tried { value: 0, mark: -1 };
        }
        sure(x / y)
    }
}

/// `<`.
pub(crate) struct IsLess;

impl Trial for IsLess {
    ghost use Rattle.wcps_mean.specs.Cells.{exact2};
    ghost use Rattle.wcps_text.specs.declared.operator.BinaryOperator.TheVariants.{Less};

    ghost exact = { exact2 Less };

    fn tried(x: i64, y: i64) -> Tried {
        sure(number(x < y))
    }
}

/// `<=`.
pub(crate) struct IsAtMost;

impl Trial for IsAtMost {
    ghost use Rattle.wcps_mean.specs.Cells.{exact2};
    ghost use Rattle.wcps_text.specs.declared.operator.BinaryOperator.TheVariants.{LessEqual};

    ghost exact = { exact2 LessEqual };

    fn tried(x: i64, y: i64) -> Tried {
        sure(number(x <= y))
    }
}

/// `>`.
pub(crate) struct IsGreater;

impl Trial for IsGreater {
    ghost use Rattle.wcps_mean.specs.Cells.{exact2};
    ghost use Rattle.wcps_text.specs.declared.operator.BinaryOperator.TheVariants.{Greater};

    ghost exact = { exact2 Greater };

    fn tried(x: i64, y: i64) -> Tried {
        sure(number(y < x))
    }
}

/// `>=`.
pub(crate) struct IsAtLeast;

impl Trial for IsAtLeast {
    ghost use Rattle.wcps_mean.specs.Cells.{exact2};
    ghost use Rattle.wcps_text.specs.declared.operator.BinaryOperator.TheVariants.{GreaterEqual};

    ghost exact = { exact2 GreaterEqual };

    fn tried(x: i64, y: i64) -> Tried {
        sure(number(y <= x))
    }
}

/// `=`.
pub(crate) struct IsEqual;

impl Trial for IsEqual {
    ghost use Rattle.wcps_mean.specs.Cells.{exact2};
    ghost use Rattle.wcps_text.specs.declared.operator.BinaryOperator.TheVariants.{Equal};

    ghost exact = { exact2 Equal };

    fn tried(x: i64, y: i64) -> Tried {
        sure(number(x == y))
    }
}

/// `!=`.
pub(crate) struct IsOther;

impl Trial for IsOther {
    ghost use Rattle.wcps_mean.specs.Cells.{exact2};
    ghost use Rattle.wcps_text.specs.declared.operator.BinaryOperator.TheVariants.{NotEqual};

    ghost exact = { exact2 NotEqual };

    fn tried(x: i64, y: i64) -> Tried {
        sure(number(x != y))
    }
}

/// `and`.
pub(crate) struct Both;

impl Trial for Both {
    ghost use Rattle.wcps_mean.specs.Cells.{exact2};
    ghost use Rattle.wcps_text.specs.declared.operator.BinaryOperator.TheVariants.{And};

    ghost exact = { exact2 And };

    fn tried(x: i64, y: i64) -> Tried {
        sure(number(is_set(x) && is_set(y)))
    }
}

/// `or`.
pub(crate) struct Either;

impl Trial for Either {
    ghost use Rattle.wcps_mean.specs.Cells.{exact2};
    ghost use Rattle.wcps_text.specs.declared.operator.BinaryOperator.TheVariants.{Or};

    ghost exact = { exact2 Or };

    fn tried(x: i64, y: i64) -> Tried {
        sure(number(is_set(x) || is_set(y)))
    }
}

/// `xor`.
pub(crate) struct OneOnly;

impl Trial for OneOnly {
    ghost use Rattle.wcps_mean.specs.Cells.{exact2};
    ghost use Rattle.wcps_text.specs.declared.operator.BinaryOperator.TheVariants.{Xor};

    ghost exact = { exact2 Xor };

    fn tried(x: i64, y: i64) -> Tried {
        sure(number(is_set(x) != is_set(y)))
    }
}

/// Whether a bit of the two's complement is set; its number is 0 to 63.
pub(crate) struct BitSet;

impl Trial for BitSet {
    ghost use Rattle.wcps_mean.specs.Cells.{exact2};
    ghost use Rattle.wcps_text.specs.declared.operator.BinaryOperator.TheVariants.{Bit};

    ghost exact = { exact2 Bit };

    fn tried(x: i64, y: i64) -> Tried {
        if y < 0 || 63 < y {
            return Tried { value: 0, mark: -1 };
        }
        sure(number((x.cast_unsigned() >> y as u32) % 2 == 1))
    }
}

/// The negative of the left operand; the right one is not read.
pub(crate) struct Negative;

impl Trial for Negative {
    ghost use Rattle.wcps_mean.specs.Cells.{exact1};
    ghost use Rattle.wcps_text.specs.declared.operator.UnaryOperator.TheVariants.{Negate};

    ghost exact = { λ x y. exact1 Negate x };

    fn tried(x: i64, _: i64) -> Tried {
        Difference::tried(0, x)
    }
}

/// The left operand itself; the right one is not read.
pub(crate) struct Itself;

impl Trial for Itself {
    ghost use Rattle.wcps_mean.specs.Cells.{exact1};
    ghost use Rattle.wcps_text.specs.declared.operator.UnaryOperator.TheVariants.{Plus};

    ghost exact = { λ x y. exact1 Plus x };

    fn tried(x: i64, _: i64) -> Tried {
        sure(x)
    }
}

/// Whether the left operand is not true; the right one is not read.
pub(crate) struct Opposite;

impl Trial for Opposite {
    ghost use Rattle.wcps_mean.specs.Cells.{exact1};
    ghost use Rattle.wcps_text.specs.declared.operator.UnaryOperator.TheVariants.{Not};

    ghost exact = { λ x y. exact1 Not x };

    fn tried(x: i64, _: i64) -> Tried {
        sure(number(!is_set(x)))
    }
}

/// The magnitude of the left operand; the right one is not read.
pub(crate) struct Magnitude;

impl Trial for Magnitude {
    ghost use Rattle.wcps_mean.specs.Cells.{exact1};
    ghost use Rattle.wcps_text.specs.declared.operator.UnaryOperator.TheVariants.{Absolute};

    ghost exact = { λ x y. exact1 Absolute x };

    fn tried(x: i64, _: i64) -> Tried {
        if x < 0 {
            return Difference::tried(0, x);
        }
        sure(x)
    }
}
