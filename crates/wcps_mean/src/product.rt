//! Products whose partial results may leave the range.

ghost use Rattle.std.specs.Prelude.{◌≡◌, ◌+◌, ◌*◌, ◌<◌, ◌≤◌, ◌^◌, ℤ, List, [], ◌∷◌, ◌++◌, min};
ghost use Rattle.wcps_mean.specs.Condensers.{product};
ghost use Rattle.wcps_mean.specs.Cells.{ranged, differ};
ghost use Rattle.wcps_mean.specs.Magnitudes.{is_negative, cap};

use crate::cell::{Outcome, range_test};

/// What is kept of a product: enough for its range test, however far partial products leave the range.
#[derive(Clone, Copy)]
pub struct Product {
    /// A factor is 0.
    pub has_zero: bool,
    /// An odd number of factors is negative.
    pub negative: bool,
    /// The product of the other factors' magnitudes, where anything above 2^63 counts as 2^63 + 1.
    pub magnitude: u64,
    ghost positive: { 0 < magnitude },
    ghost capped: { magnitude ≤ 2 ^ 63 + 1 },
}

/// The magnitude that stands for all above 2^63.
const BEYOND: u64 = 9_223_372_036_854_775_809;

impl Product {
    ghost use Rattle.wcps_mean.specs.Products.{StandsFor};

    /// Of no factor.
    pub fn new() -> Product
        ensures { StandsFor result [] }
    {
        Product {
            has_zero: false,
            negative: false,
            magnitude: 1,
        }
    }

    /// With one more factor.
    pub fn times(self, x: i64) -> Product
        ensures { (zs : List ℤ) → StandsFor self zs → StandsFor result (zs ++ x ∷ []) }
    {
        if x == 0 {
            return Product {
                has_zero: true,
                negative: self.negative,
                magnitude: self.magnitude,
            };
        }
        let negative = are_unlike(self.negative, is_below_zero(x));
        let magnitude = capped(self.magnitude, x.unsigned_abs());
        Product {
            has_zero: self.has_zero,
            negative,
            magnitude,
        }
    }

    /// With the factors of another product.
    pub fn with(self, other: Product) -> Product
        ensures { (zs ws : List ℤ) → StandsFor self zs → StandsFor other ws → StandsFor result (zs ++ ws) }
    {
        Product {
            has_zero: self.has_zero || other.has_zero,
            negative: are_unlike(self.negative, other.negative),
            magnitude: capped(self.magnitude, other.magnitude),
        }
    }

    /// The exact product, tested.
    pub fn finish(self) -> Outcome
        ensures { (zs : List ℤ) → StandsFor self zs → result ≡ ranged (product zs) }
    {
        if self.has_zero {
            return Outcome::Value(0);
        }
        let exact = self.magnitude as i128;
        if self.negative {
            return range_test(-exact);
        }
        range_test(exact)
    }
}

/// Whether two truth values differ.
fn are_unlike(a: bool, b: bool) -> bool
    ensures { result ≡ differ a b }
{
    if a { !b } else { b }
}

/// Whether a factor is negative.
fn is_below_zero(x: i64) -> bool
    ensures { result ≡ is_negative x }
{
    x < 0
}

/// The product of two magnitudes, where anything above 2^63 counts as 2^63 + 1.
fn capped(m: u64, n: u64) -> u64
    requires left { 0 < m }
    requires right { 0 < n }
    ensures value { result ≡ cap (m * n) }
    ensures positive { 0 < result }
    ensures capped { result ≤ 2 ^ 63 + 1 }
{
    m.saturating_mul(n).min(BEYOND)
}
