//! Intervals of integers.

ghost use Rattle.std.specs.Prelude.{◌≤ℤ◌};

/// The integers from `lo` to `hi`.
#[derive(Clone, Copy)]
pub struct Bounds {
    pub lo: i32,
    pub hi: i32,
    ghost ordered: { lo ≤ℤ hi },
}
