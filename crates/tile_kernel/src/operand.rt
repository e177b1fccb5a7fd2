//! Operands of a kernel: a value at each place, or one at every place.

ghost use Rattle.std.specs.Prelude.{◌≡◌, ℕ, ℤ, pos, ◌+◌, ◌<◌, ◌≤◌, length, slice_index_or};
ghost use Rattle.arr_core.specs.Limits.{max_tile};
ghost use Rattle.tile_kernel.specs.Lanes.{IsPair, AreAt};

use std::simd::prelude::*;

/// The values that a kernel reads.
pub(crate) trait Operand {
    ghost value: { Self → ℕ → ℤ };

    ghost places: { Self → ℕ };

    /// The value at a place.
    fn value(&self, place: usize) -> i64
        requires { place < places self.now }
        ensures { result ≡ value self.now place };

    /// The values at a place and at the next one.
    fn pair(&self, place: usize) -> i64x2
        requires { place + 2 ≤ places self.now }
        ensures lanes { IsPair result }
        ensures values { AreAt (value self.now) place result };
}

/// A value at each place.
#[derive(Clone, Copy, Drop)]
pub(crate) struct Each<'a> {
    pub values: &'a [i64],
}

impl Operand for Each<'_> {
    ghost value = { λ s k. slice_index_or s.values.now k (pos 0) };

    ghost places = { λ s. length s.values.now };

    fn value(&self, place: usize) -> i64 {
        self.values[place]
    }

    fn pair(&self, place: usize) -> i64x2 {
        i64x2::from_array([self.values[place], self.values[place + 1]])
    }
}

/// A value of 32 bits at each place.
#[derive(Clone, Copy, Drop)]
pub(crate) struct EachNarrow<'a> {
    pub values: &'a [i32],
}

impl Operand for EachNarrow<'_> {
    ghost value = { λ s k. slice_index_or s.values.now k (pos 0) };

    ghost places = { λ s. length s.values.now };

    fn value(&self, place: usize) -> i64 {
        self.values[place] as i64
    }

    fn pair(&self, place: usize) -> i64x2 {
        i64x2::from_array([self.values[place] as i64, self.values[place + 1] as i64])
    }
}

/// The same value at every place.
#[derive(Clone, Copy, Drop)]
pub(crate) struct Same {
    pub value: i64,
}

impl Operand for Same {
    ghost value = { λ s k. s.value };

    ghost places = { λ s. max_tile };

    fn value(&self, _: usize) -> i64 {
        self.value
    }

    fn pair(&self, _: usize) -> i64x2 {
        i64x2::splat(self.value)
    }
}

/// The same value at every place, one that the compiler knows.
#[derive(Clone, Copy, Drop)]
pub(crate) struct Literal<const VALUE: u16>;

impl<const VALUE: u16> Operand for Literal<VALUE> {
    ghost value = { λ s k. pos VALUE };

    ghost places = { λ s. max_tile };

    fn value(&self, _: usize) -> i64 {
        VALUE as i64
    }

    fn pair(&self, _: usize) -> i64x2 {
        i64x2::splat(self.value(0))
    }
}
