//! Operands of a kernel in 32 bits.

ghost use Rattle.std.specs.Prelude.{◌≡◌, ℕ, ℤ, pos, ◌<◌, length, slice_index_or};
ghost use Rattle.arr_core.specs.Limits.{max_tile};

use crate::operand::{EachNarrow, Literal};

/// The values that a kernel in 32 bits reads.
pub(crate) trait NarrowOperand {
    ghost value: { Self → ℕ → ℤ };

    ghost places: { Self → ℕ };

    /// The value at a place.
    fn value(&self, place: usize) -> i32
        requires { place < places self.now }
        ensures { result ≡ value self.now place };
}

impl NarrowOperand for EachNarrow<'_> {
    ghost value = { λ s k. slice_index_or s.values.now k (pos 0) };

    ghost places = { λ s. length s.values.now };

    fn value(&self, place: usize) -> i32 {
        self.values[place]
    }
}

/// The same value at every place, in 32 bits.
#[derive(Clone, Copy, Drop)]
pub(crate) struct SameNarrow {
    pub value: i32,
}

impl NarrowOperand for SameNarrow {
    ghost value = { λ s k. s.value };

    ghost places = { λ s. max_tile };

    fn value(&self, _: usize) -> i32 {
        self.value
    }
}

impl<const VALUE: u16> NarrowOperand for Literal<VALUE> {
    ghost value = { λ s k. pos VALUE };

    ghost places = { λ s. max_tile };

    fn value(&self, _: usize) -> i32 {
        VALUE as i32
    }
}
