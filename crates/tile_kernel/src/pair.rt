//! Outcomes of two columns for each of the same runs.

ghost use Rattle.std.specs.Prelude.{◌≡◌, ◌≤◌, length, sum};
ghost use Rattle.arr_core.specs.Limits.{max_tile};

use crate::view::View;

/// An outcome of each column for each run, and how often they stand: `len` times in all.
#[derive(Drop)]
pub(crate) struct Pair<'a> {
    pub left: View<'a>,
    pub right: View<'a>,
    pub counts: &'a [u32],
    pub len: usize,
    ghost left_even: { length left ≡ length counts.now },
    ghost right_even: { length right ≡ length counts.now },
    ghost total: { sum counts.now ≡ len },
    ghost few: { len ≤ max_tile },
}
