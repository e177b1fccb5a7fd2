//! How often a condenser takes in the value at a place.

ghost use Rattle.std.specs.Prelude.{◌≡◌, ℕ, ◌<◌, ◌≤◌, length, slice_index, cond};
ghost use Rattle.arr_core.specs.Cells.{truth_of};

use crate::operand::Operand;
use wcps_mean::is_set;

/// How often a condenser takes in the value at each place.
pub(crate) trait Choice {
    ghost times: { Self → ℕ → ℕ };

    ghost places: { Self → ℕ };

    /// How often the value at a place is taken in.
    fn times(&self, place: usize) -> u64
        requires { place < places self.now }
        ensures { result ≡ times self.now place };
}

/// Each of so many places counts once.
#[derive(Clone, Copy, Drop)]
pub(crate) struct Always {
    pub len: usize,
}

impl Choice for Always {
    ghost times = { λ s k. 1 };

    ghost places = { λ s. s.len };

    fn times(&self, _: usize) -> u64 {
        1
    }
}

/// The places count once where the condition is true.
#[derive(Drop)]
pub(crate) struct Where<V: Operand> {
    pub condition: V,
}

impl<V: Operand> Choice for Where<V> {
    ghost times = { λ s k. cond (truth_of (V.value s.condition k)) 1 0 };

    ghost places = { λ s. V.places s.condition };

    fn times(&self, place: usize) -> u64 {
        let chosen = is_set(self.condition.value(place));
        if chosen { 1 } else { 0 }
    }
}

/// Each place counts as often as its run goes on.
#[derive(Clone, Copy, Drop)]
pub(crate) struct Counted<'a> {
    pub counts: &'a [u32],
}

impl Choice for Counted<'_> {
    ghost times = { λ s k. slice_index s.counts.now k };

    ghost places = { λ s. length s.counts.now };

    fn times(&self, place: usize) -> u64 {
        self.counts[place] as u64
    }
}

/// The places count as often as their runs go on, where the condition is true.
#[derive(Drop)]
pub(crate) struct CountedWhere<'a, V: Operand> {
    pub condition: V,
    pub counts: &'a [u32],
    ghost room: { length counts.now ≤ V.places condition },
}

impl<V: Operand> Choice for CountedWhere<'_, V> {
    ghost times = { λ s k. cond (truth_of (V.value s.condition k)) (slice_index s.counts.now k) 0 };

    ghost places = { λ s. length s.counts.now };

    fn times(&self, place: usize) -> u64 {
        if is_set(self.condition.value(place)) {
            self.counts[place] as u64
        } else {
            0
        }
    }
}
