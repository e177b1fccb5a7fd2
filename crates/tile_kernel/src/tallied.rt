//! Condensers that count their points.

ghost use Rattle.std.specs.Prelude.{◌≡◌, ◌≤◌, List, length};
ghost use Rattle.arr_core.specs.Limits.{max_points};
ghost use Rattle.tile_kernel.specs.Told.{Told};
ghost use Rattle.tile_kernel.specs.Standing.{Stands};
ghost use Rattle.tile_kernel.specs.Condensing.{IsKeptOf};

use crate::accumulator::Accumulator;
use crate::condenser::{Condensed, Condenser};
use crate::summary::Summary;
use std::alloc::AllocError;
use wcps_mean::Outcome;

/// A condenser by a summary, and how many points it stands for, as an accumulator tells.
#[derive(Copy)]
pub(crate) struct Tallied<S: Summary> {
    condensed: Condensed<S>,
    count: u32,
    ghost counted: { S.counted condensed.summary ≤ count },
    ghost few: { count ≤ max_points },
}

impl<S: Summary> Clone for Tallied<S> {
    ghost use Rattle.std.specs.Prelude.{◌≡◌, ⊤};

    ghost is_clone = { λ x y. y ≡ x };

    ghost is_infallible = { λ _. ⊤ };

    fn clone(&self) -> Result<Tallied<S>, AllocError> {
        Ok(*self)
    }
}

impl<S: Summary> Condenser for Tallied<S> {
    ghost use Rattle.std.proofs.Common.{◌∙◌, sym};
    ghost use Rattle.std.proofs.lemmas.List.Sorted.{IsPermutation-trans, length_permutation};

    ghost op = { S.op };

    ghost stands = { λ c told. (c.count ≡ length told) × IsKeptOf S.keeps c.condensed.summary c.condensed.first.fault c.condensed.first.place told };

    ghost counted = { λ c. c.count };

    ghost unordered = { λ c told other p h. (h.0 ∙ sym (length_permutation told other p), (h.1.0, IsPermutation-trans h.1.0 told other h.1.1 p, h.1.2)) };

    fn empty() -> Tallied<S> {
        Tallied {
            condensed: Condensed::empty(),
            count: 0,
        }
    }

    fn one(place: u64, o: Outcome) -> Tallied<S> {
        Tallied {
            condensed: Condensed::one(place, o),
            count: 1,
        }
    }

    fn merge(self, other: Tallied<S>) -> Tallied<S> {
        Tallied {
            condensed: self.condensed.merge(other.condensed),
            count: self.count + other.count,
        }
    }

    fn add(&mut self, place: u64, o: Outcome) {
        self.count += 1;
        self.condensed.add(place, o);
    }

    fn finish(self) -> Outcome {
        self.condensed.finish()
    }
}

impl<S: Summary> Tallied<S> {
    /// An accumulator of the same points.
    pub fn accumulator(self) -> Accumulator
        ensures stands { (told : List Told) → ⟦<Tallied<S> as Condenser>⟧.stands self told → Stands result told }
        ensures op { result.running.op ≡ S.op }
    {
        self.condensed.accumulator(self.count)
    }
}
