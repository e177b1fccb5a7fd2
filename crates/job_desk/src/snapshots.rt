//! What holds coverages for jobs.

ghost use Rattle.std.specs.Prelude.{ℕ, List, OnOk, OnErr};

use arr_core::Name;
use std::alloc::AllocError;

/// A store that holds coverages for jobs, as they are when it begins to.
pub trait Snapshots {
    /// Coverages with these names may be held for a job.
    ghost may_hold: { Self → ℕ → List (List ℕ) → Type 0 };

    /// They came to be held, and nothing else has changed.
    ghost holds: { Self → ℕ → List (List ℕ) → Self → Type 0 };

    /// Nothing has changed.
    ghost stays: { Self → Self → Type 0 };

    /// Nothing is held for a job any more, and nothing else has changed.
    ghost releases: { Self → ℕ → Self → Type 0 };

    /// Holds the coverages with names for a job. Refused for memory alone.
    fn hold(&mut self, job: u64, names: &[Name]) -> Result<(), AllocError>
        requires { may_hold self.old job names.now }
        ensures held { OnOk result (holds self.old job names.now self.new) }
        ensures refused { OnErr result (stays self.old self.new) };

    /// Ends what is held for a job. Takes no memory.
    fn release(&mut self, job: u64)
        ensures { releases self.old job self.new };
}
