//! Where the cells of coverages come from.

ghost use Rattle.std.specs.Prelude.{◌≡◌, ℕ, ℤ, List, ⊤, IfOk};
ghost use Rattle.wcps_mean.specs.Reports.{Reports};

use std::alloc::AllocError;
use thiserror::Error;

/// Why a cell, and so a query's answer, is not known.
#[derive(Clone, Copy, PartialEq, Eq, Debug, Error)]
pub enum CellError {
    /// No memory was found.
    #[error("no memory")]
    NoMemory,
    /// The disk failed.
    #[error("the disk failed")]
    DiskFault,
    /// What was read is no tile.
    #[error("the file is damaged")]
    Damaged,
}

impl From<AllocError> for CellError {
    ghost use Rattle.std.specs.Prelude.{◌≡◌};
    ghost use Rattle.wcps_mean.specs.declared.cells.CellError.TheVariants.{NoMemory};

    ghost from_gives = { λ _ e. e ≡ NoMemory };

    fn from(_: AllocError) -> CellError {
        CellError::NoMemory
    }
}

/// What gives the cells of the coverages that a typed query names. A store that never fails and gives back what was
/// written keeps the defaults of the ghost members.
pub trait Cells {
    /// The cell of a coverage, by its place in the query's list, and of a field, by its place in the coverage, at each
    /// point. A Boolean is 0 or 1.
    ghost cells: { Self → ℕ → ℕ → List ℤ → ℤ };

    /// How many calls of the disk below have failed, in a `u64`.
    ghost failures: { Self → ℕ } = { λ _. 0 };

    /// What is kept is given back as it was written, and in its format. Where that is not so nothing is said of the
    /// cells.
    ghost intact: { Self → Type 0 } = { λ _. ⊤ };

    /// What a call leaves as it is, beside the cells.
    ghost Kept: { Type 0 } = { Unit {0} };

    ghost kept: { Self → Self.Kept };

    /// That cell. The point has a coordinate of each axis, in the axes' order. Refused with `DiskFault` only where the
    /// count of failures rose or stands at its last value, and with `Damaged` only where what is kept is not intact.
    /// Caches may change, the cells do not.
    fn cell(&mut self, coverage: usize, field: usize, point: &[i32]) -> Result<i64, CellError>
        ensures value { IfOk result (λ z. intact self.old → z ≡ cells self.old coverage field point.now) }
        ensures same { cells self.new ≡ cells self.old }
        ensures kept { Self.kept self.new ≡ Self.kept self.old }
        ensures intact { intact self.old → intact self.new }
        ensures reports { Reports result (intact self.old) (failures self.old) (failures self.new) };
}
