//! Why a box was not written.

use std::alloc::AllocError;
use thiserror::Error;
use tile_store::Fault;

/// Why a box was not written.
#[derive(Clone, Copy, Debug, PartialEq, Eq, Error)]
pub enum WriteFault {
    /// The box does not name the coverage's axes in their order, or is not inside.
    #[error("outside the domain")]
    OutsideDomain,
    /// There are more or fewer cells than the box has points.
    #[error("another number of values")]
    ValueCount,
    /// A cell is of another kind than the field, or outside the range of its type.
    #[error("a value out of range")]
    ValueRange,
    /// The device or memory refused.
    #[error("not written")]
    Device(Fault),
}

impl From<Fault> for WriteFault {
    ghost use Rattle.std.specs.Prelude.{◌≡◌};
    ghost use Rattle.raster_store.specs.declared.fault.WriteFault.TheVariants.{Device};

    ghost from_gives = { λ f e. e ≡ Device f };

    fn from(fault: Fault) -> Self {
        WriteFault::Device(fault)
    }
}

impl From<AllocError> for WriteFault {
    ghost use Rattle.std.specs.Prelude.{◌≡◌};
    ghost use Rattle.raster_store.specs.declared.fault.WriteFault.TheVariants.{Device};
    ghost use Rattle.tile_store.specs.declared.fault.Fault.TheVariants.{NoMemory};

    ghost from_gives = { λ _ e. e ≡ Device NoMemory };

    fn from(_: AllocError) -> Self {
        WriteFault::Device(Fault::NoMemory)
    }
}
