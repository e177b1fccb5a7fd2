//! The refusals of a store.

use block_file::TakeFault;
use disk_face::DiskFault;
use file_bytes::ReadError;
use std::alloc::{AllocError, AllocFailed};
use thiserror::Error;

/// A refusal that comes from the device or from memory, and not from the arguments.
#[derive(Clone, Copy, Debug, PartialEq, Eq, Error)]
pub enum Fault {
    #[error("out of memory")]
    NoMemory,
    #[error("disk fault")]
    DiskFault,
    #[error("too few blocks are free")]
    NoRoom,
    #[error("damaged")]
    Damaged,
}

impl From<AllocError> for Fault {
    ghost use Rattle.std.specs.Prelude.{◌≡◌};
    ghost use Rattle.tile_store.specs.declared.fault.Fault.TheVariants.{NoMemory};

    ghost from_gives = { λ _ e. e ≡ NoMemory };

    fn from(_: AllocError) -> Self {
        Fault::NoMemory
    }
}

impl<T: Drop> From<AllocFailed<T>> for Fault {
    ghost use Rattle.std.specs.Prelude.{◌≡◌};
    ghost use Rattle.tile_store.specs.declared.fault.Fault.TheVariants.{NoMemory};

    ghost from_gives = { λ _ e. e ≡ NoMemory };

    fn from(_: AllocFailed<T>) -> Self {
        Fault::NoMemory
    }
}

impl From<DiskFault> for Fault {
    ghost use Rattle.std.specs.Prelude.{◌≡◌};
    ghost use Rattle.tile_store.specs.declared.fault.Fault.TheVariants.{DiskFault};

    ghost from_gives = { λ _ e. e ≡ DiskFault };

    fn from(_: DiskFault) -> Self {
        Fault::DiskFault
    }
}

impl From<TakeFault> for Fault {
    ghost use Rattle.std.specs.Prelude.{◌≡◌};
    ghost use Rattle.tile_store.specs.Faults.{of_take};

    ghost from_gives = { λ f e. e ≡ of_take f };

    fn from(fault: TakeFault) -> Self {
        match fault {
            TakeFault::NoMemory => Fault::NoMemory,
            TakeFault::NoRoom => Fault::NoRoom,
        }
    }
}

impl From<ReadError> for Fault {
    ghost use Rattle.std.specs.Prelude.{◌≡◌};
    ghost use Rattle.tile_store.specs.Faults.{of_read};

    ghost from_gives = { λ f e. e ≡ of_read f };

    fn from(fault: ReadError) -> Self {
        match fault {
            ReadError::NoMemory => Fault::NoMemory,
            ReadError::Damaged => Fault::Damaged,
        }
    }
}
