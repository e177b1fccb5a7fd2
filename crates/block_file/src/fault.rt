//! The refusals of a block file.
use arr_core::Refusal;
use disk_face::DiskFault;
use std::alloc::AllocError;
use thiserror::Error;

/// Why blocks were not taken.
#[derive(Clone, Copy, Debug, PartialEq, Eq, Error)]
pub enum TakeFault {
    #[error("out of memory")]
    NoMemory,
    #[error("too few blocks are free")]
    NoRoom,
}

impl From<AllocError> for TakeFault {
    ghost use Rattle.std.specs.Prelude.{◌≡◌};
    ghost use Rattle.block_file.specs.declared.fault.TakeFault.TheVariants.{NoMemory};

    ghost from_gives = { λ _ e. e ≡ NoMemory };

    fn from(_: AllocError) -> Self {
        TakeFault::NoMemory
    }
}

/// Why a store file was not closed.
#[derive(Clone, Copy, Debug, PartialEq, Eq, Error)]
pub enum CloseFault {
    #[error("out of memory")]
    NoMemory,
    #[error("disk fault")]
    DiskFault,
}

impl CloseFault {
    ghost use Rattle.std.specs.Prelude.{◌≡◌};
    ghost use Rattle.block_file.specs.Faults.{close_refusal};

    /// The refusal that is told of it.
    pub fn refusal(self) -> Refusal
        ensures { result ≡ close_refusal self }
    {
        match self {
            CloseFault::NoMemory => Refusal::NoMemory,
            CloseFault::DiskFault => Refusal::DiskFault,
        }
    }
}

impl From<AllocError> for CloseFault {
    ghost use Rattle.std.specs.Prelude.{◌≡◌};
    ghost use Rattle.block_file.specs.declared.fault.CloseFault.TheVariants.{NoMemory};

    ghost from_gives = { λ _ e. e ≡ NoMemory };

    fn from(_: AllocError) -> Self {
        CloseFault::NoMemory
    }
}

impl From<DiskFault> for CloseFault {
    ghost use Rattle.std.specs.Prelude.{◌≡◌};
    ghost use Rattle.block_file.specs.declared.fault.CloseFault.TheVariants.{DiskFault};

    ghost from_gives = { λ _ e. e ≡ DiskFault };

    fn from(_: DiskFault) -> Self {
        CloseFault::DiskFault
    }
}

/// Blocks were claimed that may not be: the header, one that was claimed before, one of the metadata, or one past
/// the end of the file.
#[derive(Clone, Copy, Debug, PartialEq, Eq, Error)]
#[error("damaged")]
pub struct Damaged;

/// Why a disk was not opened as a store file.
#[derive(Clone, Copy, Debug, PartialEq, Eq, Error)]
pub enum OpenFault {
    #[error("out of memory")]
    NoMemory,
    #[error("disk fault")]
    DiskFault,
    #[error("damaged")]
    Damaged,
    #[error("not a store file")]
    NotAStore,
    #[error("not closed")]
    NotClosed,
}

impl OpenFault {
    ghost use Rattle.std.specs.Prelude.{◌≡◌};
    ghost use Rattle.block_file.specs.Faults.{open_refusal};

    /// The refusal that is told of it.
    pub fn refusal(self) -> Refusal
        ensures { result ≡ open_refusal self }
    {
        match self {
            OpenFault::NoMemory => Refusal::NoMemory,
            OpenFault::DiskFault => Refusal::DiskFault,
            OpenFault::Damaged => Refusal::Damaged,
            OpenFault::NotAStore => Refusal::NotAStore,
            OpenFault::NotClosed => Refusal::NotClosed,
        }
    }
}

impl From<AllocError> for OpenFault {
    ghost use Rattle.std.specs.Prelude.{◌≡◌};
    ghost use Rattle.block_file.specs.declared.fault.OpenFault.TheVariants.{NoMemory};

    ghost from_gives = { λ _ e. e ≡ NoMemory };

    fn from(_: AllocError) -> Self {
        OpenFault::NoMemory
    }
}

impl From<DiskFault> for OpenFault {
    ghost use Rattle.std.specs.Prelude.{◌≡◌};
    ghost use Rattle.block_file.specs.declared.fault.OpenFault.TheVariants.{DiskFault};

    ghost from_gives = { λ _ e. e ≡ DiskFault };

    fn from(_: DiskFault) -> Self {
        OpenFault::DiskFault
    }
}
