//! Why a catalogue refuses.

ghost use Rattle.std.specs.Prelude.{◌≡◌};
ghost use Rattle.catalogue.specs.declared.error.InsertError.TheVariants.{NoMemory};

use std::alloc::{AllocError, AllocFailed};
use thiserror::Error;

/// Why a signature is not inserted.
#[derive(Clone, Copy, PartialEq, Eq, Debug, Error)]
pub enum InsertError {
    /// A coverage of that name is held.
    #[error("the coverage exists")]
    CoverageExists,
    /// The domain has no axis.
    #[error("not the domain of a coverage")]
    BadDomain,
    /// No field, more than 16 fields, or two fields of one name.
    #[error("not the fields of a coverage")]
    BadField,
    /// 1,024 coverages are held.
    #[error("too many coverages")]
    TooManyCoverages,
    /// No memory was left.
    #[error("out of memory")]
    NoMemory,
}

impl From<AllocError> for InsertError {
    ghost from_gives = { λ _ e. e ≡ NoMemory };

    fn from(_error: AllocError) -> InsertError {
        InsertError::NoMemory
    }
}

impl<T: Drop> From<AllocFailed<T>> for InsertError {
    ghost from_gives = { λ _ e. e ≡ NoMemory };

    fn from(_error: AllocFailed<T>) -> InsertError {
        InsertError::NoMemory
    }
}

/// No coverage of that name is held.
#[derive(Clone, Copy, PartialEq, Eq, Debug, Error)]
#[error("no such coverage")]
pub struct NoSuchCoverage;
