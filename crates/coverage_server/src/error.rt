//! Why a request is not answered.
ghost use Rattle.std.specs.Prelude.{◌≡◌};
ghost use Rattle.coverage_server.specs.Leaving.{refusal_of};

use arr_core::Refusal;
use std::alloc::{AllocError, AllocFailed};
use thiserror::Error;

/// Why a request is not answered: it is refused for what it asks, or for memory, for the disk, for room, or for a tile
/// that is damaged.
#[derive(Debug, Drop, Error)]
pub enum AnswerError {
    #[error("refused")]
    Named(Refusal),
    #[error("out of memory")]
    NoMemory,
    #[error("the disk failed")]
    DiskFault,
    #[error("too few blocks are free")]
    NoRoom,
    #[error("the file is damaged")]
    Damaged,
}

impl AnswerError {
    /// The refusal that is told of it.
    pub fn refusal(&self) -> Refusal
        ensures { result ≡ refusal_of self.now }
    {
        match self {
            AnswerError::Named(refusal) => *refusal,
            AnswerError::NoMemory => Refusal::NoMemory,
            AnswerError::DiskFault => Refusal::DiskFault,
            AnswerError::NoRoom => Refusal::NoRoom,
            AnswerError::Damaged => Refusal::Damaged,
        }
    }
}

impl From<AllocError> for AnswerError {
    ghost use Rattle.coverage_server.specs.declared.error.AnswerError.TheVariants.{NoMemory};

    ghost from_gives = { λ _ e. e ≡ NoMemory };

    fn from(_error: AllocError) -> AnswerError {
        AnswerError::NoMemory
    }
}

impl<T: Drop> From<AllocFailed<T>> for AnswerError {
    ghost use Rattle.coverage_server.specs.declared.error.AnswerError.TheVariants.{NoMemory};

    ghost from_gives = { λ _ e. e ≡ NoMemory };

    fn from(_error: AllocFailed<T>) -> AnswerError {
        AnswerError::NoMemory
    }
}
