//! Why a call of the desk is refused.

use std::alloc::AllocError;
use thiserror::Error;
use wcps_mean::CellError;

/// Why a plan is not taken as a job.
#[derive(Clone, Copy, PartialEq, Eq, Debug, Error)]
pub enum SubmitError {
    /// As many jobs are held as may be, or the last number has been given.
    #[error("too many jobs")]
    TooManyJobs,
    /// No memory was left.
    #[error("no memory")]
    NoMemory,
}

impl From<AllocError> for SubmitError {
    ghost use Rattle.std.specs.Prelude.{◌≡◌};
    ghost use Rattle.job_desk.specs.declared.error.SubmitError.TheVariants.{NoMemory};

    ghost from_gives = { λ _ e. e ≡ NoMemory };

    fn from(_: AllocError) -> SubmitError {
        SubmitError::NoMemory
    }
}

/// No job has the number.
#[derive(Clone, Copy, PartialEq, Eq, Debug, Error)]
#[error("no such job")]
pub struct NoSuchJob;

/// Why a job was not stepped.
#[derive(Clone, Copy, PartialEq, Eq, Debug, Error)]
pub enum StepError {
    /// No job has the number.
    #[error("no such job")]
    NoSuchJob,
    /// A unit failed.
    #[error("a unit failed: {0}")]
    Cells(CellError),
}

impl From<CellError> for StepError {
    ghost use Rattle.std.specs.Prelude.{◌≡◌};
    ghost use Rattle.job_desk.specs.declared.error.StepError.TheVariants.{Cells};

    ghost from_gives = { λ e f. f ≡ Cells e };

    fn from(error: CellError) -> StepError {
        StepError::Cells(error)
    }
}

/// Why no answer is fetched.
#[derive(Clone, Copy, PartialEq, Eq, Debug, Error)]
pub enum FetchError {
    /// No job has the number.
    #[error("no such job")]
    NoSuchJob,
    /// The job has units left.
    #[error("the job is not done")]
    NotReady,
    /// No memory was left for the answer's text.
    #[error("no memory")]
    NoMemory,
}

impl From<AllocError> for FetchError {
    ghost use Rattle.std.specs.Prelude.{◌≡◌};
    ghost use Rattle.job_desk.specs.declared.error.FetchError.TheVariants.{NoMemory};

    ghost from_gives = { λ _ e. e ≡ NoMemory };

    fn from(_: AllocError) -> FetchError {
        FetchError::NoMemory
    }
}
