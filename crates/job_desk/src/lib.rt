//! The desk of jobs: plans that are done a few units at a time, each under a number, until their answers are fetched.
#![tactic(auto)]

mod desk;
mod error;
mod job;
mod snapshots;
mod step;

pub use desk::JobDesk;
pub use error::{FetchError, NoSuchJob, StepError, SubmitError};
pub use job::{Job, NameList};
pub use snapshots::Snapshots;
