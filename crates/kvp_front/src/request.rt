//! What a message asks of the store.
ghost use Rattle.std.specs.Prelude.{◌≡◌};
ghost use Rattle.kvp_front.specs.Requests.{refusal_of};

use crate::content::Content;
use arr_core::{Field, Name, Refusal};
use std::alloc::{AllocError, AllocFailed, Global};
use thiserror::Error;

/// An axis and its bounds, as a request spells them. The bounds may lie outside those of a domain.
#[derive(Drop)]
pub struct Interval {
    pub axis: Name,
    pub lo: i64,
    pub hi: i64,
}

/// A new coverage: its name, its axes and its fields.
#[derive(Drop)]
pub struct Insertion {
    pub coverage: Name,
    pub intervals: Vec<Interval>,
    pub fields: Vec<Field>,
}

/// New cells for a box of one field of a coverage.
#[derive(Drop)]
pub struct Update {
    pub coverage: Name,
    pub field: Name,
    pub intervals: Vec<Interval>,
    pub content: Content,
}

/// A layer of a template: a coverage, or a field of it.
#[derive(Drop)]
pub struct RequestedLayer {
    pub coverage: Name,
    pub field: Option<Name>,
}

/// A template, by its name, and its parameters. Each template takes some of them.
#[derive(Drop)]
pub struct TemplateRequest {
    pub template: String,
    pub layer: RequestedLayer,
    pub second: Option<RequestedLayer>,
    pub radius: Option<i64>,
}

/// Some units of a job.
#[derive(Drop)]
pub struct JobUnits {
    /// The number of the job.
    pub job: u64,
    /// How many units of it are to be done, from 1 to 1000.
    pub units: u64,
}

/// What a message asks of the store.
#[derive(Drop)]
pub enum Request {
    InsertCoverage(Insertion),
    UpdateCoverage(Update),
    DeleteCoverage(Name),
    ListCoverages,
    DescribeCoverage(Name),
    /// The text of the query.
    ProcessCoverages(String),
    /// The text of the query that becomes a job.
    SubmitQuery(String),
    StepJob(JobUnits),
    /// The number of the job whose answer is asked for.
    FetchJob(u64),
    /// The number of the job that is dropped.
    CancelJob(u64),
    /// The text of a template's query is asked for.
    ExpandTemplate(TemplateRequest),
    /// The answer to a template's query is asked for.
    ProcessTemplate(TemplateRequest),
}

/// Why some pairs spell no request.
#[derive(Debug, Drop, Error)]
pub enum RequestError {
    /// There is no key `request`.
    #[error("no request")]
    NoRequest,
    /// There is no request of that name.
    #[error("an unknown request")]
    UnknownRequest,
    /// A key that the request needs is absent.
    #[error("a missing key")]
    MissingKey,
    /// A key that the request uses is given twice.
    #[error("a repeated key")]
    RepeatedKey,
    /// A value is spelled badly.
    #[error("a bad value")]
    BadValue,
    /// No memory was left.
    #[error("out of memory")]
    NoMemory,
}

impl From<AllocError> for RequestError {
    ghost use Rattle.kvp_front.specs.declared.request.RequestError.TheVariants.{NoMemory};

    ghost from_gives = { λ _ e. e ≡ NoMemory };

    fn from(_error: AllocError) -> RequestError {
        RequestError::NoMemory
    }
}

impl<T: Drop> From<AllocFailed<T>> for RequestError {
    ghost use Rattle.kvp_front.specs.declared.request.RequestError.TheVariants.{NoMemory};

    ghost from_gives = { λ _ e. e ≡ NoMemory };

    fn from(_error: AllocFailed<T>) -> RequestError {
        RequestError::NoMemory
    }
}

impl RequestError {
    /// The refusal that is told of it.
    pub fn refusal(&self) -> Refusal
        ensures { result ≡ refusal_of self.now }
    {
        match self {
            RequestError::NoRequest => Refusal::NoRequest,
            RequestError::UnknownRequest => Refusal::UnknownRequest,
            RequestError::MissingKey => Refusal::MissingKey,
            RequestError::RepeatedKey => Refusal::RepeatedKey,
            RequestError::BadValue => Refusal::BadValue,
            RequestError::NoMemory => Refusal::NoMemory,
        }
    }
}
