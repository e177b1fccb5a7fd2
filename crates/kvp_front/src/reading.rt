//! Requests, read from the pairs of a message.
ghost use Rattle.std.specs.Prelude.{map};
ghost use Rattle.kvp_front.specs.Values.{pair_view};
ghost use Rattle.kvp_front.specs.Requests.{asks, Gives, spelled, spelled_of, insertion_of, update_of, deletion_of, description_of, query_of, submission_of, stepping_of, fetching_of, cancelling_of, expansion_of, processing_of};

use crate::content::content_under;
use crate::jobs::{job_under, units_under};
use crate::lists::list_under;
use crate::pairs::{Pair, pairs_of, value_under};
use crate::request::{Insertion, JobUnits, Request, RequestError, Update};
use crate::spelling::{name_under, query_under};
use crate::templates::template_under;
use std::alloc::Global;

/// Reads the request that some bytes spell as the pairs of a web form, or says what is wrong with them first: the key
/// `request`, absent, given twice or unknown; then for each key that the request uses, in order, that it is given
/// twice, absent or badly spelled. Keys match in any ASCII case, and others are ignored.
pub fn read_request(alloc: Global, bytes: &[u8]) -> Result<Request, RequestError>
    ensures { Gives asks (spelled bytes.now) result }
{
    let pairs = pairs_of(alloc, bytes)?;
    request_of(alloc, pairs.as_slice())
}

/// The request of some pairs.
fn request_of(alloc: Global, pairs: &[Pair<'_>]) -> Result<Request, RequestError>
    ensures { Gives asks (spelled_of (map pair_view pairs.now)) result }
{
    let kind = match value_under(alloc, pairs, "request") {
        Ok(kind) => kind,
        Err(RequestError::MissingKey) => return Err(RequestError::NoRequest),
        Err(error) => return Err(error),
    };
    match kind.as_str() {
        "InsertCoverage" => read_insertion(alloc, pairs),
        "UpdateCoverage" => read_update(alloc, pairs),
        "DeleteCoverage" => read_deletion(alloc, pairs),
        "ListCoverages" => Ok(Request::ListCoverages),
        "DescribeCoverage" => read_description(alloc, pairs),
        "ProcessCoverages" => read_query(alloc, pairs),
        "SubmitQuery" => read_submission(alloc, pairs),
        "StepJob" => read_stepping(alloc, pairs),
        "FetchJob" => read_fetching(alloc, pairs),
        "CancelJob" => read_cancelling(alloc, pairs),
        "ExpandTemplate" => read_expansion(alloc, pairs),
        "ProcessTemplate" => read_processing(alloc, pairs),
        _ => Err(RequestError::UnknownRequest),
    }
}

fn read_insertion(alloc: Global, pairs: &[Pair<'_>]) -> Result<Request, RequestError>
    ensures { Gives asks (insertion_of (map pair_view pairs.now)) result }
{
    let coverage = name_under(alloc, pairs, "coverage")?;
    let intervals = list_under(alloc, pairs, "domain")?;
    let fields = list_under(alloc, pairs, "fields")?;
    Ok(Request::InsertCoverage(Insertion {
        coverage,
        intervals,
        fields,
    }))
}

fn read_update(alloc: Global, pairs: &[Pair<'_>]) -> Result<Request, RequestError>
    ensures { Gives asks (update_of (map pair_view pairs.now)) result }
{
    let coverage = name_under(alloc, pairs, "coverage")?;
    let field = name_under(alloc, pairs, "field")?;
    let intervals = list_under(alloc, pairs, "box")?;
    let content = content_under(alloc, pairs)?;
    Ok(Request::UpdateCoverage(Update {
        coverage,
        field,
        intervals,
        content,
    }))
}

fn read_deletion(alloc: Global, pairs: &[Pair<'_>]) -> Result<Request, RequestError>
    ensures { Gives asks (deletion_of (map pair_view pairs.now)) result }
{
    let coverage = name_under(alloc, pairs, "coverage")?;
    Ok(Request::DeleteCoverage(coverage))
}

fn read_description(alloc: Global, pairs: &[Pair<'_>]) -> Result<Request, RequestError>
    ensures { Gives asks (description_of (map pair_view pairs.now)) result }
{
    let coverage = name_under(alloc, pairs, "coverage")?;
    Ok(Request::DescribeCoverage(coverage))
}

fn read_query(alloc: Global, pairs: &[Pair<'_>]) -> Result<Request, RequestError>
    ensures { Gives asks (query_of (map pair_view pairs.now)) result }
{
    let query = query_under(alloc, pairs)?;
    Ok(Request::ProcessCoverages(query))
}

fn read_submission(alloc: Global, pairs: &[Pair<'_>]) -> Result<Request, RequestError>
    ensures { Gives asks (submission_of (map pair_view pairs.now)) result }
{
    let query = query_under(alloc, pairs)?;
    Ok(Request::SubmitQuery(query))
}

fn read_stepping(alloc: Global, pairs: &[Pair<'_>]) -> Result<Request, RequestError>
    ensures { Gives asks (stepping_of (map pair_view pairs.now)) result }
{
    let job = job_under(alloc, pairs)?;
    let units = units_under(alloc, pairs)?;
    Ok(Request::StepJob(JobUnits { job, units }))
}

fn read_fetching(alloc: Global, pairs: &[Pair<'_>]) -> Result<Request, RequestError>
    ensures { Gives asks (fetching_of (map pair_view pairs.now)) result }
{
    let job = job_under(alloc, pairs)?;
    Ok(Request::FetchJob(job))
}

fn read_cancelling(alloc: Global, pairs: &[Pair<'_>]) -> Result<Request, RequestError>
    ensures { Gives asks (cancelling_of (map pair_view pairs.now)) result }
{
    let job = job_under(alloc, pairs)?;
    Ok(Request::CancelJob(job))
}

fn read_expansion(alloc: Global, pairs: &[Pair<'_>]) -> Result<Request, RequestError>
    ensures { Gives asks (expansion_of (map pair_view pairs.now)) result }
{
    let template = template_under(alloc, pairs)?;
    Ok(Request::ExpandTemplate(template))
}

fn read_processing(alloc: Global, pairs: &[Pair<'_>]) -> Result<Request, RequestError>
    ensures { Gives asks (processing_of (map pair_view pairs.now)) result }
{
    let template = template_under(alloc, pairs)?;
    Ok(Request::ProcessTemplate(template))
}
