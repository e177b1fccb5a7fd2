//! The keys of the requests on jobs.
ghost use Rattle.std.specs.Prelude.{codes, map};
ghost use Rattle.kvp_front.specs.Values.{Gives, pair_view, read_under};
ghost use Rattle.kvp_front.specs.Spelling.{same};
ghost use Rattle.kvp_front.specs.Jobs.{job_in, units_in};

use crate::pairs::{Pair, value_under};
use crate::request::RequestError;
use crate::spelling::read_signed;
use std::alloc::Global;

/// The most units that one request may ask for.
const MAX_UNITS: i64 = 1000;

/// The number of a job: digits alone, within 64 bits.
fn read_job(text: &str) -> Result<u64, RequestError>
    ensures { Gives same (job_in text.now) result }
{
    let bytes = text.as_bytes();
    if bytes.is_empty() || bytes[0] == b'+' {
        return Err(RequestError::BadValue);
    }
    match text.parse::<u64>() {
        Ok(number) => Ok(number),
        Err(_) => Err(RequestError::BadValue),
    }
}

/// A number of units: a signed number from 1 to 1000.
fn read_units(text: &str) -> Result<u64, RequestError>
    ensures { Gives same (units_in text.now) result }
{
    let number = read_signed(text)?;
    if number < 1 || number > MAX_UNITS {
        return Err(RequestError::BadValue);
    }
    Ok(number as u64)
}

/// The number of a job under the key `job`.
pub fn job_under(alloc: Global, pairs: &[Pair<'_>]) -> Result<u64, RequestError>
    ensures { Gives same (read_under job_in (codes "job") (map pair_view pairs.now)) result }
{
    let text = value_under(alloc, pairs, "job")?;
    read_job(text.as_str())
}

/// The number of units under the key `units`.
pub fn units_under(alloc: Global, pairs: &[Pair<'_>]) -> Result<u64, RequestError>
    ensures { Gives same (read_under units_in (codes "units") (map pair_view pairs.now)) result }
{
    let text = value_under(alloc, pairs, "units")?;
    read_units(text.as_str())
}
