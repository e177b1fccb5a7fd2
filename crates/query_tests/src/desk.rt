//! A desk of jobs, and for which of them it has coverages held.

use crate::coverages::Coverages;
use crate::holders::Holders;
use anyhow::{Result, bail};
use arr_core::Name;
use job_desk::{JobDesk, SubmitError};
use std::alloc::Global;
use std::num::NonZeroU64;
use test_rows::{Answer, number};

/// The query that becomes a job: a scalar item, which is one unit.
const QUERY: &str = "for c in (lai) return 1";

/// The number of a job and the units that are left, or the refusal.
fn say_submitted(answer: &mut Answer, submitted: Result<(u64, u64), SubmitError>) {
    match submitted {
        Ok((number, left)) => {
            answer.say("job ");
            answer.count(number);
            answer.say(" left ");
            answer.count(left);
        }
        Err(SubmitError::TooManyJobs) => answer.refusal(72),
        Err(SubmitError::NoMemory) => answer.refusal(90),
    }
}

/// A desk, and the jobs for which coverages are held.
#[derive(Drop)]
pub struct Desk {
    jobs: JobDesk,
    holders: Holders,
}

impl Desk {
    /// A desk whose first job gets a number.
    pub fn starting(alloc: Global, first: NonZeroU64) -> Desk {
        Desk {
            jobs: JobDesk::starting(alloc, first),
            holders: Holders::new(alloc),
        }
    }

    /// Submits the query.
    fn submit(&mut self, alloc: Global, answer: &mut Answer, coverages: &Coverages) -> Result<()> {
        let plan = coverages.rewritten(alloc, QUERY)?;
        let names = Vec::from_array(alloc, [Name::new(alloc, "lai")?])?;
        say_submitted(answer, self.jobs.submit(plan, names, &mut self.holders));
        Ok(())
    }

    /// Cancels a job.
    fn cancel(&mut self, answer: &mut Answer, job: u64) {
        match self.jobs.cancel(job, &mut self.holders) {
            Ok(()) => answer.say("ok"),
            Err(_) => answer.refusal(70),
        }
    }

    /// Begins anew, with a desk whose first job gets a number.
    fn begin(&mut self, alloc: Global, answer: &mut Answer, first: NonZeroU64) {
        *self = Desk::starting(alloc, first);
        answer.say("ok");
    }

    /// Makes a call on the desk.
    pub fn call(
        &mut self,
        alloc: Global,
        answer: &mut Answer,
        coverages: &Coverages,
        (verb, rest): (&str, &str),
    ) -> Result<()> {
        match verb {
            "new" => self.begin(alloc, answer, NonZeroU64::MIN),
            "starting" => match NonZeroU64::new(number(rest)?) {
                Some(first) => self.begin(alloc, answer, first),
                None => bail!("no number to start from"),
            },
            "cancel" => self.cancel(answer, number(rest)?),
            "submit" => return self.submit(alloc, answer, coverages),
            "holders" => self.holders.say(answer),
            _ => bail!("no such call"),
        }
        Ok(())
    }
}
