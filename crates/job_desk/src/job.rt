//! A job: a plan that is under way.

ghost use Rattle.std.specs.Prelude.{◌≡◌, nat_eq, None, MatchOption};
ghost use Rattle.std.specs.List.{position};
ghost use Rattle.job_desk.specs.declared.job.Job.{Job};
ghost use Rattle.job_desk.specs.Desks.{job_of};
ghost use Rattle.job_desk.specs.Places.{IsPlace};

use arr_core::Name;
use std::marker::Model;
use tile_exec::Exec;

/// Names in order.
#[derive(Drop)]
pub struct NameList {
    names: Vec<Name>,
}

impl Model for NameList {
    ghost use Rattle.std.specs.Prelude.{List, ℕ};

    ghost Value = { List (List ℕ) };

    ghost view = { λ l. l.names.items };
}

impl NameList {
    /// Those names.
    pub fn new(names: Vec<Name>) -> NameList
        ensures { result ≡ names.items }
    {
        NameList { names }
    }

    /// The names.
    pub fn as_slice(&self) -> &[Name]
        ensures { result.now ≡ self.now }
    {
        &self.names
    }
}

/// A plan under its number: the names of the coverages that it was submitted with, how many units it shows as left, and
/// what does them. The executor may be ahead of what is shown.
#[derive(Drop)]
pub struct Job {
    pub number: u64,
    pub names: NameList,
    pub left: u64,
    pub exec: Exec,
}

/// The first place of a number.
fn position_of(jobs: &[Job], number: u64) -> Option<usize>
    ensures { result ≡ position (λ (j : Job). nat_eq j.number number) jobs.now }
{
    jobs.iter().position(|job| job.number == number)
}

/// The place of the job with a number.
pub(crate) fn place_of(jobs: &[Job], number: u64) -> Option<usize>
    ensures { MatchOption result (job_of number jobs.now ≡ None) (IsPlace number jobs.now) }
{
    position_of(jobs, number)
}
