//! The desk.

ghost use Rattle.std.specs.Prelude.{◌≡◌, ◌<◌, ◌⊎◌, ℕ, length, vec_len, vec_capacity, [], ◌∷◌, ◌++◌, Some, None, IfOk, IfErr, OnOk, OnErr, IsSome, option_map, option_copied};
ghost use Rattle.std.specs.Int.NonZero.{non_zero_u64_get};
ghost use Rattle.std.specs.List.{remove};
ghost use Rattle.plan_ir.specs.Plans.{plan_view};
ghost use Rattle.plan_ir.specs.Placed.{IsPlan};
ghost use Rattle.arr_core.specs.Numbers.{number_after};
ghost use Rattle.job_desk.specs.Desks.{job_of, taken_out, IsSubmitted, IsTakenIn, IsFetched, IsDesk, max_jobs};
ghost use Rattle.job_desk.specs.Steps.{coverages_of, HasCoverages, IsLowered, IsChanged, IsRefusedStep, StepsSource, IsRefusedFetch, IsRefusedSubmit};

use crate::error::{FetchError, NoSuchJob, StepError, SubmitError};
use crate::job::{Job, NameList, place_of};
use crate::snapshots::Snapshots;
use crate::step::step_job;
use arr_core::{Name, Signature};
use plan_ir::Plan;
use std::alloc::{AllocError, Global};
use std::marker::Model;
use std::num::NonZeroU64;
use tile_columns::Tiles;
use tile_exec::{Answer, Exec, Workspace, answer_of};

/// How many jobs may be held.
pub const MAX_JOBS: usize = 64;

/// The jobs that are held, those without units left included, in the order of their numbers. A number is given once.
#[derive(Drop)]
pub struct JobDesk {
    jobs: Vec<Job>,
    next: Option<u64>,
}

impl Model for JobDesk {
    ghost use Rattle.std.specs.Coded.{codes};
    ghost use Rattle.job_desk.specs.contracts.job.Job as job;
    ghost use Rattle.job_desk.specs.Desks.{DeskView, IsDesk};

    ghost Value = { DeskView };

    ghost coded = { Prim.hlevel (codes, job.the_row.coded) };

    ghost view = { λ d. record { jobs = d.jobs.items; next = d.next } };

    ghost invariant = { λ d. IsDesk (record { jobs = d.jobs.items; next = d.next }) };
}

impl JobDesk {
    /// A desk without jobs, whose first job gets the number 1.
    pub fn new(alloc: Global) -> JobDesk
        ensures { result ≡ record { jobs = []; next = Some 1 } }
    {
        JobDesk::starting(alloc, NonZeroU64::MIN)
    }

    /// A desk without jobs, whose first job gets that number.
    pub fn starting(alloc: Global, first: NonZeroU64) -> JobDesk
        ensures { result ≡ record { jobs = []; next = Some (non_zero_u64_get first) } }
    {
        JobDesk {
            jobs: Vec::new(alloc),
            next: Some(first.get()),
        }
    }

    /// Takes a plan as a job, with the names of the coverages that it reads, has the store hold these for it, and gives
    /// its number and how many units it has left. Nothing is read and no other job goes on. Refused with `TooManyJobs`
    /// where 64 jobs are held or the last number has been given, else with `NoMemory` where none was left; a refusal
    /// changes nothing.
    pub fn submit<H: Snapshots>(
        &mut self,
        plan: Plan,
        names: Vec<Name>,
        store: &mut H,
    ) -> Result<(u64, u64), SubmitError>
        requires plan { IsPlan (plan_view plan) }
        requires names { (n : ℕ) → self.old.next ≡ Some n → H.may_hold store.old n names.items }
        ensures submitted { IfOk result (λ r. IsSubmitted (plan_view plan) names.items r.0 r.1 self.old self.new) }
        ensures held { IfOk result (λ r. H.holds store.old r.0 names.items store.new) }
        ensures refused { IfErr result (λ e. IsRefusedSubmit self.old e) }
        ensures unchanged { OnErr result (self.new ≡ self.old) }
        ensures stays { OnErr result ((store.new ≡ store.old) ⊎ H.stays store.old store.new) }
    {
        let Some(number) = self.next else {
            return Err(SubmitError::TooManyJobs);
        };
        if self.jobs.len() >= MAX_JOBS {
            return Err(SubmitError::TooManyJobs);
        }
        let exec = Exec::new(*self.jobs.allocator(), plan)?;
        self.take_in(number, exec, names, store)
    }

    /// Takes what does a plan's units as a job under the next number, for which there is room, and holds its coverages.
    fn take_in<H: Snapshots>(
        &mut self,
        number: u64,
        exec: Exec,
        names: Vec<Name>,
        store: &mut H,
    ) -> Result<(u64, u64), SubmitError>
        requires next { self.old.next ≡ Some number }
        requires room { length self.old.jobs < max_jobs }
        requires names { H.may_hold store.old number names.items }
        ensures submitted { IfOk result (λ r. IsTakenIn exec names.items r.0 r.1 self.old self.new) }
        ensures held { IfOk result (λ r. H.holds store.old r.0 names.items store.new) }
        ensures refused { IfErr result (λ e. IsRefusedSubmit self.old e) }
        ensures unchanged { OnErr result (self.new ≡ self.old) }
        ensures stays { OnErr result ((store.new ≡ store.old) ⊎ H.stays store.old store.new) }
    {
        let left = exec.left();
        make_room(&mut self.jobs, number, &names, store)?;
        let job = Job {
            number,
            names: NameList::new(names),
            left,
            exec,
        };
        push_job(&mut self.jobs, job);
        self.next = number_after(number);
        Ok((number, left))
    }

    /// The coverages of a job's plan, in the plan's order; `None` where there is no such job. The desk's numbers rise,
    /// and there are at most 64 jobs.
    pub fn coverages(&self, job: u64) -> Option<&[Signature]>
        ensures coverages { option_copied result ≡ option_map coverages_of (job_of job self.now.jobs) }
        ensures desk { IsDesk self.now }
    {
        let place = place_of(&self.jobs, job)?;
        Some(self.jobs[place].exec.coverages())
    }

    /// How many units a job shows as left; `None` where there is no such job.
    pub fn left(&self, job: u64) -> Option<u64>
        ensures { result ≡ option_map (λ (j : Job). j.left) (job_of job self.now.jobs) }
    {
        let place = place_of(&self.jobs, job)?;
        Some(self.jobs[place].left)
    }

    /// Lowers what a job shows as left by so many units, not below 0, does the units that this asks of its executor,
    /// and gives what is left. Where nothing is left, what the store holds for the job is released. Where a unit fails,
    /// what is shown stays; the units before it are not done again.
    pub fn step<S: Tiles + Snapshots>(
        &mut self,
        job: u64,
        units: u64,
        workspace: &mut Workspace,
        source: &mut S,
    ) -> Result<u64, StepError>
        requires { HasCoverages job self.old.jobs (S.state source.old).coverages }
        ensures stepped { IfOk result (λ left. IsChanged (IsLowered (S.state source.old) units left) job self.old self.new) }
        ensures refused { IfErr result (λ e. IsRefusedStep (S.state source.old) job units self.old self.new e) }
        ensures source { StepsSource S.state S.spelled S.releases result job self.old self.new source.old source.new }
    {
        let Some(place) = place_of(&self.jobs, job) else {
            return Err(StepError::NoSuchJob);
        };
        let left = step_job(&mut self.jobs[place], units, workspace, source)?;
        if left == 0 {
            source.release(job);
        }
        Ok(left)
    }

    /// Gives the answer of a job that has no units left, and takes the job out. Refused with `NoSuchJob` where there is
    /// none, else with `NotReady` where it has units left, else with `NoMemory` where none was left for the text; a
    /// refusal changes nothing.
    pub fn fetch(&mut self, job: u64) -> Result<Answer, FetchError>
        ensures fetched { IfOk result (λ answer. IsFetched job answer self.old self.new) }
        ensures refused { IfErr result (λ e. IsRefusedFetch job self.old.jobs e) }
        ensures unchanged { OnErr result (self.new ≡ self.old) }
    {
        let Some(place) = place_of(&self.jobs, job) else {
            return Err(FetchError::NoSuchJob);
        };
        let held = &self.jobs[place];
        if held.left > 0 {
            return Err(FetchError::NotReady);
        }
        let answer = answer_of(*self.jobs.allocator(), &held.exec)?;
        take_out(&mut self.jobs, place);
        Ok(answer)
    }

    /// Takes all jobs out. The next one gets the number that it would have got. Takes no memory.
    pub fn let_go(&mut self)
        ensures { self.new ≡ record { jobs = []; next = self.old.next } }
    {
        self.jobs = Vec::new(*self.jobs.allocator());
    }

    /// Takes a job out, and releases what the store holds for it. Takes no memory. Refused where there is no such job.
    pub fn cancel<H: Snapshots>(&mut self, job: u64, store: &mut H) -> Result<(), NoSuchJob>
        ensures held { OnOk result (IsSome (job_of job self.old.jobs)) }
        ensures taken_out { OnOk result (self.new ≡ taken_out job self.old) }
        ensures absent { OnErr result (job_of job self.old.jobs ≡ None) }
        ensures unchanged { OnErr result (self.new ≡ self.old) }
        ensures released { OnOk result (H.releases store.old job store.new) }
        ensures kept { OnErr result (store.new ≡ store.old) }
    {
        let Some(place) = place_of(&self.jobs, job) else {
            return Err(NoSuchJob);
        };
        take_out(&mut self.jobs, place);
        store.release(job);
        Ok(())
    }
}

/// Makes room for one job more, and holds coverages for it. Refused for memory, with the jobs as they were.
fn make_room<H: Snapshots>(
    jobs: &mut Vec<Job>,
    number: u64,
    names: &[Name],
    store: &mut H,
) -> Result<(), AllocError>
    requires { H.may_hold store.old number names.now }
    ensures jobs { jobs.new.items ≡ jobs.old.items }
    ensures room { OnOk result (vec_len jobs.new < vec_capacity jobs.new) }
    ensures held { OnOk result (H.holds store.old number names.now store.new) }
    ensures stays { OnErr result ((store.new ≡ store.old) ⊎ H.stays store.old store.new) }
{
    jobs.reserve(1)?;
    store.hold(number, names)?;
    Ok(())
}

/// Puts a job at the end, for which there is room.
fn push_job(jobs: &mut Vec<Job>, job: Job)
    requires { vec_len jobs.old < vec_capacity jobs.old }
    ensures pushed { jobs.new.items ≡ jobs.old.items ++ job ∷ [] }
{
    match jobs.push(job) {
        Ok(()) => {}
        Err(_) => unreachable!(),
    }
}

/// Takes the job at a place out.
fn take_out(jobs: &mut Vec<Job>, place: usize)
    requires { place < length jobs.old.items }
    ensures { jobs.new.items ≡ remove jobs.old.items place }
{
    let _ = jobs.remove(place);
}

/// The number after one, if there is one.
fn number_after(number: u64) -> Option<u64>
    ensures { result ≡ number_after number }
{
    number.checked_add(1)
}
