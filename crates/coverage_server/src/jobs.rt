//! Jobs: queries that are submitted, done a few units at a time, and fetched.
ghost use Rattle.std.specs.Prelude.{◌≡◌, ◌+◌, ◌≤◌, All, List, [], ◌++◌, codes, decimal, length};
ghost use Rattle.std.specs.Prelude.{string_bytes, string_len, string_capacity, IfOk, IfErr, OnOk, OnErr};
ghost use Rattle.raster_store.specs.Views.{SnapshotView};
ghost use Rattle.coverage_server.specs.Answered.{AnswersJob, AnswersTree, LaysTree, IsAnswer, TellsFailures};
ghost use Rattle.coverage_server.specs.Layouts.{LaysQuery, LetsGo, layout_of};
ghost use Rattle.coverage_server.specs.Stages.{submit_refusal, step_refusal, fetch_refusal};
ghost use Rattle.coverage_server.specs.Fetching.{FetchesForJob};
ghost use Rattle.coverage_server.specs.Holding.{IsHolding};
ghost use Rattle.coverage_server.specs.Leaving.{ChangesHeld, LeavesJob, LeavesFetched, ReadsHeld, refusal_number};
ghost use Rattle.coverage_server.specs.Views.{IsHeld, ServerView, still_of};
ghost use Rattle.kvp_front.specs.Requests.{submit_query, step_job, fetch_job, cancel_job};
ghost use Rattle.wcps_types.specs.TypedQueries.{query_view as tree_of};

use crate::cells::AskedCells;
use crate::error::AnswerError;
use crate::query::{names_of, plan_of, typed_text};
use arr_core::Refusal;
use disk_face::Disk;
use http_front::Reply;
use itoa::Buffer;
use job_desk::{FetchError, JobDesk, NoSuchJob, StepError, SubmitError};
use std::alloc::Global;
use tile_exec::{Answer, Workspace};
use wcps_types::TypedQuery;

/// More bytes than `job 1 left 5` has for any numbers.
const JOB_ROOM: usize = 96;

/// Adds to a text that has room for it. Takes no memory.
fn add(text: &mut String, more: &str)
    requires { string_len text.old + length more.now ≤ string_capacity text.old }
    ensures bytes { string_bytes text.new ≡ string_bytes text.old ++ more.now }
    ensures len { string_len text.new ≡ string_len text.old + length more.now }
    ensures capacity { string_capacity text.old ≤ string_capacity text.new }
{
    let _ = text.push_str(more);
}

/// Writes `job 1 left 5` into a text without bytes that has room for it. Takes no memory.
fn write_job(text: &mut String, number: u64, left: u64)
    requires empty { string_bytes text.old ≡ [] }
    requires len { string_len text.old ≡ 0 }
    requires room { JOB_ROOM ≤ string_capacity text.old }
    ensures { string_bytes text.new ≡ codes "job " ++ decimal number ++ codes " left " ++ decimal left ++ codes "\n" }
{
    let mut digits = Buffer::new();
    add(text, "job ");
    add(text, digits.format(number));
    add(text, " left ");
    add(text, digits.format(left));
    add(text, "\n");
}

/// Why a query does not become a job.
fn submit_refusal(error: SubmitError) -> AnswerError
    ensures { result ≡ submit_refusal error }
{
    match error {
        SubmitError::TooManyJobs => AnswerError::Named(Refusal::TooManyJobs),
        SubmitError::NoMemory => AnswerError::NoMemory,
    }
}

/// Why no units were done.
fn step_refusal(error: StepError) -> AnswerError
    ensures { result ≡ step_refusal error }
{
    match error {
        StepError::NoSuchJob => AnswerError::Named(Refusal::NoSuchJob),
        StepError::Cells(error) => AnswerError::from(error),
    }
}

/// Why no answer is fetched.
fn fetch_refusal(error: FetchError) -> AnswerError
    ensures { result ≡ fetch_refusal error }
{
    match error {
        FetchError::NoSuchJob => AnswerError::Named(Refusal::NoSuchJob),
        FetchError::NotReady => AnswerError::Named(Refusal::NotReady),
        FetchError::NoMemory => AnswerError::NoMemory,
    }
}

/// A typed query becomes a job, for which its coverages are held as they are. The reply gives its number and how many
/// units it has left; nothing is evaluated. Where it is refused nothing is held.
fn submit_typed<D: Disk>(
    cells: &mut AskedCells<D>,
    desk: &mut JobDesk,
    typed: &TypedQuery,
) -> Result<Reply, AnswerError>
    requires some { 1 ≤ length (tree_of typed.now).combinations }
    requires held { All (IsHeld cells.old.coverages.store) (tree_of typed.now).coverages }
    requires holding { IsHolding desk.old cells.old.coverages.held }
    ensures answered { AnswersTree (tree_of typed.now)
        cells.old.coverages desk.old cells.new.coverages desk.new result }
    ensures lays { OnOk result (LaysTree (tree_of typed.now) cells.old.coverages desk.old.next cells.new.coverages) }
    ensures answer { IfOk result IsAnswer }
    ensures holding { IsHolding desk.new cells.new.coverages.held }
    ensures changes { ChangesHeld cells.old.coverages cells.new.coverages }
    ensures refused { OnErr result (cells.new.coverages ≡ cells.old.coverages) }
    ensures desk { OnErr result (desk.new ≡ desk.old) }
{
    let alloc = cells.alloc;
    let mut reply = String::with_capacity(alloc, JOB_ROOM)?;
    let names = names_of(alloc, typed.coverages())?;
    let plan = plan_of(alloc, typed)?;
    let _rising = desk.coverages(0);
    match desk.submit(plan, names, cells) {
        Ok((number, left)) => {
            write_job(&mut reply, number, left);
            Ok(Reply::Text(reply))
        }
        Err(error) => Err(submit_refusal(error)),
    }
}

/// A query becomes a job, for which its coverages are held as they are. The reply gives its number and how many units
/// it has left; nothing is evaluated. Where it is refused nothing is held.
pub fn submit_query<D: Disk>(
    cells: &mut AskedCells<D>,
    desk: &mut JobDesk,
    text: &str,
) -> Result<Reply, AnswerError>
    requires holding { IsHolding desk.old cells.old.coverages.held }
    ensures answered { AnswersJob (submit_query text.now)
        cells.old.coverages desk.old cells.new.coverages desk.new result }
    ensures lays { OnOk result (LaysQuery text.now cells.old.coverages desk.old.next cells.new.coverages) }
    ensures answer { IfOk result IsAnswer }
    ensures holding { IsHolding desk.new cells.new.coverages.held }
    ensures changes { ChangesHeld cells.old.coverages cells.new.coverages }
    ensures refused { OnErr result (cells.new.coverages ≡ cells.old.coverages) }
    ensures desk { OnErr result (desk.new ≡ desk.old) }
{
    let typed = typed_text(cells.alloc, &cells.coverages, text)?;
    submit_typed(cells, desk, &typed)
}

/// Units of a job are done, over the coverages that are held for it, which are let go where no unit is left. The reply,
/// which is written first, gives how many are left.
pub fn step_job<D: Disk>(
    cells: &mut AskedCells<D>,
    desk: &mut JobDesk,
    workspace: &mut Workspace,
    number: u64,
    units: u64,
) -> Result<Reply, AnswerError>
    requires holding { IsHolding desk.old cells.old.coverages.held }
    ensures answered { AnswersJob (step_job number units)
        cells.old.coverages desk.old cells.new.coverages desk.new result }
    ensures lays { OnOk result (LetsGo number (layout_of cells.old.coverages) (layout_of cells.new.coverages)) }
    ensures answer { IfOk result IsAnswer }
    ensures holding { IsHolding desk.new cells.new.coverages.held }
    ensures reads { ReadsHeld cells.old.coverages cells.new.coverages }
    ensures told { TellsFailures result cells.old.coverages cells.new.coverages }
    ensures refused { OnErr result (still_of cells.new.coverages ≡ still_of cells.old.coverages) }
    ensures jobs { OnErr result (LeavesJob number desk.old desk.new) }
    ensures fetches { FetchesForJob number cells.old.coverages desk.old cells.new.coverages desk.new result }
{
    let Some(left) = desk.left(number) else {
        return Err(AnswerError::Named(Refusal::NoSuchJob));
    };
    let Some(coverages) = desk.coverages(number) else {
        unreachable!();
    };
    let reply = format!(in cells.alloc; "left {}\n", left.saturating_sub(units))?;
    if left == 0 {
        return Ok(Reply::Text(reply));
    }
    cells.ask(number, coverages)?;
    match desk.step(number, units, workspace, cells) {
        Ok(_) => Ok(Reply::Text(reply)),
        Err(error) => Err(step_refusal(error)),
    }
}

/// The answer of a job that has no units left, which is dropped.
pub fn fetch_job(desk: &mut JobDesk, number: u64) -> Result<Reply, AnswerError>
    ensures answered { (v : ServerView) → AnswersJob (fetch_job number) v desk.old v desk.new result }
    ensures answer { IfOk result IsAnswer }
    ensures holding { (held : List SnapshotView) → IsHolding desk.old held → IsHolding desk.new held }
    ensures jobs { IfErr result (λ e. LeavesFetched number (refusal_number e) desk.old desk.new) }
{
    let answer = match desk.fetch(number) {
        Ok(answer) => answer,
        Err(error) => return Err(fetch_refusal(error)),
    };
    match answer {
        Answer::Text(text) => Ok(Reply::Csv(text)),
        Answer::Refused(fault) => Err(AnswerError::Named(fault.refusal())),
    }
}

/// A job is dropped, and what is held for it is let go.
pub fn cancel_job<D: Disk>(
    cells: &mut AskedCells<D>,
    desk: &mut JobDesk,
    number: u64,
) -> Result<Reply, AnswerError>
    requires holding { IsHolding desk.old cells.old.coverages.held }
    ensures answered { AnswersJob (cancel_job number)
        cells.old.coverages desk.old cells.new.coverages desk.new result }
    ensures lays { OnOk result (LetsGo number (layout_of cells.old.coverages) (layout_of cells.new.coverages)) }
    ensures answer { IfOk result IsAnswer }
    ensures holding { IsHolding desk.new cells.new.coverages.held }
    ensures changes { ChangesHeld cells.old.coverages cells.new.coverages }
    ensures refused { OnErr result (cells.new.coverages ≡ cells.old.coverages) }
    ensures desk { OnErr result (desk.new ≡ desk.old) }
{
    let reply = String::from_str(cells.alloc, "ok\n")?;
    let _rising = desk.coverages(number);
    match desk.cancel(number, cells) {
        Ok(()) => Ok(Reply::Text(reply)),
        Err(NoSuchJob) => Err(AnswerError::Named(Refusal::NoSuchJob)),
    }
}
