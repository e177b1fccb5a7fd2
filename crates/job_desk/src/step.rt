//! A step of a job.

ghost use Rattle.std.specs.Prelude.{◌≡◌, ◌<◌, IfOk, OnOk, OnErr};
ghost use Rattle.tile_columns.specs.Sources.{OnlyReads, Tells};
ghost use Rattle.tile_exec.specs.Running.{FetchesWithin};
ghost use Rattle.job_desk.specs.Desks.{IsJob};
ghost use Rattle.job_desk.specs.Steps.{coverages_of, IsLowered, IsHeldUp};

use crate::job::Job;
use tile_columns::Tiles;
use tile_exec::{Workspace, run_down};
use wcps_mean::CellError;

/// Lowers what a job shows as left by so many units, not below 0, and does the units of its executor that this asks.
/// Where one fails the job shows what it did.
pub(crate) fn step_job<S: Tiles>(
    job: &mut Job,
    units: u64,
    workspace: &mut Workspace,
    source: &mut S,
) -> Result<u64, CellError>
    requires job { IsJob job.old }
    requires coverages { 0 < job.old.left → (S.state source.old).coverages ≡ coverages_of job.old }
    ensures lowered { IfOk result (λ left. IsLowered (S.state source.old) units left job.old job.new) }
    ensures held_up { OnErr result (IsHeldUp (S.state source.old) units job.old job.new) }
    ensures job { IsJob job.new }
    ensures fetched { OnOk result (FetchesWithin job.old.exec job.new.exec (S.state source.old) (S.state source.new)) }
    ensures reads { OnlyReads (S.state source.old) (S.state source.new) }
    ensures reports { Tells S.spelled result (S.state source.old) (S.state source.new) }
{
    let left = job.left.saturating_sub(units);
    run_down(&mut job.exec, workspace, source, left)?;
    job.left = left;
    Ok(left)
}
