//! An executor that is stepped until it has few units left.

ghost use Rattle.std.specs.Prelude.{◌≡◌, ◌<◌, ◌≤◌, min, OnOk, OnErr};
ghost use Rattle.tile_columns.specs.Sources.{OnlyReads, Tells};
ghost use Rattle.tile_exec.specs.Standing.{plan_of, left_of};
ghost use Rattle.tile_exec.specs.Running.{HasRun, FetchesWithin};

use crate::exec::Exec;
use crate::workspace::Workspace;
use tile_columns::Tiles;
use wcps_mean::CellError;

/// Does units of an executor until it has at most so many left; where it has no more than that, nothing. Where a unit
/// fails those before it stay done.
pub fn run_down<S: Tiles>(
    exec: &mut Exec,
    workspace: &mut Workspace,
    source: &mut S,
    left: u64,
) -> Result<(), CellError>
    requires { left < left_of exec.old → (S.state source.old).coverages ≡ (plan_of exec.old).coverages }
    ensures run { HasRun (S.state source.old) exec.old exec.new }
    ensures done { OnOk result (left_of exec.new ≡ min (left_of exec.old) left) }
    ensures more { OnErr result (left < left_of exec.new) }
    ensures rest { left_of exec.old ≤ left → exec.new ≡ exec.old }
    ensures fetched { OnOk result (FetchesWithin exec.old exec.new (S.state source.old) (S.state source.new)) }
    ensures reads { OnlyReads (S.state source.old) (S.state source.new) }
    ensures reports { Tells S.spelled result (S.state source.old) (S.state source.new) }
{
    while exec.left() > left {
        exec.step(workspace, source)?;
    }
    Ok(())
}
