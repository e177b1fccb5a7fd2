//! What the next unit finds.

ghost use Rattle.std.specs.Prelude.{◌≡◌, ℕ, ◌+◌, ◌<◌, ◌≤◌, IfOk, OnOk, length, slice_get, option_copied, take, drop};
ghost use Rattle.arr_core.specs.Tiles.{tile_boxes};
ghost use Rattle.tile_columns.specs.Sources.{FetchesAtMost};
ghost use Rattle.tile_columns.specs.Calling.{Reads};
ghost use Rattle.tile_columns.specs.Meaning.{IsGroundOf};
ghost use Rattle.plan_ir.specs.Plans.{item_view};
ghost use Rattle.tile_exec.specs.Tasks.{fieldless};
ghost use Rattle.tile_exec.specs.Standing.{IsSound, plan_of, tasks_left};
ghost use Rattle.tile_exec.specs.Units.{IsLast, Fits, FitsPart, FitsUnit, IsFoundBy, IsNextFound, IfPart, unit_bound};
ghost use Rattle.tile_exec.specs.Fetching.{IsReady, FetchesTile};

use crate::buffers::Buffers;
use crate::found::{Found, Unit};
use crate::item::item_tile;
use crate::known::known_before;
use crate::pass::{condition_of, pass_tile};
use crate::state::State;
use crate::task::{AtHand, Part, Status, Task};
use arr_core::Domain;
use plan_ir::{Fold, Item};
use tile_columns::{Ground, Tiles};
use wcps_mean::{CellError, Outcome, run_length};

/// Whether a tile of a box is its last one.
fn is_last(area: &Domain, tile: u64) -> bool
    requires { tile < length (tile_boxes area.now) }
    ensures { IsLast result tile (length (tile_boxes area.now)) }
{
    let tiles = area.tiles();
    tile + 1 == tiles
}

/// The pass at a place.
fn pass_at(passes: &[Fold], k: usize) -> Option<&Fold>
    ensures { option_copied result ≡ slice_get passes.now k }
{
    passes.get(k)
}

/// So many registers, from one on.
fn registers_from(registers: &[Outcome], first: usize, count: usize) -> &[Outcome]
    requires { first + count ≤ length registers.now }
    ensures { result.now ≡ take count (drop first registers.now) }
{
    let rest = &registers[first..];
    &rest[..count]
}

/// The task at a place.
fn task_at(tasks: &[Task], k: usize) -> Option<&Task>
    ensures { option_copied result ≡ slice_get tasks.now k }
{
    tasks.get(k)
}

/// What an item without fields gives.
fn fieldless_of(item: &Item, status: Status) -> Found
    ensures { (tile : ℕ) → FitsPart tile status (fieldless (item_view item.now)) result }
{
    match status {
        Status::Giving => Found::Fieldless(run_length(item.domain.axes())),
        Status::Skipping => Found::Skipped,
        Status::Failed(_) => Found::Skipped,
    }
}

/// What a tile of a task gives.
fn unit_of<S: Tiles>(
    buffers: &mut Buffers,
    source: &mut S,
    ground: &Ground<'_>,
    at: &AtHand<'_>,
) -> Result<Unit, CellError>
    requires signatures { IsGroundOf (S.state source.old) ground.now }
    requires part { IsReady (S.state source.old) ground.now at.now }
    ensures fits { IfOk result (λ u. IfPart at.now (λ p. FitsUnit at.now.tile at.now.status p u.last u.found)) }
    ensures tells { IfOk result (λ u. IfPart at.now (IsFoundBy (S.state source.old) ground.now at.now u.found)) }
    ensures fetched { IfPart at.now (FetchesTile result ground.now at.now.tile S.Tiles source.old source.new) }
    ensures reads { Reads S.Tiles result source.old source.new }
{
    match at.task.part {
        Part::Pass => match pass_at(&at.steps.passes, at.task.count) {
            None => unreachable!(),
            Some(pass) => {
                let a = pass_tile(buffers, source, ground, pass, at.tile)?;
                Ok(Unit {
                    last: is_last(&pass.domain, at.tile),
                    found: Found::Pass(a),
                })
            }
        },
        Part::Condition => match &at.steps.condition {
            None => unreachable!(),
            Some(condition) => {
                let o = condition_of(buffers, source, ground, condition)?;
                Ok(Unit {
                    last: true,
                    found: Found::Condition(o),
                })
            }
        },
        Part::Item => {
            let last = is_last(&at.steps.item.domain, at.tile);
            match at.status {
                Status::Giving => {
                    let x = item_tile(buffers, source, ground, &at.steps.item, at.tile, at.known)?;
                    Ok(Unit {
                        last,
                        found: Found::Item(x),
                    })
                }
                Status::Skipping => Ok(Unit {
                    last,
                    found: Found::Skipped,
                }),
                Status::Failed(_) => Ok(Unit {
                    last,
                    found: Found::Skipped,
                }),
            }
        }
        Part::Fieldless => Ok(Unit {
            last: true,
            found: fieldless_of(&at.steps.item, at.status),
        }),
    }
}

impl State {
    /// What the next unit gives.
    pub(crate) fn unit<S: Tiles>(
        &self,
        buffers: &mut Buffers,
        source: &mut S,
    ) -> Result<Unit, CellError>
        requires sound { IsSound self.now }
        requires coverages { (S.state source.old).coverages ≡ (plan_of self.now).coverages }
        ensures fits { IfOk result (λ u. Fits self.now (tasks_left self.now) u.last u.found) }
        ensures tells { IfOk result (λ u. IsNextFound (S.state source.old) self.now u.found) }
        ensures fetched { OnOk result (FetchesAtMost (unit_bound self.now) (S.state source.old) (S.state source.new)) }
        ensures reads { Reads S.Tiles result source.old source.new }
    {
        match task_at(&self.tasks, self.at) {
            None => Ok(Unit {
                last: true,
                found: Found::Skipped,
            }),
            Some(task) => {
                let combination = &self.plan.combinations[task.combination];
                let steps = &self.plan.steps[combination.steps];
                let ground = Ground {
                    signatures: &self.plan.coverages,
                    coverages: &combination.coverages,
                    registers: registers_from(&self.registers, task.first, task.count),
                };
                let hand = AtHand {
                    steps,
                    task: *task,
                    tile: self.tile,
                    status: self.status,
                    known: known_before(&self.known, self.tile),
                };
                unit_of(buffers, source, &ground, &hand)
            }
        }
    }
}
