//! A plan that is partly done.

ghost use Rattle.std.specs.Prelude.{◌≡◌, ◌-◌, ◌<◌, IfOk, IfSome, OnOk, OnErr, MatchOption, MatchResult, Ok, Err};
ghost use Rattle.plan_ir.specs.Plans.{plan_view};
ghost use Rattle.plan_ir.specs.Placed.{IsPlan};
ghost use Rattle.tile_columns.specs.Calling.{Reads};
ghost use Rattle.tile_exec.specs.Standing.{IsBegun, StandsOn, Answers, plan_of, left_of, MovesOn, HasFetched};

use crate::begin::begun;
use crate::state::State;
use crate::task::Status;
use crate::workspace::Workspace;
use arr_core::Signature;
use plan_ir::Plan;
use std::alloc::{AllocError, Global};
use std::marker::Model;
use tile_columns::Tiles;
use wcps_mean::{CellError, Item, PointFault};

/// A plan that is partly done, a tile at a time.
#[derive(Drop)]
pub struct Exec {
    state: State,
}

impl Model for Exec {
    ghost use Rattle.tile_exec.specs.declared.state.State.{State};
    ghost use Rattle.tile_exec.specs.contracts.state.State.{the_row};

    ghost Value = { State };

    ghost coded = { the_row.coded };

    ghost use Rattle.tile_exec.specs.Standing.{IsSound};

    ghost view = { λ e. e.state };

    ghost invariant = { λ e. IsSound e.state };
}

/// What a step did: how many units are left, and how many tiles it fetched.
#[derive(Clone, Copy, PartialEq, Eq)]
pub struct StepInfo {
    pub left: u64,
    pub fetched: u64,
}

impl Exec {
    /// Before its first unit. It reads nothing, and stands for every store.
    pub fn new(alloc: Global, plan: Plan) -> Result<Exec, AllocError>
        requires { IsPlan (plan_view plan) }
        ensures { IfOk result (λ e. IsBegun (plan_view plan) e) }
    {
        let state = begun(alloc, plan)?;
        Ok(Exec { state })
    }

    /// How many units are left.
    pub fn left(&self) -> u64
        ensures { result ≡ left_of self.now }
    {
        self.state.left
    }

    /// The coverages that the plan reads, by their places.
    pub fn coverages(&self) -> &[Signature]
        ensures { result.now ≡ (plan_of self.now).coverages }
    {
        self.state.plan.coverages.as_slice()
    }

    /// Does one unit. After a refusal it is as it was.
    pub fn step<S: Tiles>(
        &mut self,
        workspace: &mut Workspace,
        source: &mut S,
    ) -> Result<StepInfo, CellError>
        requires coverages { (S.state source.old).coverages ≡ (plan_of self.old).coverages }
        ensures plan { plan_of self.new ≡ plan_of self.old }
        ensures left { IfOk result (λ i. (left_of self.new ≡ left_of self.old - 1) × (i.left ≡ left_of self.new)) }
        ensures stands { OnOk result (StandsOn (S.state source.old) self.old self.new) }
        ensures failed { OnErr result (self.new ≡ self.old) }
        ensures place { IfOk result (λ i. MovesOn self.old self.new i.fetched) }
        ensures reads { Reads S.Tiles result source.old source.new }
        ensures fetched { IfOk result (λ i. HasFetched i.fetched (S.state source.old) (S.state source.new)) }
    {
        let before = source.count();
        if self.state.left == 0 {
            return Ok(StepInfo {
                left: 0,
                fetched: 0,
            });
        }
        let buffers = workspace.buffers()?;
        let unit = self.state.unit(buffers, source)?;
        let fetched = source.count() - before;
        self.state.keep(buffers, unit);
        Ok(StepInfo {
            left: self.state.left,
            fetched,
        })
    }

    /// The items, or the first fault, once no unit is left.
    pub fn result(&self) -> Option<Result<&[Item], PointFault>>
        ensures ready { MatchOption result (0 < left_of self.now) (λ _. left_of self.now ≡ 0) }
        ensures value { IfSome result (λ r. MatchResult r (λ x. Answers self.now (Ok x.now)) (λ f. Answers self.now (Err f))) }
    {
        if self.state.left > 0 {
            return None;
        }
        match self.state.status {
            Status::Failed(f) => Some(Err(f)),
            Status::Giving => Some(Ok(&self.state.items)),
            Status::Skipping => Some(Ok(&self.state.items)),
        }
    }
}
