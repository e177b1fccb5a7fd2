//! Rewriting of plans.

ghost use Rattle.std.specs.Prelude.{◌≡◌, ◌≤◌, IfOk};
ghost use Rattle.plan_ir.specs.Plans.{plan_view};
ghost use Rattle.plan_ir.specs.Placed.{IsPlan};
ghost use Rattle.plan_rewrite.specs.InlinedPlans.{inlined_plan};
ghost use Rattle.plan_rewrite.specs.Everywhere.{Everywhere};
ghost use Rattle.plan_rewrite.specs.Rewritten.{MeansSame, NoInlinableBind, NoFoldIsClosed};
ghost use Rattle.plan_rewrite.specs.HoistedPlans.{hoisted_plan};
ghost use Rattle.plan_ir.specs.FoldPoints.{unit_bound};

use crate::hoisting::hoist_plan;
use crate::inlining::inline_plan;
use plan_ir::Plan;
use std::alloc::{AllocError, Global};

/// The plan inlined and then hoisted: a bind whose position is a literal inside its interval, or a variable whose own
/// interval lies inside it, is left out, and that stands for its variable; then each fold that uses no variable from
/// outside it is a pass, whose register stands in its place. A well-formed plan gives what it gave, faults included,
/// and stays well-formed. The units grow by no more than the points of the folds.
pub fn rewrite(alloc: Global, plan: Plan) -> Result<Plan, AllocError>
    ensures planned { IfOk result (λ r. IsPlan (plan_view plan) → MeansSame (plan_view plan) (plan_view r)) }
    ensures placed { IfOk result (λ r. IsPlan (plan_view plan) → IsPlan (plan_view r)) }
    ensures reduced { IfOk result (λ r. Everywhere NoInlinableBind (plan_view r)) }
    ensures open { IfOk result (λ r. Everywhere NoFoldIsClosed (plan_view r)) }
    ensures units { IfOk result (λ r. unit_bound (plan_view r) ≤ unit_bound (plan_view plan)) }
    ensures coverages { IfOk result (λ r. r.coverages.items ≡ plan.coverages.items) }
{
    let r = rewritten(alloc, plan)?;
    Ok(r)
}

/// The rewritten plan.
fn rewritten(alloc: Global, plan: Plan) -> Result<Plan, AllocError>
    ensures { IfOk result (λ r. plan_view r ≡ hoisted_plan (inlined_plan (plan_view plan))) }
{
    let mut r = plan;
    inline_plan(alloc, &mut r)?;
    hoist_plan(alloc, &mut r)?;
    Ok(r)
}
