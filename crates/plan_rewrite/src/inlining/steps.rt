//! Plans whose binds are inlined where they can be.

ghost use Rattle.std.specs.Prelude.{◌≡◌, ◌++◌, ◌∷◌, [], length, IfOk, OnOk, map};
ghost use Rattle.plan_ir.specs.declared.body.Index.TheVariants.{Var};
ghost use Rattle.plan_ir.specs.Plans.{bind_view, pass_view, field_view, item_view, steps_view, plan_view};
ghost use Rattle.plan_ir.specs.Placed.{IsPlan};
ghost use Rattle.plan_rewrite.specs.Everywhere.{Everywhere};
ghost use Rattle.plan_rewrite.specs.Rewritten.{MeansSame, NoInlinableBind};
ghost use Rattle.plan_rewrite.specs.InlinedPlans.{variables_behind, binds_kept, inlined_pass, inlined_fields, inlined_item, inlined_steps, inlined_plan};
ghost use Rattle.plan_rewrite.specs.Views.{GainsBinds};

use crate::inlining::body::{inline_body, inline_fold, stand_in};
use crate::variables::{with_levels, with_spans};
use plan_ir::{Bind, Field, Fold, Index, Interval, Item, Plan, Steps};
use std::alloc::{AllocError, Global};
use std::mem;
use std::vec::IntoIter;

/// The plan without each bind whose position is a literal inside its interval, or a variable whose own interval lies
/// inside: the constant or the variable stands in its place. It gives what the plan gives, faults included.
pub fn inline(alloc: Global, plan: Plan) -> Result<Plan, AllocError>
    ensures planned { IfOk result (λ r. MeansSame (plan_view plan) (plan_view r)) }
    ensures placed { IfOk result (λ r. IsPlan (plan_view plan) → IsPlan (plan_view r)) }
    ensures reduced { IfOk result (λ r. Everywhere NoInlinableBind (plan_view r)) }
{
    let mut r = plan;
    inline_plan(alloc, &mut r)?;
    Ok(r)
}

/// Inlines the binds of a plan.
pub fn inline_plan(alloc: Global, plan: &mut Plan) -> Result<(), AllocError>
    ensures { OnOk result (plan_view plan.new ≡ inlined_plan (plan_view plan.old)) }
{
    inline_all(alloc, &mut plan.steps)
}

/// Inlines the binds of all steps.
#[tactic(auto, using(crate::proofs::Loops::viewed_more))]
fn inline_all(alloc: Global, all: &mut [Steps]) -> Result<(), AllocError>
    ensures { OnOk result (map steps_view all.new ≡ map inlined_steps (map steps_view all.old)) }
{
    for steps in all.iter_mut() {
        inline_steps(alloc, steps)?;
    }
    Ok(())
}

/// Inlines the binds of steps.
fn inline_steps(alloc: Global, steps: &mut Steps) -> Result<(), AllocError>
    ensures { OnOk result (steps_view steps.new ≡ inlined_steps (steps_view steps.old)) }
{
    inline_passes(alloc, &mut steps.passes)?;
    if let Some(c) = &mut steps.condition {
        inline_body(alloc, &[], &[], c)?;
    }
    inline_item(alloc, &mut steps.item)
}

/// Inlines the binds of passes.
#[tactic(auto, using(crate::proofs::Loops::viewed_more))]
fn inline_passes(alloc: Global, passes: &mut [Fold]) -> Result<(), AllocError>
    ensures { OnOk result (map pass_view passes.new ≡ map inlined_pass (map pass_view passes.old)) }
{
    for pass in passes.iter_mut() {
        inline_fold(alloc, &[], &[], pass)?;
    }
    Ok(())
}

/// Inlines the binds of an item.
fn inline_item(alloc: Global, item: &mut Item) -> Result<(), AllocError>
    ensures { OnOk result (item_view item.new ≡ inlined_item (item_view item.old)) }
{
    let mut env = with_levels(alloc, &[], &[], item.domain.axes())?;
    let mut scope = with_spans(alloc, &[], item.domain.axes())?;
    let mut binds = mem::replace(&mut item.binds, Vec::new(alloc)).into_iter();
    inline_binds(alloc, &mut binds, &mut env, &mut scope, &mut item.binds)?;
    inline_fields(alloc, &env, &scope, &mut item.fields)
}

/// Puts a bind that stays at the end of a list, and adds its variable to the others.
fn keep_bind(
    bind: Bind,
    env: &mut Vec<Index>,
    scope: &mut Vec<Interval>,
    list: &mut Vec<Bind>,
) -> Result<(), AllocError>
    ensures env { OnOk result (env.new.items ≡ env.old.items ++ Var (length scope.old.items) ∷ []) }
    ensures scope { OnOk result (scope.new.items ≡ scope.old.items ++ bind.interval ∷ []) }
    ensures kept { OnOk result (GainsBinds list.old list.new (bind_view bind ∷ [])) }
{
    let interval = bind.interval;
    list.push(bind)?;
    env.push(Index::Var(scope.len()))?;
    scope.push(interval)?;
    Ok(())
}

/// Puts the binds that stay at the end of a list, and adds to the variables what the binds add.
fn inline_binds(
    alloc: Global,
    binds: &mut IntoIter<Bind>,
    env: &mut Vec<Index>,
    scope: &mut Vec<Interval>,
    list: &mut Vec<Bind>,
) -> Result<(), AllocError>
    ensures env { OnOk result (env.new.items ≡ (variables_behind env.old scope.old binds.old).env) }
    ensures scope { OnOk result (scope.new.items ≡ (variables_behind env.old scope.old binds.old).scope) }
    ensures kept { OnOk result (GainsBinds list.old list.new (binds_kept env.old scope.old binds.old)) }
{
    match binds.next() {
        None => Ok(()),
        Some(mut bind) => {
            inline_body(alloc, env, scope, &mut bind.position)?;
            match stand_in(scope, bind.interval, &bind.position) {
                Some(i) => {
                    drop(bind);
                    env.push(i)?;
                    inline_binds(alloc, binds, env, scope, list)
                }
                None => {
                    keep_bind(bind, env, scope, list)?;
                    inline_binds(alloc, binds, env, scope, list)
                }
            }
        }
    }
}

/// Inlines the binds of fields.
#[tactic(auto, using(crate::proofs::Loops::viewed_more))]
fn inline_fields(
    alloc: Global,
    env: &[Index],
    scope: &[Interval],
    fields: &mut [Field],
) -> Result<(), AllocError>
    ensures { OnOk result (map field_view fields.new ≡ inlined_fields env.now scope.now (map field_view fields.old)) }
{
    for field in fields.iter_mut() {
        inline_body(alloc, env, scope, &mut field.body)?;
    }
    Ok(())
}
