//! Plans whose closed folds are passes.

ghost use Rattle.std.specs.Prelude.{◌≡◌, IfOk, OnOk, map};
ghost use Rattle.plan_ir.specs.Plans.{item_view, steps_view, plan_view};
ghost use Rattle.plan_ir.specs.Placed.{IsPlan};
ghost use Rattle.plan_rewrite.specs.HoistedPlans.{item_on, hoisted_steps, hoisted_plan};
ghost use Rattle.plan_rewrite.specs.HoistedParts.{HasBinds, HasFields, with_last, pass_hoisted, passes_hoisted, condition_hoisted, fields_hoisted, rest_hoisted, item_hoisted};
ghost use Rattle.plan_rewrite.specs.Everywhere.{Everywhere};
ghost use Rattle.plan_rewrite.specs.Rewritten.{MeansSame, NoFoldIsClosed};
ghost use Rattle.plan_rewrite.specs.Views.{passes_in, condition_in, GainsFields};

use crate::hoisting::folds::{Around, hoist_body, hoist_fold};
use plan_ir::{Bind, Body, Field, Fold, Item, Plan, Steps};
use std::alloc::{AllocError, Global};
use std::mem;
use std::vec::IntoIter;

/// The plan with each fold that uses no variable from outside it as a pass, the innermost first, whose register stands
/// in its place. A well-formed plan gives what it gave, faults included, and stays well-formed.
pub fn hoist(alloc: Global, plan: Plan) -> Result<Plan, AllocError>
    ensures planned { IfOk result (λ r. IsPlan (plan_view plan) → MeansSame (plan_view plan) (plan_view r)) }
    ensures placed { IfOk result (λ r. IsPlan (plan_view plan) → IsPlan (plan_view r)) }
    ensures open { IfOk result (λ r. Everywhere NoFoldIsClosed (plan_view r)) }
{
    let mut r = plan;
    hoist_plan(alloc, &mut r)?;
    Ok(r)
}

/// Hoists the closed folds of a plan.
pub fn hoist_plan(alloc: Global, plan: &mut Plan) -> Result<(), AllocError>
    ensures { OnOk result (plan_view plan.new ≡ hoisted_plan (plan_view plan.old)) }
{
    hoist_all(alloc, &mut plan.steps)
}

/// Hoists the closed folds of all steps.
#[tactic(auto, using(crate::proofs::Loops::viewed_more))]
fn hoist_all(alloc: Global, all: &mut [Steps]) -> Result<(), AllocError>
    ensures { OnOk result (map steps_view all.new ≡ map hoisted_steps (map steps_view all.old)) }
{
    for steps in all.iter_mut() {
        hoist_steps(alloc, steps)?;
    }
    Ok(())
}

/// Hoists the closed folds of steps: of the passes, then of the condition, then of the item.
fn hoist_steps(alloc: Global, steps: &mut Steps) -> Result<(), AllocError>
    ensures { OnOk result (steps_view steps.new ≡ hoisted_steps (steps_view steps.old)) }
{
    let mut old = mem::replace(&mut steps.passes, Vec::new(alloc)).into_iter();
    let mut regs = Vec::new(alloc);
    hoist_passes(&mut old, &mut regs, &mut steps.passes)?;
    hoist_condition(&regs, &mut steps.condition, &mut steps.passes)?;
    hoist_item(alloc, &regs, &mut steps.item, &mut steps.passes)
}

/// Puts passes at the end of those so far, each behind what its own closed folds become; `regs` gets their places.
fn hoist_passes(
    old: &mut IntoIter<Fold>,
    regs: &mut Vec<usize>,
    passes: &mut Vec<Fold>,
) -> Result<(), AllocError>
    ensures regs { OnOk result (regs.new.items ≡ (passes_hoisted regs.old passes.old old.old).regs) }
    ensures passes { OnOk result (passes_in passes.new ≡ (passes_hoisted regs.old passes.old old.old).passes) }
{
    match old.next() {
        None => Ok(()),
        Some(mut pass) => {
            hoist_pass(&mut pass, regs, passes)?;
            passes.push(pass)?;
            hoist_passes(old, regs, passes)
        }
    }
}

/// Hoists the closed folds of a pass, which is to come next: `regs` gets its place.
fn hoist_pass(
    pass: &mut Fold,
    regs: &mut Vec<usize>,
    passes: &mut Vec<Fold>,
) -> Result<(), AllocError>
    ensures regs { OnOk result (regs.new.items ≡ (pass_hoisted regs.old passes.old pass.old).regs) }
    ensures passes { OnOk result (with_last passes.new pass.new ≡ (pass_hoisted regs.old passes.old pass.old).passes) }
{
    hoist_fold(&Around { regs, depth: 0 }, pass, passes)?;
    regs.push(passes.len())?;
    Ok(())
}

/// Hoists the closed folds of a condition, if there is one.
fn hoist_condition(
    regs: &[usize],
    c: &mut Option<Body>,
    passes: &mut Vec<Fold>,
) -> Result<(), AllocError>
    ensures value { OnOk result (condition_in c.new ≡ (condition_hoisted regs.now passes.old c.old).condition) }
    ensures passes { OnOk result (passes_in passes.new ≡ (condition_hoisted regs.now passes.old c.old).passes) }
{
    match c {
        None => Ok(()),
        Some(body) => hoist_body(&Around { regs, depth: 0 }, body, passes),
    }
}

/// Hoists the closed folds of an item.
fn hoist_item(
    alloc: Global,
    regs: &[usize],
    item: &mut Item,
    passes: &mut Vec<Fold>,
) -> Result<(), AllocError>
    ensures item { OnOk result (item_view item.new ≡ item_on item.old.domain (item_hoisted regs.now passes.old item.old)) }
    ensures passes { OnOk result (passes_in passes.new ≡ (item_hoisted regs.now passes.old item.old).passes) }
{
    let at = Around {
        regs,
        depth: item.domain.axes().len(),
    };
    let mut binds = mem::replace(&mut item.binds, Vec::new(alloc)).into_iter();
    let mut fields = mem::replace(&mut item.fields, Vec::new(alloc)).into_iter();
    hoist_binds(&at, &mut binds, &mut fields, passes, item)
}

/// Puts binds and the fields behind them at the ends of those of an item.
fn hoist_binds(
    at: &Around,
    binds: &mut IntoIter<Bind>,
    fields: &mut IntoIter<Field>,
    passes: &mut Vec<Fold>,
    item: &mut Item,
) -> Result<(), AllocError>
    ensures domain { OnOk result (item.new.domain ≡ item.old.domain) }
    ensures binds { OnOk result (HasBinds item.old item.new (rest_hoisted at.now passes.old binds.old fields.old)) }
    ensures fields { OnOk result (HasFields item.old item.new (rest_hoisted at.now passes.old binds.old fields.old)) }
    ensures passes { OnOk result (passes_in passes.new ≡ (rest_hoisted at.now passes.old binds.old fields.old).passes) }
{
    match binds.next() {
        None => hoist_fields(at, fields, passes, &mut item.fields),
        Some(mut bind) => {
            hoist_body(at, &mut bind.position, passes)?;
            item.binds.push(bind)?;
            hoist_binds(&at.under(1)?, binds, fields, passes, item)
        }
    }
}

/// Puts fields at the end of a list.
fn hoist_fields(
    at: &Around,
    fields: &mut IntoIter<Field>,
    passes: &mut Vec<Fold>,
    list: &mut Vec<Field>,
) -> Result<(), AllocError>
    ensures fields { OnOk result (GainsFields list.old list.new (fields_hoisted at.now passes.old fields.old).fields) }
    ensures passes { OnOk result (passes_in passes.new ≡ (fields_hoisted at.now passes.old fields.old).passes) }
{
    match fields.next() {
        None => Ok(()),
        Some(mut field) => {
            hoist_body(at, &mut field.body, passes)?;
            list.push(field)?;
            hoist_fields(at, fields, passes, list)
        }
    }
}
