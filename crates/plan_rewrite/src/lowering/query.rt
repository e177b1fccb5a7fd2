//! Lowering of queries.

ghost use Rattle.std.specs.Prelude.{◌≡◌, ◌∷◌, [], ◌≤◌, IfOk, OnOk, length, map, option_copied, option_map, slice_get};
ghost use Rattle.wcps_types.specs.TypedQueries.{query_view, trees_in};
ghost use Rattle.plan_ir.specs.Plans.{steps_view, choice_view, plan_view};
ghost use Rattle.plan_ir.specs.Placed.{IsPlan};
ghost use Rattle.plan_ir.specs.FoldPoints.{unit_bound};
ghost use Rattle.plan_rewrite.specs.LoweredPlans.{IsLowered, AreLowered, choice_of, lowered_choices};
ghost use Rattle.plan_rewrite.specs.Lowered.{Answers, work_bound};
ghost use Rattle.plan_rewrite.specs.Views.{Gains};

use crate::lowering::choice::lowered_steps;
use arr_core::Signature;
use plan_ir::{Combination as Choice, Plan, Steps};
use std::alloc::{AllocError, Global};
use wcps_types::{Combination, TypedQuery, tree_at};

/// The plan of a query, without passes. It gives the query's answer, its first fault too, and is well-formed. Steps
/// stand once for each tree, and combinations that share a tree share them. `rewrite` makes it a plan of at most as
/// many units as the number of combinations times two more than the work.
pub fn lower(alloc: Global, query: &TypedQuery) -> Result<Plan, AllocError>
    ensures planned { IfOk result (λ p. Answers (query_view query.now) (plan_view p)) }
    ensures placed { IfOk result (λ p. IsPlan (plan_view p)) }
    ensures units { IfOk result (λ p. unit_bound (plan_view p) ≤ work_bound (query_view query.now).combinations) }
    ensures coverages { IfOk result (λ p. p.coverages.items ≡ (query_view query.now).coverages) }
    ensures shared { IfOk result (λ p. length p.steps.items ≡ length (trees_in query.now)) }
{
    let coverages = copies(alloc, query.coverages())?;
    let steps = each_lowered(alloc, query)?;
    let combinations = choices(alloc, &steps, query.combinations())?;
    Ok(Plan {
        coverages,
        steps,
        combinations,
    })
}

/// Copies of signatures.
fn copies(alloc: Global, all: &[Signature]) -> Result<Vec<Signature>, AllocError>
    ensures { IfOk result (λ v. v.items ≡ all.now) }
{
    let mut list = Vec::new(alloc);
    for signature in all {
        list.push(signature.copy(alloc)?)?;
    }
    Ok(list)
}

/// The steps of the tree at a place.
fn lowered_at(alloc: Global, query: &TypedQuery, place: usize) -> Result<Option<Steps>, AllocError>
    ensures { IfOk result (λ t. IsLowered (slice_get (trees_in query.now) place) (option_map steps_view t)) }
{
    let Some(tree) = tree_at(alloc, query, place)? else {
        return Ok(None);
    };
    Ok(Some(lowered_steps(alloc, &tree.condition, &tree.item)?))
}

/// The steps of each tree. Of the trees there is one at a time.
fn each_lowered(alloc: Global, query: &TypedQuery) -> Result<Vec<Steps>, AllocError>
    ensures { IfOk result (λ v. AreLowered (trees_in query.now) (map steps_view v.items)) }
{
    let mut list = Vec::new(alloc);
    while let Some(steps) = lowered_at(alloc, query, list.len())? {
        list.push(steps)?;
    }
    Ok(list)
}

/// The combinations that have steps, which in a checked query all do.
fn choices(alloc: Global, steps: &[Steps], all: &[Combination]) -> Result<Vec<Choice>, AllocError>
    ensures { IfOk result (λ v. map choice_view v.items ≡ lowered_choices steps.now all.now) }
{
    let mut list = Vec::new(alloc);
    push_choices(alloc, steps, all, &mut list)?;
    Ok(list)
}

/// Puts the combinations that have steps at the end of a list.
fn push_choices(
    alloc: Global,
    steps: &[Steps],
    all: &[Combination],
    list: &mut Vec<Choice>,
) -> Result<(), AllocError>
    ensures { OnOk result (Gains choice_view list.old list.new (lowered_choices steps.now all.now)) }
{
    match all {
        [] => Ok(()),
        [combination, rest @ ..] => {
            if let Some(_steps) = steps_at(steps, combination.tree) {
                push_choice(alloc, combination, list)?;
            }
            push_choices(alloc, steps, rest, list)
        }
    }
}

/// The steps at a place.
fn steps_at(steps: &[Steps], k: usize) -> Option<&Steps>
    ensures { option_copied result ≡ slice_get steps.now k }
{
    steps.get(k)
}

/// Puts a combination at the end of a list. Its steps have the place of its tree.
fn push_choice(
    alloc: Global,
    combination: &Combination,
    list: &mut Vec<Choice>,
) -> Result<(), AllocError>
    ensures { OnOk result (Gains choice_view list.old list.new (choice_of combination.now ∷ [])) }
{
    let coverages = combination.coverages.to_vec(alloc)?;
    list.push(Choice {
        steps: combination.tree,
        coverages,
    })?;
    Ok(())
}
