//! Lowering of what one choice of coverages gives: a condition, if any, and an item.

ghost use Rattle.std.specs.Prelude.{◌≡◌, IfOk};
ghost use Rattle.plan_ir.specs.Plans.{steps_view};
ghost use Rattle.plan_rewrite.specs.LoweredItems.{returned, lowered_scalar, lowered_steps};
ghost use Rattle.plan_rewrite.specs.Lowered.{AreStepsFor};
ghost use Rattle.plan_rewrite.specs.Views.{tree_in};

use crate::lowering::context::Context;
use crate::lowering::expression::lowered;
use crate::lowering::item::lowered_item;
use plan_ir::{Body, Steps};
use std::alloc::{AllocError, Global};
use wcps_types::{Node, TypedItem};

/// The steps of a condition and an item over one choice of coverages, without passes. They give the item where the
/// condition is true or there is none, and the first fault of these. They have at most one unit more than the work.
pub fn lower_steps(
    alloc: Global,
    condition: &Option<Box<Node>>,
    item: &TypedItem,
) -> Result<Steps, AllocError>
    ensures { IfOk result (λ t. AreStepsFor (returned condition.now item.now) (steps_view t)) }
{
    let t = lowered_steps(alloc, condition, item)?;
    Ok(t)
}

/// The lowered steps.
pub fn lowered_steps(
    alloc: Global,
    condition: &Option<Box<Node>>,
    item: &TypedItem,
) -> Result<Steps, AllocError>
    ensures { IfOk result (λ t. steps_view t ≡ lowered_steps condition.now item.now) }
{
    let item = lowered_item(alloc, item)?;
    match condition {
        None => Ok(Steps {
            passes: Vec::new(alloc),
            condition: None,
            item,
        }),
        Some(c) => {
            let c = lowered_scalar(alloc, c)?;
            Ok(Steps {
                passes: Vec::new(alloc),
                condition: Some(Box::into_inner(c)),
                item,
            })
        }
    }
}

/// The body of a scalar under no variable.
fn lowered_scalar(alloc: Global, e: &Node) -> Result<Box<Body>, AllocError>
    ensures { IfOk result (λ b. tree_in b ≡ lowered_scalar e.now) }
{
    let context = Context::outermost(alloc, &[], &[])?;
    lowered(alloc, &context, e, 0)
}
