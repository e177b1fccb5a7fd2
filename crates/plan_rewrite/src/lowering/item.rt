//! Lowering of items.

ghost use Rattle.std.specs.Prelude.{◌≡◌, IfOk, OnOk, map};
ghost use Rattle.plan_ir.specs.Plans.{bind_view, item_view};
ghost use Rattle.plan_rewrite.specs.Lowering.{setting_of};
ghost use Rattle.plan_rewrite.specs.LoweredItems.{shared_binds, shared_fields, lowered_fields, item_binds, lowered_item};
ghost use Rattle.plan_rewrite.specs.Views.{fields_in, GainsBinds};

use crate::lowering::context::Context;
use crate::lowering::expression::{lowered, lowered_scalar};
use crate::nodes::push_bind;
use plan_ir::{Bind, Field, Interval, Item};
use std::alloc::{AllocError, Global};
use wcps_types::{Node, TypedItem};

/// The item of a query.
pub fn lowered_item(alloc: Global, item: &TypedItem) -> Result<Item, AllocError>
    ensures { IfOk result (λ i. item_view i ≡ lowered_item item.now) }
{
    let context = Context::outermost(alloc, &[], item.domain.axes())?;
    let mut shared = Vec::new(alloc);
    let fields = shared_fields(alloc, &context, &item.node, &item.booleans, &mut shared)?;
    let binds = demanded_binds(shared, &item.booleans);
    let domain = item.domain.copy(alloc)?;
    Ok(Item {
        domain,
        binds,
        fields,
    })
}

/// The binds, where there is a field that demands them.
fn demanded_binds(binds: Vec<Bind>, booleans: &[bool]) -> Vec<Bind>
    ensures { map bind_view result.items ≡ item_binds booleans.now (map bind_view binds.items) }
{
    match booleans {
        [] => {
            let mut none = binds;
            none.truncate(0);
            none
        }
        [_first, _rest @ ..] => binds,
    }
}

/// The fields of a node, each with whether it is Boolean. The slices that they share go to the end of a list of binds.
fn shared_fields(
    alloc: Global,
    context: &Context,
    node: &Node,
    booleans: &[bool],
    binds: &mut Vec<Bind>,
) -> Result<Vec<Field>, AllocError>
    ensures binds { OnOk result (GainsBinds binds.old binds.new (shared_binds context.now node.now)) }
    ensures fields { IfOk result (λ v. fields_in v ≡ shared_fields context.now node.now booleans.now) }
{
    match node {
        Node::Bracket(e) => shared_fields(alloc, context, e, booleans, binds),
        Node::Slice {
            value,
            axis,
            lo,
            hi,
            position,
        } => {
            let interval = Interval { lo: *lo, hi: *hi };
            let p = lowered_scalar(alloc, context, position, 0)?;
            push_bind(binds, p, interval)?;
            let inner = context.sliced(alloc, *axis, interval)?;
            shared_fields(alloc, &inner, value, booleans, binds)
        }
        _ => each_field(alloc, context, node, booleans),
    }
}

/// The fields of a node one by one.
fn each_field(
    alloc: Global,
    context: &Context,
    node: &Node,
    booleans: &[bool],
) -> Result<Vec<Field>, AllocError>
    ensures { IfOk result (λ v. fields_in v ≡ lowered_fields (setting_of context.now) node.now booleans.now) }
{
    let mut list = Vec::new(alloc);
    for place in 0..booleans.len() {
        let body = lowered(alloc, context, node, place)?;
        list.push(Field {
            boolean: booleans[place],
            body: Box::into_inner(body),
        })?;
    }
    Ok(list)
}
