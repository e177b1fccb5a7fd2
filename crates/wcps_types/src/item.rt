//! What a query returns.

ghost use Rattle.std.specs.Prelude.{◌≡◌, IfOk, map};
ghost use Rattle.wcps_text.specs.Tree.{item_view as tree_item_view};
ghost use Rattle.wcps_types.specs.Typed.{item_view};
ghost use Rattle.wcps_types.specs.Labels.{label_of, labels_in};
ghost use Rattle.wcps_types.specs.Shapes.{Says, shape_view};
ghost use Rattle.wcps_types.specs.Queries.{label_boolean, item_of, plain_item, typ_item};
ghost use Rattle.wcps_types.specs.Contexts.{under};

use crate::context::Context;
use crate::expression::expression;
use crate::labels::{Label, Labels};
use crate::refusal::{CheckError, TypeRefusal};
use crate::shape::{Shape, is_scalar};
use crate::typed::TypedItem;
use arr_core::Field;
use std::alloc::{AllocError, Global};
use wcps_text::Item;

/// Which fields of a coverage are Boolean.
fn field_booleans(alloc: Global, fields: &[Field]) -> Result<Vec<bool>, AllocError>
    ensures { IfOk result (λ v. v.items ≡ map label_boolean (map label_of fields.now)) }
{
    let mut booleans = Vec::new(alloc);
    for field in fields {
        booleans.push(field.kind.is_bool())?;
    }
    Ok(booleans)
}

/// Which of the labels are of Boolean fields.
fn listed_booleans(alloc: Global, labels: &[Label]) -> Result<Vec<bool>, AllocError>
    ensures { IfOk result (λ v. v.items ≡ map label_boolean labels.now) }
{
    let mut booleans = Vec::new(alloc);
    for label in labels {
        booleans.push(label.boolean)?;
    }
    Ok(booleans)
}

/// Which fields of an item are Boolean.
fn item_booleans(alloc: Global, labels: &Labels) -> Result<Vec<bool>, AllocError>
    ensures { IfOk result (λ v. v.items ≡ map label_boolean (labels_in labels.now)) }
{
    match labels {
        Labels::Unnamed(boolean) => {
            let mut booleans = Vec::new(alloc);
            booleans.push(*boolean)?;
            Ok(booleans)
        }
        Labels::Fields(fields) => field_booleans(alloc, fields),
        Labels::Listed(list) => listed_booleans(alloc, list),
    }
}

/// What is returned by a shape.
#[tactic(auto, using(crate::proofs::Fields::item_fields))]
fn item_of(alloc: Global, shape: Shape) -> Result<TypedItem, CheckError>
    ensures { Says item_view result (item_of (shape_view shape.entry)) }
{
    let Shape {
        domain,
        labels,
        node,
    } = shape;
    let booleans = item_booleans(alloc, &labels)?;
    let domain = domain.into_domain(alloc)?;
    Ok(TypedItem {
        domain,
        booleans,
        node,
    })
}

/// What is returned by a shape without `encode`: a scalar.
fn plain_item(alloc: Global, shape: Shape) -> Result<TypedItem, CheckError>
    ensures { Says item_view result (plain_item (shape_view shape.entry)) }
{
    if is_scalar(shape.domain.axes()) {
        item_of(alloc, shape)
    } else {
        Err(CheckError::Refused(TypeRefusal::MustEncode))
    }
}

/// What a query returns.
pub fn typed_item(context: &Context, item: &Item) -> Result<TypedItem, CheckError>
    ensures { Says item_view result (under typ_item context.now (tree_item_view item.now)) }
{
    match item {
        Item::Encode(e) => {
            let shape = expression(context, e)?;
            item_of(context.alloc, shape)
        }
        Item::Plain(e) => {
            let shape = expression(context, e)?;
            plain_item(context.alloc, shape)
        }
    }
}
