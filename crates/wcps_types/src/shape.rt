//! What an expression is found to be: a domain, the name and the kind of each field, and the node that gives them.

ghost use Rattle.std.specs.Prelude.{◌≡◌, []};
ghost use Rattle.wcps_types.specs.Typed.{boxed_tree};
ghost use Rattle.wcps_types.specs.Shapes.{Says, shape_view, field_of_view, scalar_of_view, is_scalar, unnamed, only_field, only_scalar};

use crate::extent::Extent;
use crate::labels::{Labels, the_boolean};
use crate::refusal::{CheckError, TypeRefusal};
use crate::typed::Node;
use arr_core::{Axis, Domain};
use std::alloc::Global;

/// The shape of an expression, which is a scalar where the domain has no axis: its fields in order, and the node that
/// gives all of them.
#[derive(Drop)]
pub struct Shape<'a> {
    pub domain: Extent<'a>,
    pub labels: Labels<'a>,
    pub node: Box<Node>,
}

/// A shape with one field, whose name no longer matters.
#[derive(Drop)]
pub struct OneField<'a> {
    pub domain: Extent<'a>,
    pub boolean: bool,
    pub node: Box<Node>,
}

/// A scalar with one field.
#[derive(Drop)]
pub struct OneScalar {
    pub boolean: bool,
    pub node: Box<Node>,
}

/// The domain without axes.
pub fn no_axes(alloc: Global) -> Domain
    ensures { result ≡ [] }
{
    match Domain::new(Vec::new(alloc)) {
        Ok(domain) => domain,
        Err(_) => unreachable!(),
    }
}

/// Whether there is no axis.
pub fn is_scalar(axes: &[Axis]) -> bool
    ensures { result ≡ is_scalar axes.now }
{
    match axes {
        [] => true,
        [_, ..] => false,
    }
}

/// A shape with one unnamed field.
pub fn unnamed<'a>(domain: Extent<'a>, boolean: bool, node: Box<Node>) -> Shape<'a>
    ensures { shape_view result ≡ unnamed domain.entry boolean (boxed_tree node) }
{
    Shape {
        domain,
        labels: Labels::Unnamed(boolean),
        node,
    }
}

/// A scalar with one unnamed field.
pub fn unnamed_scalar<'a>(alloc: Global, boolean: bool, node: Box<Node>) -> Shape<'a>
    ensures { shape_view result ≡ unnamed [] boolean (boxed_tree node) }
{
    unnamed(Extent::own(no_axes(alloc)), boolean, node)
}

/// The only field of a shape.
#[tactic(auto, using(crate::proofs::Fields::one_field))]
pub fn only_field<'a>(shape: Shape<'a>) -> Result<OneField<'a>, CheckError>
    ensures { Says field_of_view result (only_field shape.entry.domain (shape_view shape.entry).fields) }
{
    let Shape {
        domain,
        labels,
        node,
    } = shape;
    match the_boolean(&labels) {
        None => Err(CheckError::Refused(TypeRefusal::NeedsOneField)),
        Some(boolean) => Ok(OneField {
            domain,
            boolean,
            node,
        }),
    }
}

/// The only field of a scalar: first it must be a scalar, then have one field.
pub fn only_scalar(shape: Shape) -> Result<OneScalar, CheckError>
    ensures { Says scalar_of_view result (only_scalar (shape_view shape.entry)) }
{
    if !is_scalar(shape.domain.axes()) {
        return Err(CheckError::Refused(TypeRefusal::NeedsScalar));
    }
    let OneField {
        domain: _,
        boolean,
        node,
    } = only_field(shape)?;
    Ok(OneScalar { boolean, node })
}
