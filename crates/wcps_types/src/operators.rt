//! The checks of operators and reductions on operands whose shapes are known, and what they make of them.

ghost use Rattle.std.specs.Prelude.{◌≡◌, IfOk, Ok, [], map};
ghost use Rattle.wcps_types.specs.Typed.{boxed_tree, reduce};
ghost use Rattle.wcps_types.specs.Labels.{label_of};
ghost use Rattle.wcps_types.specs.Shapes.{Says, shape_view, slot_of, labels_view, field_of_view, unnamed};
ghost use Rattle.wcps_types.specs.Operators.{one_selected, selected, unary, are_same, is_same_axis, operands_view, scalar_first, scalar_last, joined, numeric, logical, binary, reduction};

use crate::extent::Extent;
use crate::labels::{Label, Labels};
use crate::names::{is_name_of, is_same};
use crate::nodes::{boxed, reduce_node};
use crate::refusal::{CheckError, TypeRefusal};
use crate::shape::{OneField, Shape, is_scalar, only_field, unnamed, unnamed_scalar};
use crate::typed::Node;
use arr_core::{Axis, Field};
use std::alloc::{AllocError, Global};
use std::slice;
use wcps_text::{Aggregate, BinaryOperator, QueryName, UnaryOperator};

/// Two operands on one domain.
#[derive(Drop)]
pub struct Operands<'a> {
    pub domain: Extent<'a>,
    pub left: Box<Node>,
    pub right: Box<Node>,
}

/// A shape with the field at one place of a node, selected.
fn one_selected<'a>(
    alloc: Global,
    domain: Extent<'a>,
    node: Box<Node>,
    place: usize,
    label: Label,
) -> Result<Shape<'a>, AllocError>
    ensures { IfOk result (λ s. shape_view s ≡ one_selected domain.entry (slot_of node.value place label)) }
{
    let selected = boxed(alloc, Node::Select(node, place))?;
    let mut labels = Vec::new(alloc);
    labels.push(label)?;
    Ok(Shape {
        domain,
        labels: Labels::Listed(labels),
        node: selected,
    })
}

/// The field of that name among some with labels of their own.
fn label_selected<'a>(
    alloc: Global,
    domain: Extent<'a>,
    node: Box<Node>,
    labels: Vec<Label>,
    name: &QueryName,
) -> Result<Shape<'a>, CheckError>
    ensures { Says shape_view result (selected name.now domain.entry (labels_view node.value 0 labels.items)) }
{
    let mut place = 0;
    for label in labels {
        if is_name_of(&label.name, name) {
            return Ok(one_selected(alloc, domain, node, place, label)?);
        }
        place += 1;
    }
    Err(CheckError::Refused(TypeRefusal::NoSuchField))
}

/// The field of that name among those of a coverage.
fn field_selected<'a>(
    alloc: Global,
    domain: Extent<'a>,
    node: Box<Node>,
    fields: &'a [Field],
    name: &QueryName,
) -> Result<Shape<'a>, CheckError>
    ensures { Says shape_view result (selected name.now domain.entry (labels_view node.value 0 (map label_of fields.now))) }
{
    let mut place = 0;
    for field in fields {
        if is_same(field.name.as_str(), name.as_str()) {
            return Ok(Shape {
                domain,
                labels: Labels::Fields(slice::from_ref(field)),
                node: boxed(alloc, Node::Select(node, place))?,
            });
        }
        place += 1;
    }
    Err(CheckError::Refused(TypeRefusal::NoSuchField))
}

/// The field of that name.
pub fn selected<'a>(
    alloc: Global,
    shape: Shape<'a>,
    name: &QueryName,
) -> Result<Shape<'a>, CheckError>
    ensures { Says shape_view result (selected name.now shape.entry.domain (shape_view shape.entry).fields) }
{
    let Shape {
        domain,
        labels,
        node,
    } = shape;
    match labels {
        Labels::Unnamed(_) => Err(CheckError::Refused(TypeRefusal::NoSuchField)),
        Labels::Fields(fields) => field_selected(alloc, domain, node, fields, name),
        Labels::Listed(list) => label_selected(alloc, domain, node, list, name),
    }
}

/// An operator on one operand: the operation, and whether it gives a Boolean.
pub fn unary<'a>(
    alloc: Global,
    op: UnaryOperator,
    operand: Shape<'a>,
) -> Result<Shape<'a>, CheckError>
    ensures { Says shape_view result (unary op (shape_view operand.entry)) }
{
    let OneField {
        domain,
        boolean,
        node,
    } = only_field(operand)?;
    match op {
        UnaryOperator::Negate | UnaryOperator::Plus | UnaryOperator::Absolute => {
            let node = boxed(alloc, Node::Unary(op, node))?;
            Ok(unnamed(domain, false, node))
        }
        UnaryOperator::Not => {
            if !boolean {
                return Err(CheckError::Refused(TypeRefusal::NeedsBoolean));
            }
            let node = boxed(alloc, Node::Unary(op, node))?;
            Ok(unnamed(domain, true, node))
        }
    }
}

/// Whether two axes have the same name and bounds.
fn is_same_axis(a: &Axis, b: &Axis) -> bool
    ensures { result ≡ is_same_axis a.now b.now }
{
    a.name == b.name && a.lo == b.lo && a.hi == b.hi
}

/// Whether two domains have the same axes in the same order.
pub fn are_same(a: &[Axis], b: &[Axis]) -> bool
    ensures { result ≡ are_same a.now b.now }
{
    match a {
        [] => is_scalar(b),
        [x, xs @ ..] => match b {
            [] => false,
            [y, ys @ ..] => is_same_axis(x, y) && are_same(xs, ys),
        },
    }
}

/// A scalar on the left of an operand with axes: it is taken at each point.
fn scalar_first<'a>(
    alloc: Global,
    scalar: Box<Node>,
    other: OneField<'a>,
) -> Result<Operands<'a>, CheckError>
    ensures { Says operands_view result (Ok (scalar_first (boxed_tree scalar) (field_of_view other.entry))) }
{
    let OneField {
        domain,
        boolean: _,
        node: right,
    } = other;
    let left = boxed(alloc, Node::Scalar(scalar))?;
    Ok(Operands {
        domain,
        left,
        right,
    })
}

/// A scalar on the right of an operand with axes: it is taken at each point.
fn scalar_last<'a>(
    alloc: Global,
    other: OneField<'a>,
    scalar: Box<Node>,
) -> Result<Operands<'a>, CheckError>
    ensures { Says operands_view result (Ok (scalar_last (field_of_view other.entry) (boxed_tree scalar))) }
{
    let OneField {
        domain,
        boolean: _,
        node: left,
    } = other;
    let right = boxed(alloc, Node::Scalar(scalar))?;
    Ok(Operands {
        domain,
        left,
        right,
    })
}

/// Two operands with the same domain, or of which one is a scalar.
fn joined<'a>(alloc: Global, l: OneField<'a>, r: OneField<'a>) -> Result<Operands<'a>, CheckError>
    ensures { Says operands_view result (joined (field_of_view l.entry) (field_of_view r.entry)) }
{
    let left_is_scalar = is_scalar(l.domain.axes());
    let right_is_scalar = is_scalar(r.domain.axes());
    if left_is_scalar && !right_is_scalar {
        return scalar_first(alloc, l.node, r);
    }
    if right_is_scalar && !left_is_scalar {
        return scalar_last(alloc, l, r.node);
    }
    if !are_same(l.domain.axes(), r.domain.axes()) {
        return Err(CheckError::Refused(TypeRefusal::DomainMismatch));
    }
    Ok(Operands {
        domain: l.domain,
        left: l.node,
        right: r.node,
    })
}

/// An operation on two numbers, where a Boolean counts as 0 or 1.
#[inline(never)]
fn numeric<'a>(
    alloc: Global,
    op: BinaryOperator,
    gives_boolean: bool,
    l: Shape<'a>,
    r: Shape<'a>,
) -> Result<Shape<'a>, CheckError>
    ensures { Says shape_view result (numeric op gives_boolean (shape_view l.entry) (shape_view r.entry)) }
{
    let l = only_field(l)?;
    let r = only_field(r)?;
    let Operands {
        domain,
        left,
        right,
    } = joined(alloc, l, r)?;
    let node = boxed(alloc, Node::Binary(op, left, right))?;
    Ok(unnamed(domain, gives_boolean, node))
}

/// `and`, `or`, `xor`.
#[inline(never)]
fn logical<'a>(
    alloc: Global,
    op: BinaryOperator,
    l: Shape<'a>,
    r: Shape<'a>,
) -> Result<Shape<'a>, CheckError>
    ensures { Says shape_view result (logical op (shape_view l.entry) (shape_view r.entry)) }
{
    let l = only_field(l)?;
    let r = only_field(r)?;
    if !l.boolean || !r.boolean {
        return Err(CheckError::Refused(TypeRefusal::NeedsBoolean));
    }
    let Operands {
        domain,
        left,
        right,
    } = joined(alloc, l, r)?;
    let node = boxed(alloc, Node::Binary(op, left, right))?;
    Ok(unnamed(domain, true, node))
}

/// An operator on two operands.
pub fn binary<'a>(
    alloc: Global,
    op: BinaryOperator,
    l: Shape<'a>,
    r: Shape<'a>,
) -> Result<Shape<'a>, CheckError>
    ensures { Says shape_view result (binary op (shape_view l.entry) (shape_view r.entry)) }
{
    match op {
        BinaryOperator::Multiply
        | BinaryOperator::Divide
        | BinaryOperator::Add
        | BinaryOperator::Subtract => numeric(alloc, op, false, l, r),
        BinaryOperator::Less
        | BinaryOperator::LessEqual
        | BinaryOperator::Greater
        | BinaryOperator::GreaterEqual
        | BinaryOperator::Equal
        | BinaryOperator::NotEqual
        | BinaryOperator::Bit => numeric(alloc, op, true, l, r),
        BinaryOperator::And | BinaryOperator::Or | BinaryOperator::Xor => logical(alloc, op, l, r),
    }
}

/// The scalar that a reduction of a field gives.
fn reduced<'a>(
    alloc: Global,
    op: Aggregate,
    gives_boolean: bool,
    domain: Extent<'a>,
    node: Box<Node>,
) -> Result<Shape<'a>, CheckError>
    ensures { Says shape_view result (Ok (unnamed [] gives_boolean (reduce op domain.entry (boxed_tree node)))) }
{
    let node = reduce_node(alloc, op, domain.into_domain(alloc)?, node)?;
    Ok(unnamed_scalar(alloc, gives_boolean, node))
}

/// A reduction.
pub fn reduction<'a>(
    alloc: Global,
    op: Aggregate,
    operand: Shape<'a>,
) -> Result<Shape<'a>, CheckError>
    ensures { Says shape_view result (reduction op (shape_view operand.entry)) }
{
    let OneField {
        domain,
        boolean,
        node,
    } = only_field(operand)?;
    match op {
        Aggregate::Sum
        | Aggregate::Product
        | Aggregate::Greatest
        | Aggregate::Least
        | Aggregate::Average => {
            if boolean {
                return Err(CheckError::Refused(TypeRefusal::NeedsInteger));
            }
            reduced(alloc, op, false, domain, node)
        }
        Aggregate::Every | Aggregate::Any => {
            if !boolean {
                return Err(CheckError::Refused(TypeRefusal::NeedsBoolean));
            }
            reduced(alloc, op, true, domain, node)
        }
        Aggregate::Count => {
            if !boolean {
                return Err(CheckError::Refused(TypeRefusal::NeedsBoolean));
            }
            reduced(alloc, op, false, domain, node)
        }
    }
}
