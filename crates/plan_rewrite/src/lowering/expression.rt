//! Lowering of one field of a typed expression to a body.

ghost use Rattle.std.specs.Prelude.{◌≡◌, IfOk};
ghost use Rattle.wcps_types.specs.Typed.{field_tree, only_tree, iterator, cell, unary, binary, array, listed, condense, reduce};
ghost use Rattle.plan_ir.specs.Bodies.{body_view, fold, always};
ghost use Rattle.plan_rewrite.specs.Lowering.{outermost, lowered, field_at, scalar_at, tree_at, slice_at, chosen};
ghost use Rattle.plan_rewrite.specs.Lowered.{IsBodyFor};
ghost use Rattle.plan_rewrite.specs.Views.{tree_in, bind_over};

use crate::lowering::context::Context;
use crate::nodes::{
    bind_body, boxed, conditional_fold, fold_body, op1_body, op2_body, plain_fold, read_at,
    table_at,
};
use crate::variables::{index_at, variable};
use arr_core::{Axis, Domain};
use plan_ir::{Body, Interval};
use std::alloc::{AllocError, Global};
use wcps_text::{Aggregate, BinaryOperator, UnaryOperator};
use wcps_types::Node;

/// The body of one field of an expression, whose variables are its iterators, which go over the axes `iterators`, and
/// behind them the coordinates of its point on the axes `axes`. It gives what the field's tree gives there, its fault
/// too, and reads a cell only where the tree does.
pub fn lower_expression(
    alloc: Global,
    iterators: &[Axis],
    axes: &[Axis],
    e: &Node,
    field: usize,
) -> Result<Body, AllocError>
    ensures { IfOk result (λ b. IsBodyFor iterators.now axes.now (field_tree e.now field) (body_view b)) }
{
    let b = lowered_outermost(alloc, iterators, axes, e, field)?;
    Ok(b)
}

/// The body of one field of a node under variables for its iterators and its point.
fn lowered_outermost(
    alloc: Global,
    iterators: &[Axis],
    axes: &[Axis],
    e: &Node,
    field: usize,
) -> Result<Body, AllocError>
    ensures { IfOk result (λ b. body_view b ≡ lowered (outermost iterators.now axes.now) (field_tree e.now field)) }
{
    let context = Context::outermost(alloc, iterators, axes)?;
    let b = lowered(alloc, &context, e, field)?;
    Ok(Box::into_inner(b))
}

/// The body of one field of a node.
#[cycle(lower)]
pub fn lowered(
    alloc: Global,
    context: &Context,
    e: &Node,
    field: usize,
) -> Result<Box<Body>, AllocError>
    ensures { IfOk result (λ b. tree_in b ≡ field_at context.now e.now field) }
{
    match e {
        Node::Number(z) => boxed(alloc, Body::Lit(*z)),
        Node::Iterator(k) => lowered_iterator(alloc, context, *k),
        Node::Coverage(coverage) => lowered_cell(alloc, context, *coverage, field),
        Node::Unary(op, e) => lowered_unary(alloc, context, *op, e),
        Node::Binary(op, l, r) => lowered_binary(alloc, context, *op, l, r),
        Node::Scalar(e) => lowered_scalar(alloc, context, e, field),
        Node::Record(parts) => match parts.get(field) {
            None => boxed(alloc, Body::Lit(0)),
            Some(part) => lowered(alloc, context, part, 0),
        },
        Node::Select(e, own) => lowered(alloc, context, e, *own),
        Node::Bracket(e) => lowered(alloc, context, e, field),
        Node::Slice {
            value,
            axis,
            lo,
            hi,
            position,
        } => {
            let interval = Interval { lo: *lo, hi: *hi };
            let body = lowered_slice(alloc, context, value, field, *axis, interval)?;
            lowered_bind(alloc, context, position, interval, body)
        }
        Node::Array(e) => lowered_array(alloc, context, e),
        Node::List { domain, items } => lowered_list(alloc, context, domain, items),
        Node::Condense { op, domain, body } => {
            lowered_condense(alloc, context, *op, domain, body)
        }
        Node::CondenseWhere {
            op,
            domain,
            condition,
            body,
        } => lowered_where(alloc, context, *op, domain, condition, body),
        Node::Reduce { op, domain, body } => lowered_reduce(alloc, context, *op, domain, body),
    }
}

/// The body of an iterator: its variable, or its number.
fn lowered_iterator(alloc: Global, context: &Context, k: usize) -> Result<Box<Body>, AllocError>
    ensures { IfOk result (λ b. tree_in b ≡ tree_at context.now (iterator k)) }
{
    boxed(alloc, variable(index_at(&context.iterators, k)))
}

/// The body of a field of a coverage, whose cell is read at the point.
fn lowered_cell(
    alloc: Global,
    context: &Context,
    coverage: usize,
    field: usize,
) -> Result<Box<Body>, AllocError>
    ensures { IfOk result (λ b. tree_in b ≡ tree_at context.now (cell coverage field)) }
{
    read_at(alloc, coverage, field, &context.point)
}

/// The body of a list of values, of which the point chooses one.
fn lowered_list(
    alloc: Global,
    context: &Context,
    domain: &Domain,
    items: &[i64],
) -> Result<Box<Body>, AllocError>
    ensures { IfOk result (λ b. tree_in b ≡ tree_at context.now (listed domain.now items.now)) }
{
    table_at(alloc, domain, items, &context.point)
}

/// The body of an operation on one operand.
#[cycle(lower)]
fn lowered_unary(
    alloc: Global,
    context: &Context,
    op: UnaryOperator,
    e: &Node,
) -> Result<Box<Body>, AllocError>
    ensures { IfOk result (λ b. tree_in b ≡ tree_at context.now (unary op (only_tree e.now))) }
{
    let x = lowered(alloc, context, e, 0)?;
    op1_body(alloc, op, x)
}

/// The body of an operation on two operands.
#[cycle(lower)]
fn lowered_binary(
    alloc: Global,
    context: &Context,
    op: BinaryOperator,
    l: &Node,
    r: &Node,
) -> Result<Box<Body>, AllocError>
    ensures { IfOk result (λ b. tree_in b ≡ tree_at context.now (binary op (only_tree l.now) (only_tree r.now))) }
{
    let x = lowered(alloc, context, l, 0)?;
    let y = lowered(alloc, context, r, 0)?;
    op2_body(alloc, op, x, y)
}

/// The body of one field of a scalar.
#[cycle(lower)]
pub fn lowered_scalar(
    alloc: Global,
    context: &Context,
    e: &Node,
    field: usize,
) -> Result<Box<Body>, AllocError>
    ensures { IfOk result (λ b. tree_in b ≡ scalar_at context.now e.now field) }
{
    let inner = context.scalar(alloc)?;
    lowered(alloc, &inner, e, field)
}

/// The body of one field of a value under a variable for a coordinate of its point.
#[cycle(lower)]
fn lowered_slice(
    alloc: Global,
    context: &Context,
    value: &Node,
    field: usize,
    axis: usize,
    interval: Interval,
) -> Result<Box<Body>, AllocError>
    ensures { IfOk result (λ b. tree_in b ≡ slice_at context.now axis interval value.now field) }
{
    let inner = context.sliced(alloc, axis, interval)?;
    lowered(alloc, &inner, value, field)
}

/// The body of an array's value, whose iterators are the coordinates of the point.
#[cycle(lower)]
fn lowered_array(alloc: Global, context: &Context, e: &Node) -> Result<Box<Body>, AllocError>
    ensures { IfOk result (λ b. tree_in b ≡ tree_at context.now (array (only_tree e.now))) }
{
    let inner = context.inner(alloc)?;
    lowered(alloc, &inner, e, 0)
}

/// The body of a condenser.
#[cycle(lower)]
fn lowered_condense(
    alloc: Global,
    context: &Context,
    op: Aggregate,
    domain: &Domain,
    body: &Node,
) -> Result<Box<Body>, AllocError>
    ensures { IfOk result (λ b. tree_in b ≡ tree_at context.now (condense op domain.now (only_tree body.now))) }
{
    let inner = context.over(alloc, domain.axes())?;
    lowered_fold(alloc, &inner, op, domain, body)
}

/// The body of a condenser with a condition.
#[cycle(lower)]
fn lowered_where(
    alloc: Global,
    context: &Context,
    op: Aggregate,
    domain: &Domain,
    condition: &Node,
    body: &Node,
) -> Result<Box<Body>, AllocError>
    ensures { IfOk result (λ b. tree_in b ≡ tree_at context.now (chosen op domain.now condition.now body.now)) }
{
    let inner = context.over(alloc, domain.axes())?;
    let c = lowered(alloc, &inner, condition, 0)?;
    lowered_choice(alloc, &inner, op, domain, body, c)
}

/// The body of a reduction.
#[cycle(lower)]
fn lowered_reduce(
    alloc: Global,
    context: &Context,
    op: Aggregate,
    domain: &Domain,
    body: &Node,
) -> Result<Box<Body>, AllocError>
    ensures { IfOk result (λ b. tree_in b ≡ tree_at context.now (reduce op domain.now (only_tree body.now))) }
{
    let inner = context.across(alloc, domain.axes())?;
    lowered_fold(alloc, &inner, op, domain, body)
}

/// A body under a variable that has the value of a scalar.
#[cycle(lower)]
fn lowered_bind(
    alloc: Global,
    context: &Context,
    position: &Node,
    interval: Interval,
    body: Box<Body>,
) -> Result<Box<Body>, AllocError>
    ensures { IfOk result (λ b. tree_in b ≡ bind_over (scalar_at context.now position.now 0) interval (tree_in body)) }
{
    let p = lowered_scalar(alloc, context, position, 0)?;
    bind_body(alloc, p, interval, body)
}

/// A fold of a node at all points of a domain, whose variables are the last in scope.
#[cycle(lower)]
fn lowered_fold(
    alloc: Global,
    inner: &Context,
    op: Aggregate,
    domain: &Domain,
    body: &Node,
) -> Result<Box<Body>, AllocError>
    ensures { IfOk result (λ b. tree_in b ≡ fold op domain.now always (field_at inner.now body.now 0)) }
{
    let body = lowered(alloc, inner, body, 0)?;
    let f = plain_fold(alloc, op, domain, body)?;
    fold_body(alloc, f)
}

/// A fold of a node at the points where a condition is true.
#[cycle(lower)]
fn lowered_choice(
    alloc: Global,
    inner: &Context,
    op: Aggregate,
    domain: &Domain,
    body: &Node,
    condition: Box<Body>,
) -> Result<Box<Body>, AllocError>
    ensures { IfOk result (λ b. tree_in b ≡ fold op domain.now (tree_in condition) (field_at inner.now body.now 0)) }
{
    let body = lowered(alloc, inner, body, 0)?;
    let f = conditional_fold(alloc, op, domain, condition, body)?;
    fold_body(alloc, f)
}
