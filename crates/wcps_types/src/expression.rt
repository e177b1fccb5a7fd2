//! Expressions in a context: parts from left to right, then the form's own checks.

ghost use Rattle.std.specs.Prelude.{[], Ok};
ghost use Rattle.std.specs.Option.{option_map};
ghost use Rattle.wcps_text.specs.Tree as tree;
ghost use Rattle.wcps_text.specs.Tree.{condense, view, view_place, view_interval, parts_of, subs_of, iters_of, condition_of};
ghost use Rattle.wcps_types.specs.Typed.{boxed_tree, number};
ghost use Rattle.wcps_types.specs.Shapes.{Says, then_of, shape_view, unnamed};
ghost use Rattle.wcps_types.specs.Brackets.{bounds_view, bracket_view, opened};
ghost use Rattle.wcps_types.specs.Operators.{binary};
ghost use Rattle.wcps_types.specs.Boxes.{iterators_view, no_iterators};
ghost use Rattle.wcps_types.specs.Typing.{typ, typ_bracket, typ_subs, typ_interval, typ_iters, typ_condition};
ghost use Rattle.wcps_types.specs.Contexts.{TypesTo, under, inside, cut_in};

use crate::bounds::Bounds;
use crate::boxes::{
    Iterators, Opened, array, box_of, condensed, condition_of, is_taken, opened_box, value_list,
    with_iterator,
};
use crate::brackets::{
    Bracket, bounds_of_axis, closed_bracket, place_to_cut, position_of, with_position, with_trim,
    written_bounds,
};
use crate::context::Context;
use crate::extent::Extent;
use crate::names::axis_place;
use crate::nodes::boxed;
use crate::operators::{binary, reduction, selected, unary};
use crate::pieces::Pieces;
use crate::records::{finished, with_name, with_part};
use crate::refusal::{CheckError, TypeRefusal};
use crate::scope::Scope;
use crate::shape::{Shape, only_field, only_scalar, unnamed_scalar};
use crate::typed::Node;
use crate::variables::variable;
use std::alloc::Global;
use wcps_text::{
    Aggregate, BinaryOperator, Expr, Interval, Iter, ListItem, Part, Place, QueryName, Sub,
    UnaryOperator,
};

/// The shape of an expression, or its first refusal. What a form does stands in a function of its own, so that a number
/// in a chain takes no room for the locals of all forms.
#[cycle(expression)]
pub fn expression<'a>(context: &Context<'_, 'a>, e: &Expr) -> Result<Shape<'a>, CheckError>
    ensures { TypesTo context.now (view e.now) result }
{
    match e {
        Expr::Number(n) => constant(context.alloc, false, n.value as i64),
        Expr::Truth(b) => constant(context.alloc, true, i64::from(*b)),
        Expr::Variable(name) => variable(context, name),
        Expr::Unary(op, a) => operation(context, *op, a),
        Expr::Binary(op, l, r) => {
            let l = expression(context, l)?;
            operation_on_two(context, *op, l, r)
        }
        Expr::Reduce(op, a) => reduced(context, *op, a),
        Expr::Record(parts) => record(context, parts),
        Expr::ValueList { iterators, items } => { listed(context, iterators, items) }
        Expr::Field(a, name) => field_of(context, a, name),
        Expr::Brackets(a, subs) => {
            let a = expression(context, a)?;
            bracketed(context, a, subs)
        }
        Expr::Coverage { iterators, body } => array_over(context, iterators, body),
        Expr::Condense {
            op,
            iterators,
            condition,
            body,
        } => condensed_over(context, *op, iterators, condition, body),
    }
}

/// A constant.
#[inline(never)]
fn constant<'a>(alloc: Global, boolean: bool, value: i64) -> Result<Shape<'a>, CheckError>
    ensures { Says shape_view result (Ok (unnamed [] boolean (number value))) }
{
    let node = boxed(alloc, Node::Number(value))?;
    Ok(unnamed_scalar(alloc, boolean, node))
}

/// An operator on one operand.
#[cycle(expression)]
#[inline(never)]
fn operation<'a>(
    context: &Context<'_, 'a>,
    op: UnaryOperator,
    a: &Expr,
) -> Result<Shape<'a>, CheckError>
    ensures { TypesTo context.now (tree.unary op (view a.now)) result }
{
    let a = expression(context, a)?;
    unary(context.alloc, op, a)
}

/// An operator on two operands, of which the left one is typed.
#[cycle(expression)]
#[inline(never)]
fn operation_on_two<'a>(
    context: &Context<'_, 'a>,
    op: BinaryOperator,
    l: Shape<'a>,
    r: &Expr,
) -> Result<Shape<'a>, CheckError>
    ensures { Says shape_view result (then_of (under typ context.now (view r.now)) (binary op (shape_view l.entry))) }
{
    let r = expression(context, r)?;
    binary(context.alloc, op, l, r)
}

/// A reduction.
#[cycle(expression)]
#[inline(never)]
fn reduced<'a>(context: &Context<'_, 'a>, op: Aggregate, a: &Expr) -> Result<Shape<'a>, CheckError>
    ensures { TypesTo context.now (tree.reduce op (view a.now)) result }
{
    let a = expression(context, a)?;
    reduction(context.alloc, op, a)
}

/// One field of a value.
#[cycle(expression)]
#[inline(never)]
fn field_of<'a>(
    context: &Context<'_, 'a>,
    a: &Expr,
    name: &QueryName,
) -> Result<Shape<'a>, CheckError>
    ensures { TypesTo context.now (tree.field (view a.now) name.now) result }
{
    let a = expression(context, a)?;
    selected(context.alloc, a, name)
}

/// A list of values on a box.
#[cycle(expression)]
#[inline(never)]
fn listed<'a>(
    context: &Context<'_, 'a>,
    iterators: &[Iter],
    items: &[ListItem],
) -> Result<Shape<'a>, CheckError>
    ensures { TypesTo context.now (tree.value_list (iters_of iterators.now) items.now) result }
{
    let over = iterator_list(context, iterators)?;
    let domain = box_of(over.axes)?;
    value_list(context.alloc, domain, items)
}

/// A value with a bracket behind it.
#[cycle(expression)]
#[inline(never)]
fn bracketed<'a>(
    context: &Context<'_, 'a>,
    value: Shape<'a>,
    subs: &[Sub],
) -> Result<Shape<'a>, CheckError>
    ensures { Says shape_view result (under typ_bracket context.now (shape_view value.entry) (subs_of subs.now)) }
{
    let Shape {
        domain,
        labels,
        node,
    } = value;
    let bracket = subscripts(context, domain, subs)?;
    let Bracket {
        domain,
        named: _,
        cuts,
    } = bracket;
    let shape = Shape {
        domain,
        labels,
        node,
    };
    Ok(closed_bracket(context.alloc, shape, cuts)?)
}

/// The values of a body over a box.
#[cycle(expression)]
#[inline(never)]
fn array_over<'a>(
    context: &Context<'_, 'a>,
    list: &[Iter],
    body: &Expr,
) -> Result<Shape<'a>, CheckError>
    ensures { TypesTo context.now (tree.coverage (iters_of list.now) (view body.now)) result }
{
    let over = iterator_list(context, list)?;
    let over = opened_box(over)?;
    let body = body_over(context, &over, body)?;
    array(context.alloc, over.domain, body)
}

/// A condenser of a body over a box.
#[cycle(expression)]
#[inline(never)]
fn condensed_over<'a>(
    context: &Context<'_, 'a>,
    op: Aggregate,
    list: &[Iter],
    condition: &Option<Box<Expr>>,
    body: &Expr,
) -> Result<Shape<'a>, CheckError>
    ensures { TypesTo context.now (condense op (iters_of list.now) (condition_of condition.now) (view body.now)) result }
{
    let over = iterator_list(context, list)?;
    let over = opened_box(over)?;
    let condition = condition_over(context, &over, condition)?;
    let body = body_over(context, &over, body)?;
    condensed(
        context.alloc,
        op,
        over.domain,
        condition,
        only_scalar(body)?,
    )
}

/// A body in the scope of further iterators.
#[cycle(expression)]
#[inline(never)]
fn body_over<'a>(
    context: &Context<'_, 'a>,
    over: &Opened,
    body: &Expr,
) -> Result<Shape<'a>, CheckError>
    ensures { Says shape_view result (inside typ context.now over.now (view body.now)) }
{
    let scope = Scope::within(context.scope, &over.variables)?;
    let inner = Context {
        scope: &scope,
        ..*context
    };
    expression(&inner, body)
}

/// The tree of the condition of a condenser over a box, if there is one.
#[cycle(expression)]
#[inline(never)]
fn condition_over(
    context: &Context,
    over: &Opened,
    condition: &Option<Box<Expr>>,
) -> Result<Option<Box<Node>>, CheckError>
    ensures { Says (option_map boxed_tree) result (inside typ_condition context.now over.now (condition_of condition.now)) }
{
    let scope = Scope::within(context.scope, &over.variables)?;
    let inner = Context {
        scope: &scope,
        ..*context
    };
    condition_node(&inner, condition)
}

/// The tree of a condition, if there is one.
#[cycle(expression)]
pub fn condition_node(
    context: &Context,
    condition: &Option<Box<Expr>>,
) -> Result<Option<Box<Node>>, CheckError>
    ensures { Says (option_map boxed_tree) result (under typ_condition context.now (condition_of condition.now)) }
{
    match condition {
        None => Ok(None),
        Some(c) => {
            let shape = expression(context, c)?;
            Ok(Some(condition_of(shape)?))
        }
    }
}

/// The parts of a record.
#[cycle(expression)]
fn record<'a>(context: &Context<'_, 'a>, parts: &[Part]) -> Result<Shape<'a>, CheckError>
    ensures { TypesTo context.now (tree.parts (parts_of parts.now)) result }
{
    let mut pieces = Pieces::new(context.alloc);
    for part in parts {
        let Some(next) = with_name(context.alloc, pieces, &part.name)? else {
            return Err(CheckError::Refused(TypeRefusal::NameTaken));
        };
        let value = expression(context, &part.value)?;
        pieces = with_part(context.alloc, next, only_field(value)?)?;
    }
    Ok(finished(context.alloc, pieces)?)
}

/// The axes of a bracket on a domain.
#[cycle(expression)]
fn subscripts<'a>(
    context: &Context<'_, 'a>,
    domain: Extent<'a>,
    subs: &[Sub],
) -> Result<Bracket<'a>, CheckError>
    ensures { Says bracket_view result (under typ_subs context.now (opened domain.entry) (subs_of subs.now)) }
{
    let mut bracket = Bracket::new(context.alloc, domain);
    for sub in subs {
        bracket = subscript(context, bracket, &sub.axis, &sub.place)?;
    }
    Ok(bracket)
}

/// A bracket with one axis more: first whether it is there and was not named before.
#[cycle(expression)]
fn subscript<'a>(
    context: &Context<'_, 'a>,
    bracket: Bracket<'a>,
    axis: &QueryName,
    place: &Place,
) -> Result<Bracket<'a>, CheckError>
    ensures { Says bracket_view result (cut_in context.now axis.now (bracket_view bracket.entry) (view_place place.now)) }
{
    let number = place_to_cut(&bracket, axis)?;
    match place {
        Place::Trim(interval) => {
            let bounds = interval_bounds(context, interval)?;
            with_trim(context.alloc, bracket, number, axis, bounds)
        }
        Place::At(position) => {
            let position = position_of(expression(context, position)?)?;
            Ok(with_position(context.alloc, bracket, axis, position)?)
        }
    }
}

/// The bounds of an interval.
#[cycle(expression)]
fn interval_bounds(context: &Context, interval: &Interval) -> Result<Bounds, CheckError>
    ensures { Says bounds_view result (under typ_interval context.now (view_interval interval.now)) }
{
    match interval {
        Interval::Bounds(lo, hi) => written_bounds(*lo, *hi),
        Interval::Domain(e, axis) => {
            let shape = expression(context, e)?;
            bounds_of_axis(shape.domain.domain(), axis)
        }
    }
}

/// The iterators of a list.
#[cycle(expression)]
fn iterator_list(context: &Context, list: &[Iter]) -> Result<Iterators, CheckError>
    ensures { Says iterators_view result (under typ_iters context.now no_iterators (iters_of list.now)) }
{
    let mut iterators = Iterators::new(context.alloc);
    for iter in list {
        if is_taken(context, &iterators.variables, &iter.variable) {
            return Err(CheckError::Refused(TypeRefusal::NameTaken));
        }
        if axis_place(&iterators.axes, &iter.axis).is_some() {
            return Err(CheckError::Refused(TypeRefusal::AxisTwice));
        }
        let bounds = interval_bounds(context, &iter.interval)?;
        iterators = with_iterator(context.alloc, iterators, &iter.variable, &iter.axis, bounds)?;
    }
    Ok(iterators)
}
