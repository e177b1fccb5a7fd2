//! Iterator lists, and the forms over a box.

ghost use Rattle.std.specs.Prelude.{◌≡◌, IfOk, Some, map};
ghost use Rattle.std.specs.Option.{option_map};
ghost use Rattle.std.specs.List.{list_all};
ghost use Rattle.wcps_types.specs.Typed.{boxed_tree};
ghost use Rattle.wcps_types.specs.Shapes.{Says, shape_view, scalar_of_view};
ghost use Rattle.wcps_types.specs.Brackets.{bounds_view};
ghost use Rattle.wcps_types.specs.Contexts.{under};
ghost use Rattle.wcps_types.specs.Typing.{array_of, condition_tree};
ghost use Rattle.wcps_types.specs.Boxes.{iterators_view, no_iterators, is_taken, axis_of, with_iterator, box_of, condensed, is_truth, item_number, first_is_truth, has_kind, value_list};

use crate::bounds::Bounds;
use crate::context::Context;
use crate::extent::Extent;
use crate::names::name_place;
use crate::nodes::{boxed, condense_node};
use crate::refusal::{CheckError, TypeRefusal};
use crate::shape::{OneScalar, Shape, only_scalar, unnamed, unnamed_scalar};
use crate::typed::Node;
use arr_core::{Axis, Domain, Name, NameError};
use std::alloc::{AllocError, Global};
use wcps_text::{Aggregate, ListItem, QueryName};

/// Iterators so far: their variables, and the axes that they go over.
#[derive(Drop)]
pub struct Iterators {
    pub variables: Vec<QueryName>,
    pub axes: Vec<Axis>,
}

impl Iterators {
    /// None yet.
    pub fn new(alloc: Global) -> Iterators
        ensures { iterators_view result ≡ no_iterators }
    {
        Iterators {
            variables: Vec::new(alloc),
            axes: Vec::new(alloc),
        }
    }
}

/// Whether a variable is bound by `for`, by an iterator in scope, or by one before it in its list.
pub fn is_taken(context: &Context, before: &[QueryName], name: &QueryName) -> bool
    ensures { result ≡ under (λ cs. is_taken) context.now before.now name.now }
{
    context.bound.place(name).is_some()
        || context.scope.place(name).is_some()
        || name_place(before, name).is_some()
}

/// An axis with those bounds. The grammar spells names alone.
fn axis_of(alloc: Global, name: &QueryName, bounds: Bounds) -> Result<Axis, CheckError>
    ensures { Says (λ a. a) result (axis_of name.now (bounds_view bounds)) }
{
    match Name::new(alloc, name.as_str()) {
        Ok(name) => Ok(Axis {
            name,
            lo: bounds.lo,
            hi: bounds.hi,
        }),
        Err(NameError::BadName) => Err(CheckError::Refused(TypeRefusal::NoSuchAxis)),
        Err(NameError::NoMemory) => Err(CheckError::NoMemory),
    }
}

/// The iterators with one more.
pub fn with_iterator(
    alloc: Global,
    list: Iterators,
    variable: &QueryName,
    axis: &QueryName,
    bounds: Bounds,
) -> Result<Iterators, CheckError>
    ensures { Says iterators_view result (with_iterator variable.now axis.now (bounds_view bounds) (iterators_view list)) }
{
    let Iterators {
        mut variables,
        mut axes,
    } = list;
    let axis = axis_of(alloc, axis, bounds)?;
    let variable = QueryName::new(alloc, variable.as_str())?;
    variables.push(variable)?;
    axes.push(axis)?;
    Ok(Iterators { variables, axes })
}

/// The box of the axes.
pub fn box_of(axes: Vec<Axis>) -> Result<Domain, CheckError>
    ensures { Says (λ d. d) result (box_of axes.items) }
{
    match Domain::new(axes) {
        Ok(domain) => Ok(domain),
        Err(_) => Err(CheckError::Refused(TypeRefusal::BadInterval)),
    }
}

/// A box, and the variables of its iterators.
#[derive(Drop)]
pub struct Opened {
    pub domain: Domain,
    pub variables: Vec<QueryName>,
}

/// The box of iterators.
#[inline(never)]
pub fn opened_box(over: Iterators) -> Result<Opened, CheckError>
    ensures said { Says (λ o. o.domain) result (box_of over.axes.items) }
    ensures variables { IfOk result (λ o. o.variables ≡ over.variables) }
{
    let Iterators { variables, axes } = over;
    let domain = box_of(axes)?;
    Ok(Opened { domain, variables })
}

/// `coverage .. values` of a body, which is a scalar.
pub fn array<'a>(alloc: Global, domain: Domain, body: Shape<'a>) -> Result<Shape<'a>, CheckError>
    ensures { Says shape_view result (array_of domain (shape_view body.entry)) }
{
    let OneScalar { boolean, node } = only_scalar(body)?;
    let node = boxed(alloc, Node::Array(node))?;
    Ok(unnamed(Extent::own(domain), boolean, node))
}

/// A condition: a Boolean scalar.
pub fn condition_of(condition: Shape) -> Result<Box<Node>, CheckError>
    ensures { Says (λ b. Some (boxed_tree b)) result (condition_tree (shape_view condition.entry)) }
{
    let OneScalar { boolean, node } = only_scalar(condition)?;
    if !boolean {
        return Err(CheckError::Refused(TypeRefusal::NeedsBoolean));
    }
    Ok(node)
}

/// `condense` of a body, which is a scalar.
pub fn condensed<'a>(
    alloc: Global,
    op: Aggregate,
    domain: Domain,
    condition: Option<Box<Node>>,
    body: OneScalar,
) -> Result<Shape<'a>, CheckError>
    ensures { Says shape_view result (condensed op domain (option_map boxed_tree condition) (scalar_of_view body)) }
{
    let OneScalar { boolean, node } = body;
    match op {
        Aggregate::Sum
        | Aggregate::Product
        | Aggregate::Greatest
        | Aggregate::Least
        | Aggregate::Average => {
            if boolean {
                return Err(CheckError::Refused(TypeRefusal::NeedsInteger));
            }
            let node = condense_node(alloc, op, domain, condition, node)?;
            Ok(unnamed_scalar(alloc, false, node))
        }
        Aggregate::Every | Aggregate::Any => {
            if !boolean {
                return Err(CheckError::Refused(TypeRefusal::NeedsBoolean));
            }
            let node = condense_node(alloc, op, domain, condition, node)?;
            Ok(unnamed_scalar(alloc, true, node))
        }
        Aggregate::Count => {
            if !boolean {
                return Err(CheckError::Refused(TypeRefusal::NeedsBoolean));
            }
            let node = condense_node(alloc, op, domain, condition, node)?;
            Ok(unnamed_scalar(alloc, false, node))
        }
    }
}

/// Whether an item is a Boolean.
fn is_truth(item: ListItem) -> bool
    ensures { result ≡ is_truth item }
{
    match item {
        ListItem::Int(_) => false,
        ListItem::Truth(_) => true,
    }
}

/// An item as a number: 1 for true, 0 for false.
fn item_number(item: ListItem) -> i64
    ensures { result ≡ item_number item }
{
    match item {
        ListItem::Int(z) => z,
        ListItem::Truth(b) => i64::from(b),
    }
}

/// Whether an item is a Boolean, or whether it is none.
fn has_kind(boolean: bool, item: ListItem) -> bool
    ensures { result ≡ has_kind boolean item }
{
    if boolean {
        is_truth(item)
    } else {
        !is_truth(item)
    }
}

/// Whether the first item is a Boolean.
fn first_is_truth(items: &[ListItem]) -> bool
    ensures { result ≡ first_is_truth items.now }
{
    match items {
        [] => false,
        [first, ..] => is_truth(*first),
    }
}

/// The numbers of the items.
fn item_numbers(alloc: Global, items: &[ListItem]) -> Result<Vec<i64>, AllocError>
    ensures { IfOk result (λ v. v.items ≡ map item_number items.now) }
{
    let mut numbers = Vec::new(alloc);
    for item in items {
        numbers.push(item_number(*item))?;
    }
    Ok(numbers)
}

/// Whether all items are Booleans, or none is.
fn are_of_kind(boolean: bool, items: &[ListItem]) -> bool
    ensures { result ≡ list_all (has_kind boolean) items.now }
{
    items.iter().all(|item| has_kind(boolean, *item))
}

/// `coverage .. value list`.
pub fn value_list<'a>(
    alloc: Global,
    domain: Domain,
    items: &[ListItem],
) -> Result<Shape<'a>, CheckError>
    ensures { Says shape_view result (value_list domain items.now) }
{
    if items.len() as u64 != domain.points() {
        return Err(CheckError::Refused(TypeRefusal::ListLength));
    }
    let boolean = first_is_truth(items);
    if !are_of_kind(boolean, items) {
        if boolean {
            return Err(CheckError::Refused(TypeRefusal::NeedsBoolean));
        }
        return Err(CheckError::Refused(TypeRefusal::NeedsInteger));
    }
    let items = item_numbers(alloc, items)?;
    let own = Box::new(alloc, domain.copy(alloc)?)?;
    let node = boxed(alloc, Node::List { domain: own, items })?;
    Ok(unnamed(Extent::own(domain), boolean, node))
}
