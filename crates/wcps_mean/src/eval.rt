//! Evaluation at a point.

ghost use Rattle.std.specs.Prelude.{◌≡◌, ◌+◌, ◌<◌, ◌≤◌, List, OnOk, insert, vec_len};
ghost use Rattle.wcps_mean.specs.declared.cell.Outcome.{Outcome};
ghost use Rattle.wcps_mean.specs.Reading.{Leaves, Returns};
ghost use Rattle.wcps_mean.specs.Reports.{Reports};
ghost use Rattle.wcps_mean.specs.Scopes.{IsSame, outcome_in, outcome_with};
ghost use Rattle.wcps_types.specs.Typed.{field_tree, only_tree, scalar, array, condense, reduce};

use crate::cell::{Outcome, coordinate_in, operate, operate_both};
use crate::cells::{CellError, Cells};
use crate::lookup::{coordinate_at, item_at, place_at};
use crate::running::Running;
use crate::scope::Scope;
use arr_core::{Domain, rank_of};
use std::alloc::AllocError;
use wcps_text::Aggregate;
use wcps_types::Node;

/// The outcome of one field of a node in scope.
#[cycle(eval)]
pub(crate) fn eval<C: Cells>(
    cells: &mut C,
    scope: &mut Scope<'_>,
    e: &Node,
    field: usize,
) -> Result<Outcome, CellError>
    requires { scope.old.base ≤ vec_len scope.old.points }
    ensures value { Returns C.Cells cells.old result (outcome_in scope.old (field_tree e.now field)) }
    ensures scope { OnOk result (IsSame scope.old scope.new) }
    ensures leaves { Leaves C.Cells cells.old cells.new }
    ensures reports { Reports result (C.intact cells.old) (C.failures cells.old) (C.failures cells.new) }
{
    match e {
        Node::Number(z) => Ok(Outcome::Value(*z)),
        Node::Iterator(k) => Ok(Outcome::Value(coordinate_at(&scope.iterators, *k))),
        Node::Coverage(variable) => {
            let place = place_at(scope.coverages, *variable);
            let z = cells.cell(place, field, &scope.points[scope.base..])?;
            Ok(Outcome::Value(z))
        }
        Node::Unary(op, e) => {
            let x = eval(cells, scope, e, 0)?;
            Ok(operate(*op, x))
        }
        Node::Binary(op, l, r) => {
            let x = eval(cells, scope, l, 0)?;
            let y = eval(cells, scope, r, 0)?;
            Ok(operate_both(*op, x, y))
        }
        Node::Scalar(e) => at_empty_point(cells, scope, e, field),
        Node::Record(parts) => match parts.get(field) {
            None => Ok(Outcome::Value(0)),
            Some(part) => eval(cells, scope, part, 0),
        },
        Node::Select(e, own) => eval(cells, scope, e, *own),
        Node::Bracket(e) => eval(cells, scope, e, field),
        Node::Slice {
            value,
            axis,
            lo,
            hi,
            position,
        } => {
            let x = at_empty_point(cells, scope, position, 0)?;
            match coordinate_in(x, *lo, *hi) {
                Err(f) => Ok(Outcome::Fault(f)),
                Ok(z) => {
                    let o = at_coordinate(cells, scope, value, field, *axis, z)?;
                    Ok(o)
                }
            }
        }
        Node::Array(e) => at_iterators(cells, scope, e),
        Node::List { domain, items } => {
            let place = rank_of(domain.axes(), &scope.points[scope.base..]);
            Ok(Outcome::Value(item_at(items, place)))
        }
        Node::Condense { op, domain, body } => {
            let o = condense(cells, scope, body, *op, domain)?;
            Ok(o)
        }
        Node::CondenseWhere {
            op,
            domain,
            condition,
            body,
        } => {
            let mut running = Running::new(*op);
            let depth = scope.iterators.len();
            for place in 0..domain.points() {
                domain.push_point(&mut scope.iterators, place)?;
                let c = at_empty_point(cells, scope, condition, 0)?;
                if running.demands(c) {
                    let o = at_empty_point(cells, scope, body, 0)?;
                    running.add(o);
                }
                scope.iterators.truncate(depth);
            }
            Ok(running.finish())
        }
        Node::Reduce { op, domain, body } => {
            let o = reduce(cells, scope, body, *op, domain)?;
            Ok(o)
        }
    }
}

/// The outcome at the empty point.
#[cycle(eval)]
fn at_empty_point<C: Cells>(
    cells: &mut C,
    scope: &mut Scope<'_>,
    e: &Node,
    field: usize,
) -> Result<Outcome, CellError>
    ensures value { Returns C.Cells cells.old result (outcome_in scope.old (scalar (field_tree e.now field))) }
    ensures scope { OnOk result (IsSame scope.old scope.new) }
    ensures leaves { Leaves C.Cells cells.old cells.new }
    ensures reports { Reports result (C.intact cells.old) (C.failures cells.old) (C.failures cells.new) }
{
    let base = scope.base;
    scope.base = scope.points.len();
    let o = eval(cells, scope, e, field)?;
    scope.base = base;
    Ok(o)
}

/// The outcome where further iterators are bound to the coordinates of the point.
#[cycle(eval)]
fn at_iterators<C: Cells>(
    cells: &mut C,
    scope: &mut Scope<'_>,
    e: &Node,
) -> Result<Outcome, CellError>
    requires { scope.old.base ≤ vec_len scope.old.points }
    ensures value { Returns C.Cells cells.old result (outcome_in scope.old (array (only_tree e.now))) }
    ensures scope { OnOk result (IsSame scope.old scope.new) }
    ensures leaves { Leaves C.Cells cells.old cells.new }
    ensures reports { Reports result (C.intact cells.old) (C.failures cells.old) (C.failures cells.new) }
{
    let depth = scope.iterators.len();
    scope
        .iterators
        .extend_from_slice(&scope.points[scope.base..])?;
    let o = at_empty_point(cells, scope, e, 0)?;
    scope.iterators.truncate(depth);
    Ok(o)
}

/// The outcome where a coordinate is put into the point.
#[cycle(eval)]
fn at_coordinate<C: Cells>(
    cells: &mut C,
    scope: &mut Scope<'_>,
    e: &Node,
    field: usize,
    axis: usize,
    z: i32,
) -> Result<Outcome, CellError>
    requires { scope.old.base ≤ vec_len scope.old.points }
    ensures value { Returns C.Cells cells.old result (outcome_with scope.old (field_tree e.now field) axis z) }
    ensures scope { OnOk result (IsSame scope.old scope.new) }
    ensures leaves { Leaves C.Cells cells.old cells.new }
    ensures reports { Reports result (C.intact cells.old) (C.failures cells.old) (C.failures cells.new) }
{
    let at = scope.base + axis.min(scope.points.len() - scope.base);
    put_in(&mut scope.points, at, z)?;
    let o = eval(cells, scope, e, field)?;
    scope.points.remove(at);
    Ok(o)
}

/// The outcome of a condenser: its iterators go over the points of the box in row-major order.
#[cycle(eval)]
fn condense<C: Cells>(
    cells: &mut C,
    scope: &mut Scope<'_>,
    e: &Node,
    op: Aggregate,
    domain: &Domain,
) -> Result<Outcome, CellError>
    ensures value { Returns C.Cells cells.old result (outcome_in scope.old (condense op domain.now (only_tree e.now))) }
    ensures scope { OnOk result (IsSame scope.old scope.new) }
    ensures leaves { Leaves C.Cells cells.old cells.new }
    ensures reports { Reports result (C.intact cells.old) (C.failures cells.old) (C.failures cells.new) }
{
    let mut running = Running::new(op);
    let depth = scope.iterators.len();
    for place in 0..domain.points() {
        domain.push_point(&mut scope.iterators, place)?;
        let o = at_empty_point(cells, scope, e, 0)?;
        scope.iterators.truncate(depth);
        running.add(o);
    }
    Ok(running.finish())
}

/// The outcome of a reduction: the point goes over the points of the domain in row-major order.
#[cycle(eval)]
fn reduce<C: Cells>(
    cells: &mut C,
    scope: &mut Scope<'_>,
    e: &Node,
    op: Aggregate,
    domain: &Domain,
) -> Result<Outcome, CellError>
    ensures value { Returns C.Cells cells.old result (outcome_in scope.old (reduce op domain.now (only_tree e.now))) }
    ensures scope { OnOk result (IsSame scope.old scope.new) }
    ensures leaves { Leaves C.Cells cells.old cells.new }
    ensures reports { Reports result (C.intact cells.old) (C.failures cells.old) (C.failures cells.new) }
{
    let mut running = Running::new(op);
    let base = scope.base;
    let top = scope.points.len();
    scope.base = top;
    for place in 0..domain.points() {
        domain.push_point(&mut scope.points, place)?;
        let o = eval(cells, scope, e, 0)?;
        scope.points.truncate(top);
        running.add(o);
    }
    scope.base = base;
    Ok(running.finish())
}

/// Puts an element in at a place.
fn put_in(list: &mut Vec<i32>, at: usize, z: i32) -> Result<(), AllocError>
    requires { at ≤ vec_len list.old }
    ensures { OnOk result (list.new.items ≡ insert list.old.items at z) }
{
    list.insert(at, z)?;
    Ok(())
}
