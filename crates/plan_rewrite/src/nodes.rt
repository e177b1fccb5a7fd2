//! Making bodies of bodies. Each is handed on in its box, and is let go there where a later part fails.

ghost use Rattle.std.specs.Prelude.{◌≡◌, [], ◌∷◌, IfOk, OnOk};
ghost use Rattle.plan_ir.specs.Bodies.{fold_view, op1, op2, read, table, fold, always};
ghost use Rattle.plan_rewrite.specs.Views.{tree_in, pass_in, pass_of, bind_of, bind_over, GainsBinds};

use arr_core::Domain;
use plan_ir::{Bind, Body, Fold, Index, Interval};
use std::alloc::{AllocError, Global};
use wcps_text::{Aggregate, BinaryOperator, UnaryOperator};

/// A body on the heap.
pub fn boxed(alloc: Global, body: Body) -> Result<Box<Body>, AllocError>
    ensures { IfOk result (λ b. b.value ≡ body) }
{
    let b = Box::new(alloc, body)?;
    Ok(b)
}

/// An operation on one operand.
pub fn op1_body(alloc: Global, op: UnaryOperator, e: Box<Body>) -> Result<Box<Body>, AllocError>
    ensures { IfOk result (λ b. tree_in b ≡ op1 op (tree_in e)) }
{
    boxed(alloc, Body::Op1(op, e))
}

/// An operation on two operands.
pub fn op2_body(
    alloc: Global,
    op: BinaryOperator,
    l: Box<Body>,
    r: Box<Body>,
) -> Result<Box<Body>, AllocError>
    ensures { IfOk result (λ b. tree_in b ≡ op2 op (tree_in l) (tree_in r)) }
{
    boxed(alloc, Body::Op2(op, l, r))
}

/// A body under one more variable.
pub fn bind_body(
    alloc: Global,
    position: Box<Body>,
    interval: Interval,
    body: Box<Body>,
) -> Result<Box<Body>, AllocError>
    ensures { IfOk result (λ b. tree_in b ≡ bind_over (tree_in position) interval (tree_in body)) }
{
    boxed(
        alloc,
        Body::Bind {
            position,
            interval,
            body,
        },
    )
}

/// The cell of a field at a copy of a point.
pub fn read_at(
    alloc: Global,
    coverage: usize,
    field: usize,
    point: &[Index],
) -> Result<Box<Body>, AllocError>
    ensures { IfOk result (λ b. tree_in b ≡ read coverage field point.now) }
{
    let indexes = point.to_vec(alloc)?;
    boxed(
        alloc,
        Body::Read {
            coverage,
            field,
            indexes,
        },
    )
}

/// The item of a copy of a list at a copy of a point.
pub fn table_at(
    alloc: Global,
    domain: &Domain,
    items: &[i64],
    point: &[Index],
) -> Result<Box<Body>, AllocError>
    ensures { IfOk result (λ b. tree_in b ≡ table domain.now items.now point.now) }
{
    let indexes = point.to_vec(alloc)?;
    let domain = domain.copy(alloc)?;
    let items = items.to_vec(alloc)?;
    boxed(
        alloc,
        Body::Table {
            domain,
            items,
            indexes,
        },
    )
}

/// A fold as a body.
pub fn fold_body(alloc: Global, fold: Box<Fold>) -> Result<Box<Body>, AllocError>
    ensures { IfOk result (λ b. tree_in b ≡ fold_view fold.value) }
{
    boxed(alloc, Body::Fold(fold))
}

/// A fold of a body at all points of a domain.
pub fn plain_fold(
    alloc: Global,
    op: Aggregate,
    domain: &Domain,
    body: Box<Body>,
) -> Result<Box<Fold>, AllocError>
    ensures { IfOk result (λ f. pass_in f ≡ pass_of op domain.now always (tree_in body)) }
{
    let domain = domain.copy(alloc)?;
    let f = Box::new(
        alloc,
        Fold {
            op,
            domain,
            condition: None,
            body: Box::into_inner(body),
        },
    )?;
    Ok(f)
}

/// A fold of a body at the points of a domain where a condition is true.
pub fn conditional_fold(
    alloc: Global,
    op: Aggregate,
    domain: &Domain,
    condition: Box<Body>,
    body: Box<Body>,
) -> Result<Box<Fold>, AllocError>
    ensures { IfOk result (λ f. pass_in f ≡ pass_of op domain.now (tree_in condition) (tree_in body)) }
{
    let domain = domain.copy(alloc)?;
    let f = Box::new(
        alloc,
        Fold {
            op,
            domain,
            condition: Some(Box::into_inner(condition)),
            body: Box::into_inner(body),
        },
    )?;
    Ok(f)
}

/// Puts a bind at the end of a list.
pub fn push_bind(
    list: &mut Vec<Bind>,
    position: Box<Body>,
    interval: Interval,
) -> Result<(), AllocError>
    ensures { OnOk result (GainsBinds list.old list.new (bind_of (tree_in position) interval ∷ [])) }
{
    list.push(Bind {
        position: Box::into_inner(position),
        interval,
    })?;
    Ok(())
}
