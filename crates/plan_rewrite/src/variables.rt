//! Variables: the index that stands for each, and the interval of each, outermost first.

ghost use Rattle.std.specs.Prelude.{◌≡◌, ◌++◌, [], ◌∷◌, pos, IfOk, length, slice_index_or};
ghost use Rattle.plan_ir.specs.declared.body.Index.{Index};
ghost use Rattle.plan_ir.specs.Bodies.{body_view};
ghost use Rattle.plan_ir.specs.Placed.{spans};
ghost use Rattle.plan_rewrite.specs.Inlining.{variable, levels};

use arr_core::Axis;
use plan_ir::{Body, Index, Interval};
use std::alloc::{AllocError, Global};

/// What has the number of an index.
pub fn variable(i: Index) -> Body
    ensures { body_view result ≡ variable i }
{
    match i {
        Index::Const(z) => Body::Lit(z as i64),
        Index::Var(k) => Body::Var(k),
    }
}

/// The index of a variable.
pub fn index_at(env: &[Index], k: usize) -> Index
    ensures { result ≡ slice_index_or env.now k (Index.Const (pos 0)) }
{
    match env.get(k) {
        Some(i) => *i,
        None => Index::Const(0),
    }
}

/// One interval more.
pub fn with_interval(
    alloc: Global,
    scope: &[Interval],
    interval: Interval,
) -> Result<Vec<Interval>, AllocError>
    ensures { IfOk result (λ v. v.items ≡ scope.now ++ interval ∷ []) }
{
    let mut list = scope.to_vec(alloc)?;
    list.push(interval)?;
    Ok(list)
}

/// The intervals of axes behind those before.
pub fn with_spans(
    alloc: Global,
    scope: &[Interval],
    axes: &[Axis],
) -> Result<Vec<Interval>, AllocError>
    ensures { IfOk result (λ v. v.items ≡ scope.now ++ spans axes.now) }
{
    let mut list = scope.to_vec(alloc)?;
    for axis in axes {
        list.push(Interval {
            lo: axis.lo,
            hi: axis.hi,
        })?;
    }
    Ok(list)
}

/// A variable for each axis behind the indexes before.
pub fn with_levels(
    alloc: Global,
    env: &[Index],
    scope: &[Interval],
    axes: &[Axis],
) -> Result<Vec<Index>, AllocError>
    ensures { IfOk result (λ v. v.items ≡ env.now ++ levels (length scope.now) (spans axes.now)) }
{
    let mut list = env.to_vec(alloc)?;
    let mut level = scope.len();
    for _axis in axes {
        list.push(Index::Var(level))?;
        level += 1;
    }
    Ok(list)
}
