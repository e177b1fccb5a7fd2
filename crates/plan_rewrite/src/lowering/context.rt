//! Where an expression is lowered.

ghost use Rattle.std.specs.Prelude.{◌≡◌, IfOk, insert};
ghost use Rattle.plan_rewrite.specs.Lowering.{setting_of, outermost, at_scalar, at_iterators, at_slice, at_box, at_points};

use crate::variables::{with_interval, with_levels, with_spans};
use arr_core::Axis;
use plan_ir::{Index, Interval};
use std::alloc::{AllocError, Global};

/// What an expression's iterators and its point stand for under the variables of a body.
#[derive(Drop)]
pub struct Context {
    /// The interval of each variable, outermost first.
    pub scope: Vec<Interval>,
    /// The index of each iterator in scope, outermost first.
    pub iterators: Vec<Index>,
    /// The index of each coordinate of the point.
    pub point: Vec<Index>,
}

impl Context {
    /// Under variables for iterators, and behind them variables for the axes of the point.
    pub fn outermost(
        alloc: Global,
        iterators: &[Axis],
        axes: &[Axis],
    ) -> Result<Context, AllocError>
        ensures { IfOk result (λ c. setting_of c ≡ outermost iterators.now axes.now) }
    {
        let outer = with_spans(alloc, &[], iterators)?;
        let point = with_levels(alloc, &[], &outer, axes)?;
        let iterators = with_levels(alloc, &[], &[], iterators)?;
        let scope = with_spans(alloc, &outer, axes)?;
        Ok(Context {
            scope,
            iterators,
            point,
        })
    }

    /// At the point without coordinates.
    pub fn scalar(&self, alloc: Global) -> Result<Context, AllocError>
        ensures { IfOk result (λ c. setting_of c ≡ at_scalar (setting_of self.now)) }
    {
        Ok(Context {
            scope: self.scope.to_vec(alloc)?,
            iterators: self.iterators.to_vec(alloc)?,
            point: Vec::new(alloc),
        })
    }

    /// With the coordinates of the point as further iterators.
    pub fn inner(&self, alloc: Global) -> Result<Context, AllocError>
        ensures { IfOk result (λ c. setting_of c ≡ at_iterators (setting_of self.now)) }
    {
        let mut iterators = self.iterators.to_vec(alloc)?;
        iterators.extend_from_slice(&self.point)?;
        Ok(Context {
            scope: self.scope.to_vec(alloc)?,
            iterators,
            point: Vec::new(alloc),
        })
    }

    /// With one variable more, which is a coordinate of the point.
    pub fn sliced(
        &self,
        alloc: Global,
        axis: usize,
        interval: Interval,
    ) -> Result<Context, AllocError>
        ensures { IfOk result (λ c. setting_of c ≡ at_slice (setting_of self.now) axis interval.lo interval.hi) }
    {
        let point = with_coordinate(alloc, &self.point, axis, Index::Var(self.scope.len()))?;
        Ok(Context {
            scope: with_interval(alloc, &self.scope, interval)?,
            iterators: self.iterators.to_vec(alloc)?,
            point,
        })
    }

    /// With variables over the axes of a box, which are further iterators.
    pub fn over(&self, alloc: Global, axes: &[Axis]) -> Result<Context, AllocError>
        ensures { IfOk result (λ c. setting_of c ≡ at_box (setting_of self.now) axes.now) }
    {
        Ok(Context {
            scope: with_spans(alloc, &self.scope, axes)?,
            iterators: with_levels(alloc, &self.iterators, &self.scope, axes)?,
            point: Vec::new(alloc),
        })
    }

    /// With variables over the axes of a box, which are the point.
    pub fn across(&self, alloc: Global, axes: &[Axis]) -> Result<Context, AllocError>
        ensures { IfOk result (λ c. setting_of c ≡ at_points (setting_of self.now) axes.now) }
    {
        Ok(Context {
            scope: with_spans(alloc, &self.scope, axes)?,
            iterators: self.iterators.to_vec(alloc)?,
            point: with_levels(alloc, &[], &self.scope, axes)?,
        })
    }
}

/// The indexes of a point with one more coordinate.
fn with_coordinate(
    alloc: Global,
    point: &[Index],
    axis: usize,
    i: Index,
) -> Result<Vec<Index>, AllocError>
    ensures { IfOk result (λ v. v.items ≡ insert point.now axis i) }
{
    let mut list = point.to_vec(alloc)?;
    let at = axis.min(list.len());
    list.insert(at, i)?;
    Ok(list)
}
