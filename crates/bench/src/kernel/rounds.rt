//! Kernels and condensers, run again and again.

ghost use Rattle.std.specs.Prelude.{◌≡◌, ◌≤◌, ◌<◌, ◌^◌, length, All, IsTrue, IfOk};
ghost use Rattle.tile_kernel.specs.declared.accumulator.Accumulator.{Accumulator};

use crate::kernel::cells::{Data, conditions, lefts, places, rights, scalar};
use anyhow::{Result, bail};
use std::alloc::{AllocError, Global};
use tile_kernel::{
    Accumulator, AllTrue, Column, Condensed, Condenser, Factors, Greatest, Least, Mean, SomeTrue,
    Total, Trues, add_column, fold_column, fold_column_where, operate_column, operate_columns,
    tell_each,
};
use wcps_mean::Outcome;
use wcps_text::{Aggregate, BinaryOperator, UnaryOperator};

/// A number for an outcome.
fn number(outcome: Outcome) -> i64 {
    match outcome {
        Outcome::Value(value) => value,
        Outcome::Fault(_) => -1,
    }
}

/// A number for one of the outcomes of a column, another one in each round.
fn picked(column: &Column, round: u32) -> i64 {
    if column.len() == 0 {
        return 0;
    }
    number(column.at(round as usize % column.len()))
}

fn operated(
    op: BinaryOperator,
    left: &Column,
    right: &Column,
    out: &mut Column,
    rounds: u32,
) -> Result<i64> {
    if left.len() != right.len() {
        bail!("columns of two lengths");
    }
    let mut sum: i64 = 0;
    for round in 0..rounds {
        operate_columns(op, left, right, out);
        sum = sum.wrapping_add(picked(out, round));
    }
    Ok(sum)
}

/// An operation on two columns.
pub fn both(alloc: Global, op: BinaryOperator, data: Data, len: u32, rounds: u32) -> Result<i64> {
    let left = lefts(alloc, data, len)?;
    let right = rights(alloc, op, data, len)?;
    let mut out = Column::new(alloc)?;
    operated(op, &left, &right, &mut out, rounds)
}

/// An operation on a column and the scalar 3.
pub fn with_scalar(
    alloc: Global,
    op: BinaryOperator,
    data: Data,
    len: u32,
    rounds: u32,
) -> Result<i64> {
    let left = lefts(alloc, data, len)?;
    let right = scalar(alloc, 3, len)?;
    let mut out = Column::new(alloc)?;
    operated(op, &left, &right, &mut out, rounds)
}

/// An operation on one column.
pub fn one(alloc: Global, op: UnaryOperator, data: Data, len: u32, rounds: u32) -> Result<i64> {
    let operand = lefts(alloc, data, len)?;
    let mut out = Column::new(alloc)?;
    let mut sum: i64 = 0;
    for round in 0..rounds {
        operate_column(op, &operand, &mut out);
        sum = sum.wrapping_add(picked(&out, round));
    }
    Ok(sum)
}

fn fold_once(op: Aggregate, column: &Column, places: &[u64]) -> Result<i64> {
    if places.len() != column.len() {
        bail!("places of another number");
    }
    Ok(number(fold_column(op, column, places).finish()))
}

/// A condenser of a column.
pub fn folded(alloc: Global, op: Aggregate, data: Data, len: u32, rounds: u32) -> Result<i64> {
    let column = lefts(alloc, data, len)?;
    let places = places(alloc, len)?;
    let mut sum: i64 = 0;
    for _ in 0..rounds {
        sum = sum.wrapping_add(fold_once(op, &column, &places)?);
    }
    Ok(sum)
}

fn fold_once_where(
    op: Aggregate,
    condition: &Column,
    column: &Column,
    places: &[u64],
) -> Result<i64> {
    if places.len() != column.len() || condition.len() != column.len() {
        bail!("columns of two lengths");
    }
    Ok(number(fold_column_where(op, condition, column, places).finish()))
}

/// A condenser of a column under a condition.
pub fn folded_where(
    alloc: Global,
    op: Aggregate,
    data: Data,
    len: u32,
    rounds: u32,
) -> Result<i64> {
    let column = lefts(alloc, data, len)?;
    let condition = conditions(alloc, data, len)?;
    let places = places(alloc, len)?;
    let mut sum: i64 = 0;
    for _ in 0..rounds {
        sum = sum.wrapping_add(fold_once_where(op, &condition, &column, &places)?);
    }
    Ok(sum)
}

/// So many accumulators of no point.
fn empties(alloc: Global, op: Aggregate, len: usize) -> Result<Vec<Accumulator>> {
    let mut folds = Vec::new(alloc);
    for _ in 0..len {
        folds.push(Accumulator::empty(op))?;
    }
    Ok(folds)
}

/// Whether no accumulator has been told of a point.
fn are_empty(folds: &[Accumulator]) -> bool
    ensures { IsTrue result → All (λ (a : Accumulator). a.running.count ≤ 0) folds.now }
{
    folds.iter().all(|a| a.running.count == 0)
}

/// How many rounds a condenser has room for.
const MOST: u32 = 16_777_216;

/// Accumulators that are told of a column's cells in each round.
fn told(folds: &mut [Accumulator], column: &Column, rounds: u32)
    requires length { length folds.old ≡ length column.now }
    requires empty { All (λ (a : Accumulator). a.running.count ≤ 0) folds.old }
    requires few { rounds ≤ 2 ^ 24 }
    ensures { length folds.new ≡ length folds.old }
{
    for round in 0..rounds {
        add_column(folds, u64::from(round), column);
    }
}

/// Condensers of one cell of a column each.
pub fn added(alloc: Global, op: Aggregate, data: Data, len: u32, rounds: u32) -> Result<i64> {
    let column = lefts(alloc, data, len)?;
    let mut folds = empties(alloc, op, column.len())?;
    if folds.len() != column.len() || rounds > MOST || !are_empty(&folds) {
        bail!("no room for so many rounds");
    }
    told(folds.as_mut_slice(), &column, rounds);
    let mut sum: i64 = 0;
    for accumulator in folds {
        sum = sum.wrapping_add(number(accumulator.finish()));
    }
    Ok(sum)
}

/// So many condensers of no point.
fn none<C: Condenser>(alloc: Global, len: usize) -> Result<Vec<C>, AllocError>
    ensures length { IfOk result (λ v. length v.items ≡ len) }
    ensures empty { IfOk result (λ v. All (λ c. C.counted c ≤ 0) v.items) }
{
    let mut condensers = Vec::new(alloc);
    for place in 0..len {
        condensers.push(C::empty())?;
    }
    Ok(condensers)
}

/// Condensers that are told of a column's cells in each round.
fn told_by_kind<C: Condenser>(condensers: &mut [C], column: &Column, rounds: u32)
    requires length { length condensers.old ≡ length column.now }
    requires empty { All (λ c. C.counted c ≤ 0) condensers.old }
    requires few { rounds ≤ 2 ^ 24 }
    ensures { length condensers.new ≡ length condensers.old }
{
    for round in 0..rounds {
        tell_each(condensers, u64::from(round), column);
    }
}

/// Condensers of one kind, each of one cell of a column.
fn added_by_kind<C: Condenser>(alloc: Global, data: Data, len: u32, rounds: u32) -> Result<i64> {
    let column = lefts(alloc, data, len)?;
    let mut condensers = none::<C>(alloc, column.len())?;
    if rounds > MOST {
        bail!("no room for so many rounds");
    }
    told_by_kind(condensers.as_mut_slice(), &column, rounds);
    let mut sum: i64 = 0;
    for condenser in condensers {
        sum = sum.wrapping_add(number(condenser.finish()));
    }
    Ok(sum)
}

/// Condensers that keep what their kind needs, of one cell of a column each.
pub fn kept(alloc: Global, op: Aggregate, data: Data, len: u32, rounds: u32) -> Result<i64> {
    Ok(match op {
        Aggregate::Sum => added_by_kind::<Condensed<Total>>(alloc, data, len, rounds)?,
        Aggregate::Product => added_by_kind::<Condensed<Factors>>(alloc, data, len, rounds)?,
        Aggregate::Greatest => added_by_kind::<Condensed<Greatest>>(alloc, data, len, rounds)?,
        Aggregate::Least => added_by_kind::<Condensed<Least>>(alloc, data, len, rounds)?,
        Aggregate::Every => added_by_kind::<Condensed<AllTrue>>(alloc, data, len, rounds)?,
        Aggregate::Any => added_by_kind::<Condensed<SomeTrue>>(alloc, data, len, rounds)?,
        Aggregate::Count => added_by_kind::<Condensed<Trues>>(alloc, data, len, rounds)?,
        Aggregate::Average => added_by_kind::<Condensed<Mean>>(alloc, data, len, rounds)?,
    })
}
