//! Accumulators of the cells of a column, one for each of different keys.

ghost use Rattle.std.specs.Prelude.{◌≡◌, length, IfOk};
ghost use Rattle.tile_kernel.specs.Standing.{AreOf, HaveAtMost};
ghost use Rattle.tile_kernel.specs.Condensing.{StandForSame};
ghost use Rattle.tile_kernel.specs.Keyed.{StandByKeys};

use crate::accumulator::Accumulator;
use crate::column::Column;
use crate::condenser::Condenser;
use crate::keyed::{Numbers, add_keyed};
use crate::summaries::{AllTrue, Factors, Greatest, Least, Mean, SomeTrue, Total, Trues};
use crate::summary::Summary;
use crate::tallied::Tallied;
use std::alloc::{AllocError, Global};
use wcps_text::Aggregate;

/// Each condenser as an accumulator of the same points.
fn accumulators<S: Summary>(
    alloc: Global,
    tallied: &[Tallied<S>],
) -> Result<Vec<Accumulator>, AllocError>
    ensures stands { IfOk result (λ v. StandForSame ⟦<Tallied<S> as Condenser>⟧.stands tallied.now v.items) }
    ensures op { IfOk result (λ v. AreOf S.op v.items) }
    ensures length { IfOk result (λ v. length v.items ≡ length tallied.now) }
{
    let mut folds = Vec::with_capacity(alloc, tallied.len())?;
    for k in 0..tallied.len() {
        folds.push(tallied[k].accumulator())?;
    }
    Ok(folds)
}

/// An accumulator for each number, of those cells of a column whose key it is, by the summary of their condenser.
fn condense_by<S: Summary, N: Numbers>(
    alloc: Global,
    numbers: &N,
    keys: &Column,
    column: &Column,
    places: &[u64],
) -> Result<Vec<Accumulator>, AllocError>
    requires keys { length keys.now ≡ length column.now }
    requires places { length places.now ≡ length column.now }
    ensures stands { IfOk result (λ v. StandByKeys (N.numbers numbers.now) places.now keys.now column.now v.items) }
    ensures count { IfOk result (λ v. HaveAtMost (length column.now) v.items) }
    ensures op { IfOk result (λ v. AreOf S.op v.items) }
    ensures length { IfOk result (λ v. length v.items ≡ length (N.numbers numbers.now)) }
{
    let _few = column.len();
    let mut tallied = vec![in alloc; Tallied::<S>::empty(); numbers.len()]?;
    add_keyed(tallied.as_mut_slice(), numbers, keys, column, places);
    accumulators(alloc, tallied.as_slice())
}

/// An accumulator for each number, of those cells of a column whose key it is, at their places in the box: in one pass
/// what a fold under the condition that the key is the number gives for each of them.
pub fn condense_keyed<N: Numbers>(
    alloc: Global,
    op: Aggregate,
    numbers: &N,
    keys: &Column,
    column: &Column,
    places: &[u64],
) -> Result<Vec<Accumulator>, AllocError>
    requires keys { length keys.now ≡ length column.now }
    requires places { length places.now ≡ length column.now }
    ensures stands { IfOk result (λ v. StandByKeys (N.numbers numbers.now) places.now keys.now column.now v.items) }
    ensures count { IfOk result (λ v. HaveAtMost (length column.now) v.items) }
    ensures op { IfOk result (λ v. AreOf op v.items) }
    ensures length { IfOk result (λ v. length v.items ≡ length (N.numbers numbers.now)) }
{
    match op {
        Aggregate::Sum => condense_by::<Total, N>(alloc, numbers, keys, column, places),
        Aggregate::Product => condense_by::<Factors, N>(alloc, numbers, keys, column, places),
        Aggregate::Greatest => condense_by::<Greatest, N>(alloc, numbers, keys, column, places),
        Aggregate::Least => condense_by::<Least, N>(alloc, numbers, keys, column, places),
        Aggregate::Every => condense_by::<AllTrue, N>(alloc, numbers, keys, column, places),
        Aggregate::Any => condense_by::<SomeTrue, N>(alloc, numbers, keys, column, places),
        Aggregate::Count => condense_by::<Trues, N>(alloc, numbers, keys, column, places),
        Aggregate::Average => condense_by::<Mean, N>(alloc, numbers, keys, column, places),
    }
}
