//! What a condenser keeps of values of 32 bits.

ghost use Rattle.std.specs.Prelude.{◌≡◌, ◌*◌, ◌≤◌, ◌^◌, pos, neg_ℤ, ◌+ℤ◌, ◌≤ℤ◌, length, cond, None};
ghost use Rattle.arr_core.specs.Limits.{max_tile};
ghost use Rattle.arr_core.specs.Cells.{truth_of};
ghost use Rattle.wcps_mean.specs.Condensers.{total, trues, larger, smaller};
ghost use Rattle.wcps_mean.specs.Best.{greatest_of, least_of};
ghost use Rattle.wcps_mean.specs.Products.{StandsFor};
ghost use Rattle.wcps_mean.specs.Feeding.{Keeps};

use crate::choice::Always;
use crate::operand::EachNarrow;
use crate::reduce::product_over;
use wcps_mean::{Product, Running};
use wcps_text::Aggregate;

/// What a condenser keeps of values of 32 bits, each taken in once.
pub(crate) fn condense_narrow(op: Aggregate, values: &[i32]) -> Running
    requires { length values.now ≤ max_tile }
    ensures kept { Keeps op result values.now }
    ensures op { result.op ≡ op }
    ensures count { result.count ≡ length values.now }
    ensures fault { result.fault ≡ None }
{
    let mut running = Running::new(op);
    let count = values.len() as u32;
    running.count = count;
    match op {
        Aggregate::Sum => {
            running.sum = narrow_sum(values) as i128;
            return running;
        }
        Aggregate::Average => {
            running.sum = narrow_sum(values) as i128;
            return running;
        }
        Aggregate::Product => {
            running.product = narrow_product(values);
            return running;
        }
        Aggregate::Greatest => {
            running.best = narrow_greatest(values);
            return running;
        }
        Aggregate::Least => {
            running.best = narrow_least(values);
            return running;
        }
        Aggregate::Every => {
            running.all = narrow_trues(values) == count;
            return running;
        }
        Aggregate::Any => {
            running.some = 0 < narrow_trues(values);
            return running;
        }
        Aggregate::Count => {
            running.trues = narrow_trues(values);
            return running;
        }
    }
}

/// The sum of values of 32 bits: so few of them fit 64.
fn narrow_sum(values: &[i32]) -> i64
    requires { length values.now ≤ max_tile }
    ensures value { result ≡ total values.now }
    ensures from_below { neg_ℤ (pos (length values.now * 2 ^ 31)) ≤ℤ result }
    ensures from_above { (result +ℤ pos (length values.now)) ≤ℤ pos (length values.now * 2 ^ 31) }
{
    let mut sum: i64 = 0;
    for place in 0..values.len() {
        sum += values[place] as i64;
    }
    sum
}

/// The product of values of 32 bits.
fn narrow_product(values: &[i32]) -> Product
    ensures { StandsFor result values.now }
{
    let len = values.len();
    product_over(len, &EachNarrow { values }, &Always { len })
}

/// The larger of two values.
fn narrow_larger(x: i32, y: i32) -> i32
    ensures { result ≡ larger x y }
{
    if x <= y { y } else { x }
}

/// The smaller of two values.
fn narrow_smaller(x: i32, y: i32) -> i32
    ensures { result ≡ smaller x y }
{
    if x <= y { x } else { y }
}

/// The greatest of the values, if there are any.
fn narrow_greatest(values: &[i32]) -> Option<i64>
    ensures { result ≡ greatest_of values.now }
{
    if values.is_empty() {
        return None;
    }
    let mut best = values[0];
    for place in 1..values.len() {
        best = narrow_larger(best, values[place]);
    }
    Some(best as i64)
}

/// The least of the values, if there are any.
fn narrow_least(values: &[i32]) -> Option<i64>
    ensures { result ≡ least_of values.now }
{
    if values.is_empty() {
        return None;
    }
    let mut best = values[0];
    for place in 1..values.len() {
        best = narrow_smaller(best, values[place]);
    }
    Some(best as i64)
}

/// How many of the values are true.
fn narrow_trues(values: &[i32]) -> u32
    requires { length values.now ≤ max_tile }
    ensures value { result ≡ trues values.now }
    ensures few { result ≤ length values.now }
{
    let mut count: u32 = 0;
    for place in 0..values.len() {
        count += narrow_weight(values[place]);
    }
    count
}

/// 1 for true and 0 for false.
fn narrow_weight(x: i32) -> u32
    ensures value { result ≡ cond (truth_of x) 1 0 }
    ensures small { result ≤ 1 }
{
    if x != 0 { 1 } else { 0 }
}
