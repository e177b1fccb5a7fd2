//! What a condenser keeps of a column's values.

ghost use Rattle.std.specs.Prelude.{◌≡◌, ◌+◌, ◌*◌, ◌≤◌, ◌^◌, ℤ, pos, neg_ℤ, ◌+ℤ◌, ◌≤ℤ◌, List, ◌++◌};
ghost use Rattle.std.specs.Prelude.{◌<◌, length, replicate, None, IfSome, cond, nat_lt};
ghost use Rattle.arr_core.specs.Limits.{max_tile};
ghost use Rattle.wcps_mean.specs.Condensers.{total, trues, larger, smaller};
ghost use Rattle.wcps_mean.specs.Best.{greatest_of, least_of};
ghost use Rattle.wcps_mean.specs.Products.{StandsFor};
ghost use Rattle.wcps_mean.specs.Feeding.{Keeps};
ghost use Rattle.tile_kernel.specs.Selected.{selected, taken_in};

use crate::choice::Choice;
use crate::joined::{larger, smaller};
use crate::operand::Operand;
use wcps_mean::{Product, Running, weight};
use wcps_text::Aggregate;

/// What a condenser keeps of the values at the first `len` places, each as often as it counts.
pub(crate) fn condense_values<V: Operand, C: Choice>(
    op: Aggregate,
    len: usize,
    values: &V,
    choice: &C,
) -> Running
    requires few { taken_in (C.times choice.now) len ≤ max_tile }
    requires values { len ≤ V.places values.now }
    requires choice { len ≤ C.places choice.now }
    ensures kept { Keeps op result (selected (C.times choice.now) (V.value values.now) len) }
    ensures op { result.op ≡ op }
    ensures count { result.count ≡ length (selected (C.times choice.now) (V.value values.now) len) }
    ensures fault { result.fault ≡ None }
{
    let mut running = Running::new(op);
    let count = places_over(len, values, choice);
    running.count = count as u32;
    match op {
        Aggregate::Sum => {
            running.sum = sum_over(len, values, choice, count);
            return running;
        }
        Aggregate::Average => {
            running.sum = sum_over(len, values, choice, count);
            return running;
        }
        Aggregate::Product => {
            running.product = product_over(len, values, choice);
            return running;
        }
        Aggregate::Greatest => {
            running.best = greatest_over(len, values, choice, count);
            return running;
        }
        Aggregate::Least => {
            running.best = least_over(len, values, choice, count);
            return running;
        }
        Aggregate::Every => {
            running.all = trues_over(len, values, choice) == count;
            return running;
        }
        Aggregate::Any => {
            running.some = 0 < trues_over(len, values, choice);
            return running;
        }
        Aggregate::Count => {
            running.trues = trues_over(len, values, choice) as u32;
            return running;
        }
    }
}

/// How often the first `len` places count.
fn places_over<V: Operand, C: Choice>(len: usize, values: &V, choice: &C) -> u64
    requires few { taken_in (C.times choice.now) len ≤ max_tile }
    requires choice { len ≤ C.places choice.now }
    ensures value { result ≡ length (selected (C.times choice.now) (V.value values.now) len) }
    ensures few { result ≤ max_tile }
{
    let mut count: u64 = 0;
    for place in 0..len {
        count += choice.times(place);
    }
    count
}

/// A value raised by 2^63, so that it is not negative.
fn raised(x: i64) -> u64
    ensures { pos result ≡ x +ℤ pos (2 ^ 63) }
{
    x.cast_unsigned().wrapping_add(1 << 63)
}

/// The exact sum of so many values, in one loop of sums where all of them lie near 0.
fn sum_over<V: Operand, C: Choice>(len: usize, values: &V, choice: &C, count: u64) -> i128
    requires few { taken_in (C.times choice.now) len ≤ max_tile }
    requires values { len ≤ V.places values.now }
    requires choice { len ≤ C.places choice.now }
    requires count { count ≡ length (selected (C.times choice.now) (V.value values.now) len) }
    ensures value { result ≡ total (selected (C.times choice.now) (V.value values.now) len) }
    ensures from_below { neg_ℤ (pos (count * 2 ^ 63)) ≤ℤ result }
    ensures from_above { (result +ℤ pos count) ≤ℤ pos (count * 2 ^ 63) }
{
    match near_sum_over(len, values, choice, count) {
        Some(sum) => sum,
        None => far_sum_over(len, values, choice, count),
    }
}

/// How far a value that lies near 0 is from it at most.
const NEAR: u64 = 1_099_511_627_776;

/// A value raised by 2^40, which is below 2^41 where the value lies near 0.
fn lifted(x: i64) -> u64
    ensures { result < 2 ^ 41 → pos result ≡ x +ℤ pos (2 ^ 40) }
{
    x.cast_unsigned().wrapping_add(NEAR)
}

/// The sum of so many values, if all values that stand there lie near 0.
fn near_sum_over<V: Operand, C: Choice>(
    len: usize,
    values: &V,
    choice: &C,
    count: u64,
) -> Option<i128>
    requires few { taken_in (C.times choice.now) len ≤ max_tile }
    requires values { len ≤ V.places values.now }
    requires choice { len ≤ C.places choice.now }
    requires count { count ≡ length (selected (C.times choice.now) (V.value values.now) len) }
    ensures value { IfSome result (λ s. s ≡ total (selected (C.times choice.now) (V.value values.now) len)) }
    ensures from_below { IfSome result (λ s. neg_ℤ (pos (count * 2 ^ 40)) ≤ℤ s) }
    ensures from_above { IfSome result (λ s. s ≤ℤ pos (count * 2 ^ 40)) }
{
    let mut sum: u64 = 0;
    let mut marks: u64 = 0;
    for place in 0..len {
        let bits = lifted(values.value(place));
        sum = sum.wrapping_add(choice.times(place).wrapping_mul(bits));
        marks |= bits;
    }
    if marks >= 2 * NEAR {
        return None;
    }
    Some(sum as i128 - count as i128 * NEAR as i128)
}

/// The sum of so many values of any size: the low and the high halves of the raised values are summed apart.
fn far_sum_over<V: Operand, C: Choice>(len: usize, values: &V, choice: &C, count: u64) -> i128
    requires few { taken_in (C.times choice.now) len ≤ max_tile }
    requires values { len ≤ V.places values.now }
    requires choice { len ≤ C.places choice.now }
    requires count { count ≡ length (selected (C.times choice.now) (V.value values.now) len) }
    ensures value { result ≡ total (selected (C.times choice.now) (V.value values.now) len) }
    ensures from_below { neg_ℤ (pos (count * 2 ^ 63)) ≤ℤ result }
    ensures from_above { (result +ℤ pos count) ≤ℤ pos (count * 2 ^ 63) }
{
    let mut low: u64 = 0;
    let mut high: u64 = 0;
    for place in 0..len {
        let times = choice.times(place);
        let bits = raised(values.value(place));
        low += times * (bits % 4_294_967_296);
        high += times * (bits / 4_294_967_296);
    }
    low as i128 + high as i128 * 4_294_967_296 - count as i128 * 9_223_372_036_854_775_808
}

/// The product with one more factor, as often as it counts.
fn times_by(times: u64, product: Product, x: i64) -> Product
    ensures { (zs : List ℤ) → StandsFor product zs → StandsFor result (zs ++ replicate times x) }
{
    let mut all = product;
    for _copy in 0..times {
        all = all.times(x);
    }
    all
}

/// The product.
pub(crate) fn product_over<V: Operand, C: Choice>(len: usize, values: &V, choice: &C) -> Product
    requires values { len ≤ V.places values.now }
    requires choice { len ≤ C.places choice.now }
    ensures { StandsFor result (selected (C.times choice.now) (V.value values.now) len) }
{
    let mut product = Product::new();
    for place in 0..len {
        product = times_by(choice.times(place), product, values.value(place));
    }
    product
}

/// The larger of two values where the second one counts, else the first one.
fn larger_if(times: u64, best: i64, x: i64) -> i64
    ensures { result ≡ cond (nat_lt 0 times) (larger best x) best }
{
    if times > 0 { larger(best, x) } else { best }
}

/// The smaller of two values where the second one counts, else the first one.
fn smaller_if(times: u64, best: i64, x: i64) -> i64
    ensures { result ≡ cond (nat_lt 0 times) (smaller best x) best }
{
    if times > 0 { smaller(best, x) } else { best }
}

/// The greatest of so many values, if there are any.
fn greatest_over<V: Operand, C: Choice>(
    len: usize,
    values: &V,
    choice: &C,
    count: u64,
) -> Option<i64>
    requires values { len ≤ V.places values.now }
    requires choice { len ≤ C.places choice.now }
    requires count { count ≡ length (selected (C.times choice.now) (V.value values.now) len) }
    ensures { result ≡ greatest_of (selected (C.times choice.now) (V.value values.now) len) }
{
    let mut best = i64::MIN;
    for place in 0..len {
        best = larger_if(choice.times(place), best, values.value(place));
    }
    if count == 0 {
        return None;
    }
    Some(best)
}

/// The least of so many values, if there are any.
fn least_over<V: Operand, C: Choice>(len: usize, values: &V, choice: &C, count: u64) -> Option<i64>
    requires values { len ≤ V.places values.now }
    requires choice { len ≤ C.places choice.now }
    requires count { count ≡ length (selected (C.times choice.now) (V.value values.now) len) }
    ensures { result ≡ least_of (selected (C.times choice.now) (V.value values.now) len) }
{
    let mut best = i64::MAX;
    for place in 0..len {
        best = smaller_if(choice.times(place), best, values.value(place));
    }
    if count == 0 {
        return None;
    }
    Some(best)
}

/// How many of the values are true.
fn trues_over<V: Operand, C: Choice>(len: usize, values: &V, choice: &C) -> u64
    requires few { taken_in (C.times choice.now) len ≤ max_tile }
    requires values { len ≤ V.places values.now }
    requires choice { len ≤ C.places choice.now }
    ensures value { result ≡ trues (selected (C.times choice.now) (V.value values.now) len) }
    ensures few { result ≤ max_tile }
    ensures some { result ≤ length (selected (C.times choice.now) (V.value values.now) len) }
{
    let mut count: u64 = 0;
    for place in 0..len {
        let times = choice.times(place);
        let one = weight(values.value(place)) as u64;
        count += times * one;
    }
    count
}
