//! A cell operation over columns.

ghost use Rattle.std.specs.Prelude.{◌≡◌, ◌≤◌, length, IsTrue};
ghost use Rattle.arr_core.specs.Limits.{max_tile};
ghost use Rattle.wcps_mean.specs.Cells.{exact2};
ghost use Rattle.wcps_text.specs.declared.operator.BinaryOperator.TheVariants.{Multiply, Divide};
ghost use Rattle.tile_kernel.specs.Columns.{operate_all, each2, each_with, AreValues, AreOutcomes, IsAsRoomy};
ghost use Rattle.tile_kernel.specs.Repeated.{shown};

use crate::column::{Column, MAX_PLACES, grow};
use crate::form::Form;
use crate::lanes::try_lanes;
use crate::loops::try_places;
use crate::operand::{Each, EachNarrow, Literal, Operand, Same};
use crate::operate_narrow::operate_narrow;
use crate::operations::{
    BitSet, Both, Difference, Either, IsAtLeast, IsAtMost, IsEqual, IsGreater, IsLess, IsOther,
    NarrowProduct, OneOnly, Product, Quotient, Sum,
};
use crate::paired::paired;
use crate::runs::NARROW_ROOM;
use crate::seen::Seen;
use crate::view::{View, parts};
use wcps_mean::{Outcome, PointFault, operate_both};
use wcps_text::BinaryOperator;

/// Makes `out` the operation at each place: the left operand's fault, else the right one's, else the exact result,
/// tested. Operands without faults are tried in one loop, and in 32 bits where their values are such and each result is
/// seen to be; only where some result there is no value is each place taken by itself. Operands over the same runs are
/// taken run by run where each result is a value. It takes memory for values of 32 bits and for the counts of runs
/// alone, and does without where there is none.
pub fn operate_columns(op: BinaryOperator, left: &Column, right: &Column, out: &mut Column)
    requires { length left.now ≡ length right.now }
    ensures { out.new ≡ operate_all op left.now right.now }
{
    let l = left.seen();
    let r = right.seen();
    operate_seen(op, &l, &r, out);
}

/// The operation on what two columns keep.
fn operate_seen(op: BinaryOperator, left: &Seen<'_>, right: &Seen<'_>, out: &mut Column)
    requires { length (shown left.now) ≡ length (shown right.now) }
    ensures { out.new ≡ operate_all op (shown left.now) (shown right.now) }
{
    if let Seen::Each(l) = left {
        if let Seen::Each(r) = right {
            operate_views(op, l, r, out);
            return;
        }
    }
    if operate_runs(op, left, right, out) {
        return;
    }
    operate_spread(op, left, right, out);
}

/// Makes `out` the operation run by run, where both go over the same runs and each result is a value; tells whether it
/// did.
fn operate_runs(op: BinaryOperator, left: &Seen<'_>, right: &Seen<'_>, out: &mut Column) -> bool
    requires { length (shown left.now) ≡ length (shown right.now) }
    ensures { IsTrue result → out.new ≡ operate_all op (shown left.now) (shown right.now) }
{
    match paired(left, right) {
        Some(pair) => {
            operate_views(op, &pair.left, &pair.right, out);
            return out.repeat(pair.counts, pair.len);
        }
        None => return false,
    }
}

/// The operation place by place, where an operand is kept as runs.
fn operate_spread(op: BinaryOperator, left: &Seen<'_>, right: &Seen<'_>, out: &mut Column)
    requires { length (shown left.now) ≡ length (shown right.now) }
    ensures { out.new ≡ operate_all op (shown left.now) (shown right.now) }
{
    if left.may_be_narrow()
        && right.may_be_narrow()
        && operate_spread_narrow(op, left, right, out)
    {
        return;
    }
    operate_spread_wide(op, left, right, out);
}

/// Tries the operation place by place in values of 32 bits; tells whether it did.
#[inline(never)]
fn operate_spread_narrow(
    op: BinaryOperator,
    left: &Seen<'_>,
    right: &Seen<'_>,
    out: &mut Column,
) -> bool
    requires { length (shown left.now) ≡ length (shown right.now) }
    ensures { IsTrue result → out.new ≡ operate_all op (shown left.now) (shown right.now) }
{
    match left {
        Seen::Each(view) => operate_spread_right(op, view, right, out),
        Seen::Runs(runs) => {
            let mut room = [0i32; NARROW_ROOM];
            match runs.spread_narrow(&mut room) {
                Some(view) => operate_spread_right(op, &view, right, out),
                None => false,
            }
        }
    }
}

/// Tries the operation place by place in values of 32 bits, where the left operand is kept place by place; tells
/// whether it did.
fn operate_spread_right(
    op: BinaryOperator,
    left: &View<'_>,
    right: &Seen<'_>,
    out: &mut Column,
) -> bool
    requires { length left.now ≡ length (shown right.now) }
    ensures { IsTrue result → out.new ≡ operate_all op left.now (shown right.now) }
{
    match right {
        Seen::Each(view) => operate_narrow(op, left, view, out),
        Seen::Runs(runs) => {
            let mut room = [0i32; NARROW_ROOM];
            match runs.spread_narrow(&mut room) {
                Some(view) => operate_narrow(op, left, &view, out),
                None => false,
            }
        }
    }
}

/// The operation place by place in values of 64 bits.
#[inline(never)]
fn operate_spread_wide(op: BinaryOperator, left: &Seen<'_>, right: &Seen<'_>, out: &mut Column)
    requires { length (shown left.now) ≡ length (shown right.now) }
    ensures { out.new ≡ operate_all op (shown left.now) (shown right.now) }
{
    let mut first = [0i64; MAX_PLACES];
    let mut second = [0i64; MAX_PLACES];
    let l = left.spread(&mut first);
    let r = right.spread(&mut second);
    operate_views(op, &l, &r, out);
}

/// The operation on outcomes at each place.
fn operate_views(op: BinaryOperator, left: &View<'_>, right: &View<'_>, out: &mut Column)
    requires { length left.now ≡ length right.now }
    ensures { out.new ≡ operate_all op left.now right.now }
{
    if let Form::Same(l) = left.form {
        if let Form::Same(r) = right.form {
            out.fill(left.len, operate_both(op, l, r));
            return;
        }
    }
    if operate_narrow(op, left, right, out) {
        return;
    }
    operate_wide(op, left, right, out);
}

/// The operation on outcomes at each place in values of 64 bits.
fn operate_wide(op: BinaryOperator, left: &View<'_>, right: &View<'_>, out: &mut Column)
    requires { length left.now ≡ length right.now }
    ensures { out.new ≡ operate_all op left.now right.now }
{
    grow(&mut out.values, left.len, 0);
    grow(&mut out.faults, left.len, None);
    out.len = left.len;
    out.runs = None;
    if try_columns(op, left, right, &mut out.values) {
        out.form = Form::Values;
        return;
    }
    operate_each(op, left, right, &mut out.values, &mut out.faults);
    out.form = Form::Mixed;
}

/// Tries an operation where no operand has a fault; tells whether each result is its outcome.
fn try_columns(op: BinaryOperator, left: &View<'_>, right: &View<'_>, out: &mut Vec<i64>) -> bool
    requires same { length left.now ≡ length right.now }
    requires room { length left.now ≤ length out.old.items }
    ensures value { IsTrue result → AreValues (length left.now) (each2 op left.now right.now) out.new.items }
    ensures room { IsAsRoomy out.old out.new }
{
    let cells = out.as_mut_slice();
    match left.form {
        Form::Values => {
            let values = left.values;
            return try_right(op, left.len, &Each { values }, right, cells);
        }
        Form::Narrow => {
            let values = left.narrow;
            return try_right(op, left.len, &EachNarrow { values }, right, cells);
        }
        Form::Same(o) => match o {
            Outcome::Value(value) => return try_right(op, left.len, &Same { value }, right, cells),
            Outcome::Fault(_) => return false,
        },
        Form::Mixed => return false,
    }
}

/// Tries an operation whose right operand is a column.
fn try_right<L: Operand>(
    op: BinaryOperator,
    len: usize,
    left: &L,
    right: &View<'_>,
    out: &mut [i64],
) -> bool
    requires left { len ≤ L.places left.now }
    requires right { len ≡ length right.now }
    requires out { len ≤ length out.old }
    ensures { IsTrue result → AreValues len (each_with op (L.value left.now) right.now) out.new }
{
    match right.form {
        Form::Values => {
            let values = right.values;
            return try_operation(op, len, left, &Each { values }, out);
        }
        Form::Narrow => {
            let values = right.narrow;
            return try_operation(op, len, left, &EachNarrow { values }, out);
        }
        Form::Same(o) => match o {
            Outcome::Value(value) => return try_scalar(op, len, left, value, out),
            Outcome::Fault(_) => return false,
        },
        Form::Mixed => return false,
    }
}

/// Tries an operation whose right operand is the same at every place.
fn try_scalar<L: Operand>(
    op: BinaryOperator,
    len: usize,
    left: &L,
    value: i64,
    out: &mut [i64],
) -> bool
    requires few { len ≤ max_tile }
    requires left { len ≤ L.places left.now }
    requires out { len ≤ length out.old }
    ensures { IsTrue result → AreValues len (λ k. exact2 op (L.value left.now k) value) out.new }
{
    match op {
        BinaryOperator::Divide => try_quotient(len, left, value, out),
        _ => try_operation(op, len, left, &Same { value }, out),
    }
}

/// Tries quotients by one divisor; tells whether each result is the quotient. A division by a number that the compiler
/// knows is shifts, or a multiplication.
fn try_quotient<L: Operand>(len: usize, left: &L, divisor: i64, out: &mut [i64]) -> bool
    requires few { len ≤ max_tile }
    requires left { len ≤ L.places left.now }
    requires out { len ≤ length out.old }
    ensures { IsTrue result → AreValues len (λ k. exact2 Divide (L.value left.now k) divisor) out.new }
{
    match divisor {
        2 => try_places::<Quotient, L, Literal<2>>(len, left, &Literal::<2>, out),
        4 => try_places::<Quotient, L, Literal<4>>(len, left, &Literal::<4>, out),
        8 => try_places::<Quotient, L, Literal<8>>(len, left, &Literal::<8>, out),
        16 => try_places::<Quotient, L, Literal<16>>(len, left, &Literal::<16>, out),
        10 => try_places::<Quotient, L, Literal<10>>(len, left, &Literal::<10>, out),
        100 => try_places::<Quotient, L, Literal<100>>(len, left, &Literal::<100>, out),
        1000 => try_places::<Quotient, L, Literal<1000>>(len, left, &Literal::<1000>, out),
        _ => try_places::<Quotient, L, Same>(len, left, &Same { value: divisor }, out),
    }
}

/// Tries an operation at the first `len` places; tells whether each result is its value.
fn try_operation<L: Operand, R: Operand>(
    op: BinaryOperator,
    len: usize,
    left: &L,
    right: &R,
    out: &mut [i64],
) -> bool
    requires left { len ≤ L.places left.now }
    requires right { len ≤ R.places right.now }
    requires out { len ≤ length out.old }
    ensures { IsTrue result → AreValues len (λ k. exact2 op (L.value left.now k) (R.value right.now k)) out.new }
{
    match op {
        BinaryOperator::Multiply => try_product(len, left, right, out),
        BinaryOperator::Divide => try_places::<Quotient, L, R>(len, left, right, out),
        BinaryOperator::Add => try_lanes::<Sum, L, R>(len, left, right, out),
        BinaryOperator::Subtract => try_lanes::<Difference, L, R>(len, left, right, out),
        BinaryOperator::Less => try_lanes::<IsLess, L, R>(len, left, right, out),
        BinaryOperator::LessEqual => try_lanes::<IsAtMost, L, R>(len, left, right, out),
        BinaryOperator::Greater => try_lanes::<IsGreater, L, R>(len, left, right, out),
        BinaryOperator::GreaterEqual => try_lanes::<IsAtLeast, L, R>(len, left, right, out),
        BinaryOperator::Equal => try_lanes::<IsEqual, L, R>(len, left, right, out),
        BinaryOperator::NotEqual => try_lanes::<IsOther, L, R>(len, left, right, out),
        BinaryOperator::And => try_lanes::<Both, L, R>(len, left, right, out),
        BinaryOperator::Or => try_lanes::<Either, L, R>(len, left, right, out),
        BinaryOperator::Xor => try_lanes::<OneOnly, L, R>(len, left, right, out),
        BinaryOperator::Bit => try_places::<BitSet, L, R>(len, left, right, out),
    }
}

/// Tries products, first as those of values that fit 32 bits; tells whether each result is the product.
fn try_product<L: Operand, R: Operand>(len: usize, left: &L, right: &R, out: &mut [i64]) -> bool
    requires left { len ≤ L.places left.now }
    requires right { len ≤ R.places right.now }
    requires out { len ≤ length out.old }
    ensures { IsTrue result → AreValues len (λ k. exact2 Multiply (L.value left.now k) (R.value right.now k)) out.new }
{
    if try_places::<NarrowProduct, L, R>(len, left, right, out) {
        return true;
    }
    try_places::<Product, L, R>(len, left, right, out)
}

/// The operation place by place.
fn operate_each(
    op: BinaryOperator,
    left: &View<'_>,
    right: &View<'_>,
    values: &mut Vec<i64>,
    faults: &mut Vec<Option<PointFault>>,
)
    requires same { length left.now ≡ length right.now }
    requires values { length left.now ≤ length values.old.items }
    requires faults { length left.now ≤ length faults.old.items }
    ensures values { IsAsRoomy values.old values.new }
    ensures faults { IsAsRoomy faults.old faults.new }
    ensures outcomes { AreOutcomes (length left.now) (each2 op left.now right.now) values.new.items faults.new.items }
{
    let numbers = values.as_mut_slice();
    let marks = faults.as_mut_slice();
    for place in 0..left.len() {
        let (value, fault) = parts(operate_both(op, left.at(place), right.at(place)));
        numbers[place] = value;
        marks[place] = fault;
    }
}
