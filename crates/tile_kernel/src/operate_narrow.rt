//! A cell operation over columns of 32 bits.

ghost use Rattle.std.specs.Prelude.{◌≡◌, ◌≤◌, ◌≤ℤ◌, pos, length, IfSome, IsTrue};
ghost use Rattle.arr_core.specs.Limits.{max_tile};
ghost use Rattle.wcps_mean.specs.declared.cell.Outcome.TheVariants.{Value};
ghost use Rattle.wcps_mean.specs.Cells.{exact2};
ghost use Rattle.wcps_text.specs.declared.operator.BinaryOperator.TheVariants.{Divide};
ghost use Rattle.tile_kernel.specs.Columns.{operate_all, each2, each_with};
ghost use Rattle.tile_kernel.specs.Narrow.{IsWritten};

use crate::column::{Column, grow};
use crate::form::Form;
use crate::narrow_loops::{fit_within, try_bounded, write_narrow};
use crate::narrow_operand::{NarrowOperand, SameNarrow};
use crate::operand::{EachNarrow, Literal};
use crate::operations::{
    Both, Difference, Either, IsAtLeast, IsAtMost, IsEqual, IsGreater, IsLess, IsOther, OneOnly,
    Product, Quotient, Sum, is_narrow,
};
use crate::view::View;
use wcps_mean::Outcome;
use wcps_text::BinaryOperator;

/// Makes `out` the operation at each place in values of 32 bits, if each operand is such values or one such value, each
/// result is seen to be one, and there is memory for them; tells whether it did.
pub(crate) fn operate_narrow(
    op: BinaryOperator,
    left: &View<'_>,
    right: &View<'_>,
    out: &mut Column,
) -> bool
    requires { length left.now ≡ length right.now }
    ensures { IsTrue result → out.new ≡ operate_all op left.now right.now }
{
    if !try_narrow(op, left, right, &mut out.narrow) {
        return false;
    }
    grow(&mut out.values, left.len, 0);
    grow(&mut out.faults, left.len, None);
    out.len = left.len;
    out.form = Form::Narrow;
    out.runs = None;
    true
}

/// The value of an outcome, if it fits 32 bits.
fn narrow_value(o: Outcome) -> Option<i32>
    ensures { IfSome result (λ v. o ≡ Value v) }
{
    match o {
        Outcome::Value(x) => {
            if is_narrow(x) {
                return Some(x as i32);
            }
            return None;
        }
        Outcome::Fault(_) => return None,
    }
}

/// Tries an operation in 32 bits; tells whether the list has its values.
fn try_narrow(op: BinaryOperator, left: &View<'_>, right: &View<'_>, out: &mut Vec<i32>) -> bool
    requires { length left.now ≡ length right.now }
    ensures { IsWritten result (length left.now) (each2 op left.now right.now) out.old.items out.new.items }
{
    match left.form {
        Form::Narrow => {
            let values = left.narrow;
            return try_narrow_right(op, left.len, &EachNarrow { values }, right, out);
        }
        Form::Same(o) => match narrow_value(o) {
            Some(value) => return try_narrow_right(op, left.len, &SameNarrow { value }, right, out),
            None => return false,
        },
        _ => return false,
    }
}

/// Tries an operation in 32 bits whose right operand is a column.
fn try_narrow_right<L: NarrowOperand>(
    op: BinaryOperator,
    len: usize,
    left: &L,
    right: &View<'_>,
    out: &mut Vec<i32>,
) -> bool
    requires left { len ≤ L.places left.now }
    requires right { len ≡ length right.now }
    ensures { IsWritten result len (each_with op (L.value left.now) right.now) out.old.items out.new.items }
{
    match right.form {
        Form::Narrow => {
            let values = right.narrow;
            return try_narrow_operation(op, len, left, &EachNarrow { values }, out);
        }
        Form::Same(o) => match narrow_value(o) {
            Some(value) => return try_narrow_scalar(op, len, left, value, out),
            None => return false,
        },
        _ => return false,
    }
}

/// Tries an operation in 32 bits whose right operand is the same at every place.
fn try_narrow_scalar<L: NarrowOperand>(
    op: BinaryOperator,
    len: usize,
    left: &L,
    value: i32,
    out: &mut Vec<i32>,
) -> bool
    requires few { len ≤ max_tile }
    requires left { len ≤ L.places left.now }
    ensures { IsWritten result len (λ k. exact2 op (L.value left.now k) value) out.old.items out.new.items }
{
    match op {
        BinaryOperator::Divide => {
            if value < 1 {
                return false;
            }
            return write_quotient(len, left, value, out);
        }
        _ => return try_narrow_operation(op, len, left, &SameNarrow { value }, out),
    }
}

/// Writes quotients by one divisor above 0 in 32 bits; tells whether it did. A division by a number that the compiler
/// knows is shifts, or a multiplication.
fn write_quotient<L: NarrowOperand>(len: usize, left: &L, divisor: i32, out: &mut Vec<i32>) -> bool
    requires few { len ≤ max_tile }
    requires left { len ≤ L.places left.now }
    requires divisor { pos 1 ≤ℤ divisor }
    ensures { IsWritten result len (λ k. exact2 Divide (L.value left.now k) divisor) out.old.items out.new.items }
{
    match divisor {
        2 => write_narrow::<Quotient, L, Literal<2>>(len, left, &Literal::<2>, out),
        4 => write_narrow::<Quotient, L, Literal<4>>(len, left, &Literal::<4>, out),
        8 => write_narrow::<Quotient, L, Literal<8>>(len, left, &Literal::<8>, out),
        16 => write_narrow::<Quotient, L, Literal<16>>(len, left, &Literal::<16>, out),
        10 => write_narrow::<Quotient, L, Literal<10>>(len, left, &Literal::<10>, out),
        100 => write_narrow::<Quotient, L, Literal<100>>(len, left, &Literal::<100>, out),
        1000 => write_narrow::<Quotient, L, Literal<1000>>(len, left, &Literal::<1000>, out),
        _ => write_narrow::<Quotient, L, SameNarrow>(
            len,
            left,
            &SameNarrow { value: divisor },
            out,
        ),
    }
}

/// Tries an operation in 32 bits at the first `len` places.
fn try_narrow_operation<L: NarrowOperand, R: NarrowOperand>(
    op: BinaryOperator,
    len: usize,
    left: &L,
    right: &R,
    out: &mut Vec<i32>,
) -> bool
    requires left { len ≤ L.places left.now }
    requires right { len ≤ R.places right.now }
    ensures { IsWritten result len (λ k. exact2 op (L.value left.now k) (R.value right.now k)) out.old.items out.new.items }
{
    match op {
        BinaryOperator::Add => match try_bounded::<Sum, L, R>(len, left, right, out) {
            Some(bounds) => return fit_within(bounds.left + bounds.right),
            None => return false,
        },
        BinaryOperator::Subtract => match try_bounded::<Difference, L, R>(len, left, right, out) {
            Some(bounds) => return fit_within(bounds.left + bounds.right),
            None => return false,
        },
        BinaryOperator::Multiply => match try_bounded::<Product, L, R>(len, left, right, out) {
            Some(bounds) => return fit_within(bounds.left * bounds.right),
            None => return false,
        },
        _ => return try_narrow_truths(op, len, left, right, out),
    }
}

/// Tries an operation in 32 bits whose results are truth values.
fn try_narrow_truths<L: NarrowOperand, R: NarrowOperand>(
    op: BinaryOperator,
    len: usize,
    left: &L,
    right: &R,
    out: &mut Vec<i32>,
) -> bool
    requires left { len ≤ L.places left.now }
    requires right { len ≤ R.places right.now }
    ensures { IsWritten result len (λ k. exact2 op (L.value left.now k) (R.value right.now k)) out.old.items out.new.items }
{
    match op {
        BinaryOperator::Less => write_narrow::<IsLess, L, R>(len, left, right, out),
        BinaryOperator::LessEqual => write_narrow::<IsAtMost, L, R>(len, left, right, out),
        BinaryOperator::Greater => write_narrow::<IsGreater, L, R>(len, left, right, out),
        BinaryOperator::GreaterEqual => write_narrow::<IsAtLeast, L, R>(len, left, right, out),
        BinaryOperator::Equal => write_narrow::<IsEqual, L, R>(len, left, right, out),
        BinaryOperator::NotEqual => write_narrow::<IsOther, L, R>(len, left, right, out),
        BinaryOperator::And => write_narrow::<Both, L, R>(len, left, right, out),
        BinaryOperator::Or => write_narrow::<Either, L, R>(len, left, right, out),
        BinaryOperator::Xor => write_narrow::<OneOnly, L, R>(len, left, right, out),
        _ => false,
    }
}
