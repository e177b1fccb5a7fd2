//! Outcomes at a point, and the operations on cells.
//!
//! A Boolean stands as 0 or 1; the static kind of an expression says which it is. Arithmetic is exact and then tested
//! against 64 bits. (WCPS, OGC 08-068r2: induced operations; the range of the integers is this server's own.)

ghost use Rattle.std.specs.Prelude.{◌≡◌, ◌≤◌, ℤ, ◌+ℤ◌, ◌-ℤ◌, ◌*ℤ◌, neg_ℤ, pos, nat_abs, SomeIff, FitsSigned, cond, ◌&&◌, ◌||◌};
ghost use Rattle.std.specs.Int.{w64};
ghost use Rattle.arr_core.specs.Cells.{truth_of};
ghost use Rattle.wcps_mean.specs.Cells.{ranged, truth, quotient, bit, int_eq, exact1, exact2, operate1, operate2, coordinate_in, at_position, TestsAs};

use arr_core::Refusal;
use wcps_text::{BinaryOperator, UnaryOperator};

/// The bits of a number.
const BITS: i64 = 64;

/// Why a point has no value.
#[derive(Clone, Copy, PartialEq, Eq, Debug)]
pub enum PointFault {
    /// A result outside 64 bits.
    Overflow,
    /// A divisor that is 0.
    DivideByZero,
    /// A position outside its axis interval.
    OutOfDomain,
    /// A greatest, a least or an average of no value.
    EmptyCondense,
    /// A bit number outside 0 to 63.
    BadBit,
}

impl PointFault {
    ghost use Rattle.wcps_mean.specs.Faults.{refusal_of};

    /// The refusal that a reply gives for it.
    pub fn refusal(self) -> Refusal
        ensures { result ≡ refusal_of self }
    {
        match self {
            PointFault::Overflow => Refusal::Overflow,
            PointFault::DivideByZero => Refusal::DivideByZero,
            PointFault::OutOfDomain => Refusal::OutOfDomain,
            PointFault::EmptyCondense => Refusal::EmptyCondense,
            PointFault::BadBit => Refusal::BadBit,
        }
    }
}

/// What a point gives: a value, where a Boolean is 0 or 1, or a fault.
#[derive(Clone, Copy, PartialEq, Eq)]
pub enum Outcome {
    Value(i64),
    Fault(PointFault),
}

/// The range test on an exact result that is there exactly where it has 64 bits.
fn tested(exact: Option<i64>) -> Outcome
    ensures { (z : ℤ) → SomeIff exact (FitsSigned w64 z) z → result ≡ ranged z }
{
    match exact {
        Some(z) => Outcome::Value(z),
        None => Outcome::Fault(PointFault::Overflow),
    }
}

/// The range test on an exact result.
pub(crate) fn range_test(exact: i128) -> Outcome
    ensures { result ≡ ranged exact }
{
    match i64::try_from(exact) {
        Ok(z) => Outcome::Value(z),
        Err(_) => Outcome::Fault(PointFault::Overflow),
    }
}

/// A truth value as a cell's number: 1 or 0.
pub fn truth_value(b: bool) -> Outcome
    ensures { result ≡ truth b }
{
    Outcome::Value(if b { 1 } else { 0 })
}

/// The sum, tested.
fn add(x: i64, y: i64) -> Outcome
    ensures { result ≡ ranged (x +ℤ y) }
{
    tested(x.checked_add(y))
}

/// The difference, tested.
fn subtract(x: i64, y: i64) -> Outcome
    ensures { result ≡ ranged (x -ℤ y) }
{
    tested(x.checked_sub(y))
}

/// The product, tested.
fn multiply(x: i64, y: i64) -> Outcome
    ensures { result ≡ ranged (x *ℤ y) }
{
    tested(x.checked_mul(y))
}

/// The quotient truncated toward zero, tested: only -2^63 / -1 leaves the range.
fn divide(x: i64, y: i64) -> Outcome
    ensures { result ≡ quotient x y }
{
    if y == 0 {
        Outcome::Fault(PointFault::DivideByZero)
    } else {
        tested(x.checked_div(y))
    }
}

/// The negative, tested.
fn negate(x: i64) -> Outcome
    ensures { result ≡ ranged (neg_ℤ x) }
{
    tested(x.checked_neg())
}

/// The magnitude, tested.
fn magnitude(x: i64) -> Outcome
    ensures { result ≡ ranged (pos (nat_abs x)) }
{
    if x < 0 { negate(x) } else { Outcome::Value(x) }
}

/// Whether a bit of the two's complement of `x` is set, by its number from 0 on.
fn bit_of(x: i64, place: i64) -> Outcome
    ensures { result ≡ bit x place }
{
    if 0 <= place && place < BITS {
        truth_value((x.cast_unsigned() >> place as u32) % 2 == 1)
    } else {
        Outcome::Fault(PointFault::BadBit)
    }
}

/// Whether a Boolean that stands as a number is true.
pub fn is_set(x: i64) -> bool
    ensures { result ≡ truth_of x }
{
    x != 0
}

/// 1 for a Boolean that is true and 0 for one that is false.
pub fn weight(x: i64) -> u32
    ensures value { result ≡ cond (truth_of x) 1 0 }
    ensures small { result ≤ 1 }
{
    if is_set(x) { 1 } else { 0 }
}

/// An operation on a value.
fn operate_on_value(op: UnaryOperator, x: i64) -> Outcome
    ensures { result ≡ exact1 op x }
{
    match op {
        UnaryOperator::Negate => negate(x),
        UnaryOperator::Plus => Outcome::Value(x),
        UnaryOperator::Not => truth_value(!is_set(x)),
        UnaryOperator::Absolute => magnitude(x),
    }
}

/// An operation on two values.
fn operate_on_values(op: BinaryOperator, x: i64, y: i64) -> Outcome
    ensures { result ≡ exact2 op x y }
{
    match op {
        BinaryOperator::Multiply => multiply(x, y),
        BinaryOperator::Divide => divide(x, y),
        BinaryOperator::Add => add(x, y),
        BinaryOperator::Subtract => subtract(x, y),
        BinaryOperator::Less => truth_value(x < y),
        BinaryOperator::LessEqual => truth_value(x <= y),
        BinaryOperator::Greater => truth_value(y < x),
        BinaryOperator::GreaterEqual => truth_value(y <= x),
        BinaryOperator::Equal => truth_value(are_equal(x, y)),
        BinaryOperator::NotEqual => truth_value(!are_equal(x, y)),
        BinaryOperator::And => truth_value(is_set(x) && is_set(y)),
        BinaryOperator::Or => truth_value(is_set(x) || is_set(y)),
        BinaryOperator::Xor => truth_value(is_set(x) != is_set(y)),
        BinaryOperator::Bit => bit_of(x, y),
    }
}

/// Whether two values are the same.
fn are_equal(x: i64, y: i64) -> bool
    ensures { result ≡ int_eq x y }
{
    x <= y && y <= x
}

/// An operation on the outcome of its operand: the operand's fault, else the exact result, tested.
pub fn operate(op: UnaryOperator, operand: Outcome) -> Outcome
    ensures { result ≡ operate1 op operand }
{
    match operand {
        Outcome::Fault(f) => Outcome::Fault(f),
        Outcome::Value(x) => operate_on_value(op, x),
    }
}

/// An operation on the outcomes of both operands: the left one's fault, else the right one's, else the exact result,
/// tested. `and` and `or` look at both operands too.
pub fn operate_both(op: BinaryOperator, left: Outcome, right: Outcome) -> Outcome
    ensures { result ≡ operate2 op left right }
{
    match left {
        Outcome::Fault(f) => Outcome::Fault(f),
        Outcome::Value(x) => match right {
            Outcome::Fault(f) => Outcome::Fault(f),
            Outcome::Value(y) => operate_on_values(op, x, y),
        },
    }
}

/// A position as a coordinate between two bounds, or its fault: `OutOfDomain` where it lies outside of them.
pub fn coordinate_in(position: Outcome, lo: i32, hi: i32) -> Result<i32, PointFault>
    ensures value { result ≡ coordinate_in position lo hi }
    ensures tests { TestsAs result (at_position position lo hi) }
{
    match position {
        Outcome::Fault(f) => Err(f),
        Outcome::Value(z) => {
            if lo as i64 <= z && z <= hi as i64 {
                Ok(z as i32)
            } else {
                Err(PointFault::OutOfDomain)
            }
        }
    }
}
