//! Bodies that are made of an equation, and their columns.

ghost use Rattle.std.specs.Prelude.{◌≡◌, pos, length, replicate, IfOk, IsTrue};
ghost use Rattle.std.specs.List.{All};
ghost use Rattle.wcps_mean.specs.declared.cell.Outcome.TheVariants.{Value};
ghost use Rattle.tile_columns.specs.Shapes.{joined_all, IsZero};

use crate::frame::Frame;
use crate::scratch::Scratch;
use std::alloc::AllocError;
use tile_kernel::{Column, operate_column, operate_columns};
use wcps_mean::Outcome;
use wcps_text::{BinaryOperator, UnaryOperator};

/// How a body is made of an equation.
#[derive(Clone, Copy)]
pub(crate) enum Shape {
    /// It is the equation.
    Alone,
    /// It is an operation whose left operand is the equation.
    First(BinaryOperator),
    /// It is an operation whose right operand is the equation.
    Second(BinaryOperator),
}

/// Makes `out` the outcomes of a body of a shape, of those of its equation and of its other operand.
pub(crate) fn join(shape: Shape, equation: &Column, other: &Column, out: &mut Column)
    requires { length equation.now ≡ length other.now }
    ensures { out.new ≡ joined_all shape equation.now other.now }
{
    match shape {
        Shape::Alone => operate_column(UnaryOperator::Plus, equation, out),
        Shape::First(op) => operate_columns(op, equation, other, out),
        Shape::Second(op) => operate_columns(op, other, equation, out),
    }
}

/// Makes `out` the same where the equation has one outcome at each place, of which `same` becomes a column.
pub(crate) fn join_same(
    shape: Shape,
    equation: Outcome,
    other: &Column,
    same: &mut Column,
    out: &mut Column,
)
    ensures { out.new ≡ joined_all shape (replicate (length other.now) equation) other.now }
{
    same.fill(other.len(), equation);
    join(shape, same, other, out);
}

/// A column of what is true, at the places of a frame.
pub(crate) fn always_true(frame: &Frame, scratch: &mut Scratch) -> Result<Column, AllocError>
    ensures { IfOk result (λ c. c ≡ replicate (length frame.now) (Value (pos 1))) }
{
    let mut out = scratch.take_column()?;
    out.fill(frame.places(), Outcome::Value(1));
    Ok(out)
}

/// Whether an outcome is the value 0.
fn is_zero(o: Outcome) -> bool
    ensures { IsTrue result → IsZero o }
{
    match o {
        Outcome::Value(z) => z == 0,
        Outcome::Fault(_) => false,
    }
}

/// Whether each outcome of a column is the value 0.
pub(crate) fn are_zeros(column: &Column) -> bool
    ensures { IsTrue result → All IsZero column.now }
{
    for k in 0..column.len() {
        if !is_zero(column.at(k)) {
            return false;
        }
    }
    true
}
