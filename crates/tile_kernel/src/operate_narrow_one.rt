//! A cell operation over one column of 32 bits.

ghost use Rattle.std.specs.Prelude.{◌≡◌, ◌≤◌, length, map, IsTrue};
ghost use Rattle.arr_core.specs.Limits.{max_tile};
ghost use Rattle.wcps_mean.specs.Cells.{exact1, operate1};
ghost use Rattle.tile_kernel.specs.Columns.{each1};
ghost use Rattle.tile_kernel.specs.Narrow.{IsWritten};

use crate::column::{Column, grow};
use crate::form::Form;
use crate::narrow_loops::{fit_within, try_bounded, write_narrow};
use crate::narrow_operand::{NarrowOperand, SameNarrow};
use crate::operand::EachNarrow;
use crate::operations::{Itself, Magnitude, Negative, Opposite};
use crate::view::View;
use wcps_text::UnaryOperator;

/// Makes `out` the operation at each place in values of 32 bits, if the operand is such values, each result is seen to
/// be one, and there is memory for them; tells whether it did.
pub(crate) fn operate_narrow_one(op: UnaryOperator, operand: &View<'_>, out: &mut Column) -> bool
    ensures { IsTrue result → out.new ≡ map (operate1 op) operand.now }
{
    if !try_narrow_column(op, operand, &mut out.narrow) {
        return false;
    }
    grow(&mut out.values, operand.len, 0);
    grow(&mut out.faults, operand.len, None);
    out.len = operand.len;
    out.form = Form::Narrow;
    out.runs = None;
    true
}

/// Tries an operation in 32 bits; tells whether the list has its values.
fn try_narrow_column(op: UnaryOperator, operand: &View<'_>, out: &mut Vec<i32>) -> bool
    ensures { IsWritten result (length operand.now) (each1 op operand.now) out.old.items out.new.items }
{
    match operand.form {
        Form::Narrow => {
            let values = operand.narrow;
            return try_narrow_one(op, operand.len, &EachNarrow { values }, out);
        }
        _ => return false,
    }
}

/// Tries an operation in 32 bits at the first `len` places.
fn try_narrow_one<V: NarrowOperand>(
    op: UnaryOperator,
    len: usize,
    operand: &V,
    out: &mut Vec<i32>,
) -> bool
    requires operand { len ≤ V.places operand.now }
    requires few { len ≤ max_tile }
    ensures { IsWritten result len (λ k. exact1 op (V.value operand.now k)) out.old.items out.new.items }
{
    let none = SameNarrow { value: 0 };
    match op {
        UnaryOperator::Not => write_narrow::<Opposite, V, SameNarrow>(len, operand, &none, out),
        UnaryOperator::Negate => match try_bounded::<Negative, V, SameNarrow>(
            len, operand, &none, out,
        ) {
            Some(bounds) => fit_within(bounds.left),
            None => false,
        },
        UnaryOperator::Plus => match try_bounded::<Itself, V, SameNarrow>(
            len, operand, &none, out,
        ) {
            Some(bounds) => fit_within(bounds.left),
            None => false,
        },
        UnaryOperator::Absolute => match try_bounded::<Magnitude, V, SameNarrow>(
            len, operand, &none, out,
        ) {
            Some(bounds) => fit_within(bounds.left),
            None => false,
        },
    }
}
